// A board: the labels of a field or of a node, beside the engine or store that is told of them.
ghost use Rattle.std.specs.Prelude.{◌≡◌, ℕ, ◌<◌, Bool, true, false, List, [], ◌∷◌, ◌++◌, length, is_err, IfOk, Some, None, ◌==◌};
ghost use Rattle.labels.specs.Labels.{occurrences, standing, Standing};
ghost use Rattle.parts.specs.Asked.{Succeeds};
ghost use Rattle.parts.specs.Meaning.{label_fault};
ghost use Rattle.labelling.specs.Boards.{Stands};

use crate::told::{emptied, enter, leave};
use fields::faults::Fault;
use fields::keys::Key;
use labels::table::{Acquired, LabelTable};
use parts::told::Told;

#[derive(Drop)]
pub struct Board<V, P> {
    pub table: LabelTable<V>,
    pub part: P,
}

impl<V: Key, P: Told<V>> Board<V, P> {
    // A board with every label free, over the part emptied.
    pub fn make(part: P) -> Board<V, P>
        ensures stands { Stands V.Key.eq P.Told.shows result.table.slots result.part [] 0 }
        ensures asked { P.Told.agrees result.part [] }
    {
        Board {
            table: LabelTable::empty(),
            part: emptied(part),
        }
    }

    // The key's label, with its count raised, or a free one, of which the part is told.
    pub fn enter(&mut self, key: V) -> Result<Acquired, Fault>
        ensures entered { (before after : List (Standing V)) (n : ℕ) → Stands V.Key.eq P.Told.shows self.old.table.slots self.old.part (before ++ after) n → length (before ++ after) < 96 → label_fault (V.Key.labels key) ≡ None → Succeeds result (λ a. (a.label < 96) × (a.new ≡ (occurrences V.Key.eq key (before ++ after) == 0)) × Stands V.Key.eq P.Told.shows self.new.table.slots self.new.part (before ++ standing key a.label ∷ after) n) }
        ensures untold { IfOk result (λ a. a.new ≡ false → self.new.part ≡ self.old.part) }
        ensures kept { is_err result ≡ true → self.new.part ≡ self.old.part }
        ensures asked { (l : List P.Asked) → P.Told.agrees self.old.part l → P.Told.agrees self.new.part l }
    {
        enter(&mut self.table, &mut self.part, key)
    }

    // Gives a label back, for one filter that has it, and says whether it was freed; then the part is told.
    pub fn leave(&mut self, label: u8) -> Result<bool, Fault>
        ensures left { (before after : List (Standing V)) (key : V) (n : ℕ) → Stands V.Key.eq P.Told.shows self.old.table.slots self.old.part (before ++ standing key label ∷ after) n → Succeeds result (λ freed. (freed ≡ (occurrences V.Key.eq key (before ++ after) == 0)) × Stands V.Key.eq P.Told.shows self.new.table.slots self.new.part (before ++ after) n) }
        ensures untold { IfOk result (λ freed. freed ≡ false → self.new.part ≡ self.old.part) }
        ensures kept { is_err result ≡ true → self.new.part ≡ self.old.part }
        ensures asked { (l : List P.Asked) → P.Told.agrees self.old.part l → P.Told.agrees self.new.part l }
    {
        leave(&mut self.table, &mut self.part, label)
    }
}
