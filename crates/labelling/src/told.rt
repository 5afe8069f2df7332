// Keys that come into use and go: the part is told only when a count leaves or reaches 0.
ghost use Rattle.std.specs.Prelude.{◌≡◌, ℕ, ◌<◌, Bool, true, false, List, [], ◌∷◌, ◌++◌, length, is_err, IfOk, Some, None, ◌==◌};
ghost use Rattle.labels.specs.Labels.{occurrences, standing, Standing};
ghost use Rattle.parts.specs.Asked.{Succeeds};
ghost use Rattle.parts.specs.Meaning.{nothing, label_fault};
ghost use Rattle.labelling.specs.Boards.{Stands};

use fields::faults::Fault;
use fields::keys::Key;
use labels::table::{Acquired, LabelTable};
use parts::told::Told;

// The part, emptied.
// Apart from a board's `make`, for the same reason as `enter`.
pub fn emptied<V: Key, P: Told<V>>(mut part: P) -> P
    ensures held { P.Told.shows result nothing }
    ensures asked { P.Told.agrees result [] }
{
    part.empty();
    part
}

// The key's label, with its count raised, or a free one, of which the part is told.
// Apart from a board's method: that one asks that the board fits in memory, which is not known of a board of any engine.
pub fn enter<V: Key, P: Told<V>>(
    table: &mut LabelTable<V>,
    part: &mut P,
    key: V,
) -> Result<Acquired, Fault>
    ensures entered { (before after : List (Standing V)) (n : ℕ) → Stands V.Key.eq P.Told.shows table.old.slots part.old (before ++ after) n → length (before ++ after) < 96 → label_fault (V.Key.labels key) ≡ None → Succeeds result (λ a. (a.label < 96) × (a.new ≡ (occurrences V.Key.eq key (before ++ after) == 0)) × Stands V.Key.eq P.Told.shows table.new.slots part.new (before ++ standing key a.label ∷ after) n) }
    ensures untold { IfOk result (λ a. a.new ≡ false → part.new ≡ part.old) }
    ensures kept { is_err result ≡ true → part.new ≡ part.old }
    ensures asked { (l : List P.Asked) → P.Told.agrees part.old l → P.Told.agrees part.new l }
{
    let acquired = table.acquire(key).ok_or(Fault::Crowded)?;
    if acquired.new {
        part.set(acquired.label, key)?;
    }
    Ok(acquired)
}

// Gives a label back, for one filter that has it, and says whether it was freed; then the part is told.
// Apart from a board's method, for the same reason as `enter`.
pub fn leave<V: Key, P: Told<V>>(
    table: &mut LabelTable<V>,
    part: &mut P,
    label: u8,
) -> Result<bool, Fault>
    ensures left { (before after : List (Standing V)) (key : V) (n : ℕ) → Stands V.Key.eq P.Told.shows table.old.slots part.old (before ++ standing key label ∷ after) n → Succeeds result (λ freed. (freed ≡ (occurrences V.Key.eq key (before ++ after) == 0)) × Stands V.Key.eq P.Told.shows table.new.slots part.new (before ++ after) n) }
    ensures untold { IfOk result (λ freed. freed ≡ false → part.new ≡ part.old) }
    ensures kept { is_err result ≡ true → part.new ≡ part.old }
    ensures asked { (l : List P.Asked) → P.Told.agrees part.old l → P.Told.agrees part.new l }
{
    let released = table.release(label).ok_or(Fault::Vacant(label))?;
    if released.freed {
        part.clear(label)?;
    }
    Ok(released.freed)
}
