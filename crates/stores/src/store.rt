// What every store does: it serves one node, and finds the label of a pair.
ghost use Rattle.std.specs.Prelude.{◌≡◌, ◌<◌, true, List, [], ◌∷◌, ◌++◌, IfSome, is_err, IfOk, Some, Err, OnOk};
ghost use Rattle.fields.specs.declared.faults.Fault.{Fault};
ghost use Rattle.fields.specs.Faults.{answer, unless};
ghost use Rattle.parts.specs.Meaning.{Meaning, find as label_of, asked_once, label_fault};
ghost use Rattle.stores.specs.Pairs.{pair, same_pair};
ghost use Rattle.stores.specs.declared.pairs.Pair.{Pair};

use crate::pairs::Pair;
use fields::faults::Fault;
use parts::told::Told;

pub trait Store: Told<Pair, Asked = Pair> {
    // The label of a pair, or none where no place holds it.
    // It takes two labels, one of each list, as the search has them.
    fn find(&mut self, left: u8, right: u8) -> Result<Option<u8>, Fault>
        ensures result { (m : Meaning Pair) → Self.Told.shows self.old m → result ≡ answer (label_fault (left ∷ right ∷ [])) (label_of same_pair m.places (pair left right)) }
        ensures held { (m : Meaning Pair) → Self.Told.shows self.old m → Self.Told.shows self.new (unless (label_fault (left ∷ right ∷ [])) m (asked_once m)) }
        ensures asked { OnOk result ((l : List Pair) → Self.Told.agrees self.old l → Self.Told.agrees self.new (l ++ pair left right ∷ [])) }
        ensures refused { (f : Fault) → label_fault (left ∷ right ∷ []) ≡ Some f → result ≡ Err f }
        ensures kept { is_err result ≡ true → self.new ≡ self.old }
        ensures below { IfOk result (λ o. IfSome o (λ l. l < 96)) };
}
