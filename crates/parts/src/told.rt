// What engines and stores have in common: 96 places that are told which values are in use.
ghost use Rattle.std.specs.Prelude.{◌≡◌, true, List, [], is_err};
ghost use Rattle.fields.specs.Faults.{answer};
ghost use Rattle.parts.specs.Meaning.{Meaning, Proper, nothing, set_fault, after_set, cleared, after_clear};

use fields::faults::Fault;
use fields::keys::Key;

pub trait Told<V: Key> {
    // what it is asked: a header's number, or a pair of labels
    type Asked;

    // the part holds what the meaning says, and was asked as often
    ghost shows: { Self → Meaning V → Type 0 };

    // the part may have been asked exactly this list of questions since it was emptied
    ghost agrees: { Self → List Self.Asked → Type 0 };

    fn empty(&mut self)
        ensures held { shows self.new nothing }
        ensures asked { agrees self.new [] };

    fn set(&mut self, place: u8, value: V) -> Result<(), Fault>
        ensures result { (m : Meaning V) → shows self.old m → result ≡ answer (set_fault V.Key.eq V.Key.labels m.places place value) tt }
        ensures held { (m : Meaning V) → shows self.old m → shows self.new (after_set V.Key.eq V.Key.labels m place value) }
        ensures kept { is_err result ≡ true → self.new ≡ self.old }
        ensures asked { (l : List Self.Asked) → agrees self.old l → agrees self.new l };

    fn clear(&mut self, place: u8) -> Result<V, Fault>
        ensures result { (m : Meaning V) → shows self.old m → result ≡ cleared m.places place }
        ensures held { (m : Meaning V) → shows self.old m → shows self.new (after_clear m place) }
        ensures kept { is_err result ≡ true → self.new ≡ self.old }
        ensures asked { (l : List Self.Asked) → agrees self.old l → agrees self.new l };

    ghost proper: { (s : Self) (m : Meaning V) → shows s m → Proper m };
}
