// What every field engine does: it serves one field, and finds the labels of all satisfied values.
ghost use Rattle.std.specs.Prelude.{◌≡◌, ℕ, ◌<◌, ◌≤◌, true, List, [], ◌∷◌, ◌++◌, length, is_err, IfOk, Err, OnOk};
ghost use Rattle.fields.specs.declared.faults.Fault.TheVariants.{Short};
ghost use Rattle.fields.specs.Faults.{answer, unless};
ghost use Rattle.parts.specs.Meaning.{Meaning, asked_once, list_fault};
ghost use Rattle.parts.specs.Marks.{labels_of, over_start};

use fields::faults::Fault;
use fields::kinds::Kind;
use parts::told::Told;

pub trait Engine<V: Kind>: Told<V, Asked = u32> {
    // Writes the labels of all values that the number satisfies, rising, from the start of the list, and answers how many.
    // The list is the caller's, as a list that is too short is refused.
    fn matches(&mut self, number: u32, list: &mut [u8]) -> Result<usize, Fault>
        ensures result { (m : Meaning V) → Self.Told.shows self.old m → result ≡ answer (list_fault (length list.old)) (length (labels_of (λ v. V.Kind.satisfied v number) m.places)) }
        ensures written { (m : Meaning V) → Self.Told.shows self.old m → list.new ≡ unless (list_fault (length list.old)) list.old (over_start (labels_of (λ v. V.Kind.satisfied v number) m.places) list.old) }
        ensures held { (m : Meaning V) → Self.Told.shows self.old m → Self.Told.shows self.new (unless (list_fault (length list.old)) m (asked_once m)) }
        ensures asked { OnOk result ((l : List ℕ) → Self.Told.agrees self.old l → Self.Told.agrees self.new (l ++ number ∷ [])) }
        ensures short { length list.old < 96 → result ≡ Err (Short (length list.old)) }
        ensures kept { is_err result ≡ true → (self.new ≡ self.old) × (list.new ≡ list.old) }
        ensures few { IfOk result (λ n. n ≤ 96) };
}
