// The scan engine: one text for every kind of value, over a table of rows that its owner supplies.
ghost use Rattle.std.specs.Prelude.{◌≡◌, ℕ, ◌%◌, ◌^◌, ◌<◌, ◌≤◌, true, false, List, [], ◌∷◌, ◌++◌, length, replicate, is_err, IfOk, Err, OnOk};
ghost use Rattle.fields.specs.declared.faults.Fault.TheVariants.{Short};
ghost use Rattle.fields.specs.Faults.{answer, unless};
ghost use Rattle.parts.specs.Asked.{Agrees};
ghost use Rattle.parts.specs.Meaning.{Meaning, nothing, set_fault, after_set, cleared, after_clear, asked_once, list_fault};
ghost use Rattle.parts.specs.Marks.{labels_of, over_start};
ghost use Rattle.engines.specs.Scans.{Shows, RestKept};
ghost use Rattle.std.proofs.Common.{rules};

use crate::engine::Engine;
use crate::rows::Rows;
use crate::searches::{held, place_of, satisfied_marks};
use crate::used::Used;
use fields::faults::Fault;
use fields::kinds::Kind;
use parts::checks::{check_clear, check_set};
use parts::marks::write_marked;
use parts::told::Told;
use std::marker::PhantomData;

// Which places are full is the engine's own record, whatever rows the table has at first.
#[derive(Drop)]
pub struct Scan<R: Copy, T: Rows<R>> {
    table: T,
    row: PhantomData<R>,
    used: Used,
    asked: u32,
}

impl<R: Copy, T: Rows<R>> Scan<R, T> {
    // An empty engine over a table.
    pub fn over(table: T) -> Scan<R, T>
        ensures table { result.table ≡ table }
        ensures vacant { result.used.full ≡ replicate 96 false }
        ensures asked { result.asked ≡ 0 }
    {
        Scan {
            table,
            row: PhantomData,
            used: Used::none(),
            asked: 0,
        }
    }

    // A method of each engine: one of `Told` would leave open at a scan engine's call for which kind of value it is meant.
    pub fn asked_number(&self) -> u32
        ensures { result ≡ self.now.asked }
    {
        self.asked
    }
}

// The trait's clauses stand here again, since a method that promises more than its trait, as of the rows past the 96th,
// has its own clauses in place of the trait's.
impl<R: Copy, T: Rows<R>, V: Kind<Row = R>> Told<V> for Scan<R, T> {
    type Asked = u32;

    ghost shows = { Shows V.Kind.plain T.Rows.items };

    ghost agrees = { λ s l. Agrees s.asked l };

    ghost proper = { Prim.search rules };

    fn empty(&mut self)
        ensures held { Shows V.Kind.plain T.Rows.items self.new nothing }
        ensures asked { self.new.asked ≡ 0 }
        ensures rest { RestKept T.Rows.items self.old self.new }
    {
        self.used = Used::none();
        self.asked = 0;
    }

    fn set(&mut self, place: u8, value: V) -> Result<(), Fault>
        ensures result { (m : Meaning V) → Shows V.Kind.plain T.Rows.items self.old m → result ≡ answer (set_fault V.Key.eq V.Key.labels m.places place value) tt }
        ensures held { (m : Meaning V) → Shows V.Kind.plain T.Rows.items self.old m → Shows V.Kind.plain T.Rows.items self.new (after_set V.Key.eq V.Key.labels m place value) }
        ensures kept { is_err result ≡ true → self.new ≡ self.old }
        ensures asked { (l : List ℕ) → Agrees self.old.asked l → Agrees self.new.asked l }
        ensures rest { RestKept T.Rows.items self.old self.new }
    {
        let at = place as usize;
        let rows = self.table.rows();
        let held = held::<R, V>(rows, &self.used, at);
        // a call that is refused for its place searches nothing
        check_set(place, &[], held, None)?;
        check_set(place, &[], held, place_of(rows, &self.used, value))?;
        self.table.put(at, value.row());
        self.used.fill(at);
        Ok(())
    }

    fn clear(&mut self, place: u8) -> Result<V, Fault>
        ensures result { (m : Meaning V) → Shows V.Kind.plain T.Rows.items self.old m → result ≡ cleared m.places place }
        ensures held { (m : Meaning V) → Shows V.Kind.plain T.Rows.items self.old m → Shows V.Kind.plain T.Rows.items self.new (after_clear m place) }
        ensures kept { is_err result ≡ true → self.new ≡ self.old }
        ensures asked { (l : List ℕ) → Agrees self.old.asked l → Agrees self.new.asked l }
        ensures rest { RestKept T.Rows.items self.old self.new }
    {
        let at = place as usize;
        let value = check_clear(place, held::<R, V>(self.table.rows(), &self.used, at))?;
        self.used.free(at);
        Ok(value)
    }
}

impl<R: Copy, T: Rows<R>, V: Kind<Row = R>> Engine<V> for Scan<R, T> {
    fn matches(&mut self, number: u32, list: &mut [u8]) -> Result<usize, Fault>
        ensures result { (m : Meaning V) → Shows V.Kind.plain T.Rows.items self.old m → result ≡ answer (list_fault (length list.old)) (length (labels_of (λ v. V.Kind.satisfied v number) m.places)) }
        ensures written { (m : Meaning V) → Shows V.Kind.plain T.Rows.items self.old m → list.new ≡ unless (list_fault (length list.old)) list.old (over_start (labels_of (λ v. V.Kind.satisfied v number) m.places) list.old) }
        ensures held { (m : Meaning V) → Shows V.Kind.plain T.Rows.items self.old m → Shows V.Kind.plain T.Rows.items self.new (unless (list_fault (length list.old)) m (asked_once m)) }
        ensures asked { OnOk result ((l : List ℕ) → Agrees self.old.asked l → Agrees self.new.asked (l ++ number ∷ [])) }
        ensures short { length list.old < 96 → result ≡ Err (Short (length list.old)) }
        ensures kept { is_err result ≡ true → (self.new ≡ self.old) × (list.new ≡ list.old) }
        ensures few { IfOk result (λ n. n ≤ 96) }
        ensures rest { RestKept T.Rows.items self.old self.new }
    {
        let marks = satisfied_marks::<R, V>(self.table.rows(), &self.used, number);
        let count = write_marked(&marks, list)?;
        self.asked = self.asked.wrapping_add(1);
        Ok(count)
    }
}
