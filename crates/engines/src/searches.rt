// Searches of a table of rows: which value lies at a place, where a value lies, and which values a number satisfies.
// The rows are their owner's and which are full is the engine's record, so the two are handed on side by side.
ghost use Rattle.std.specs.Prelude.{◌≡◌, List, map, None, Option, slice_index_or};
ghost use Rattle.parts.specs.Meaning.{find as label_of};
ghost use Rattle.parts.specs.Marks.{hit};
ghost use Rattle.engines.specs.Tables.{Lies};

use crate::used::Used;
use fields::kinds::Kind;
use parts::marks::PLACES;

// What a place holds: the value of its row, formed by the same check as at first.
pub fn held<R: Copy, V: Kind<Row = R>>(rows: &[R], used: &Used, place: usize) -> Option<V>
    ensures { (xs : List (Option V)) → Lies V.Kind.plain rows.now used.now.full xs → result ≡ slice_index_or xs place None }
{
    if !used.is_full(place) {
        return None;
    }
    V::form(*rows.get(place)?).ok()
}

// The label of the place that holds a value.
pub fn place_of<R: Copy, V: Kind<Row = R>>(rows: &[R], used: &Used, value: V) -> Option<u8>
    ensures { (xs : List (Option V)) → Lies V.Kind.plain rows.now used.now.full xs → result ≡ label_of V.Key.eq xs value }
{
    (0..used.top()).find(|label| Some(value) == held(rows, used, *label as usize))
}

// Marks for the labels of the values that a number satisfies.
pub fn satisfied_marks<R: Copy, V: Kind<Row = R>>(
    rows: &[R],
    used: &Used,
    number: u32,
) -> [bool; PLACES]
    ensures { (xs : List (Option V)) → Lies V.Kind.plain rows.now used.now.full xs → result ≡ map (hit (λ v. V.Kind.satisfied v number)) xs }
{
    let mut marks = [false; PLACES];
    // only places below the top can be full
    for place in 0..used.top() as usize {
        marks[place] = held::<R, V>(rows, used, place).is_some_and(|value| value.takes(number));
    }
    marks
}
