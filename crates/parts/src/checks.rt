// Tables read and written at any index, and the checks that every part makes.
ghost use Rattle.std.specs.Prelude.{◌≡◌, None, length, find, nat_lt, slice_index_or, slice_set};
ghost use Rattle.fields.specs.Faults.{answer};
ghost use Rattle.parts.specs.Meaning.{label_fault, list_fault};
ghost use Rattle.parts.specs.Checks.{set_refusal, taken_from};

use crate::marks::PLACES;
use fields::faults::Fault;

// What stands at an index; nothing past the end.
pub fn entry_at<T: Copy>(list: &[Option<T>], index: usize) -> Option<T>
    ensures { result ≡ slice_index_or list.now index None }
{
    list.get(index).copied().flatten()
}

// Writes at an index; past the end this changes nothing.
pub fn put_at<T: Copy>(list: &mut [T], index: usize, value: T)
    ensures { list.new ≡ slice_set list.old index value }
{
    if index < list.len() {
        list[index] = value;
    }
}

// Refuses the first number above 95.
pub fn check_labels(labels: &[u8]) -> Result<(), Fault>
    ensures { result ≡ answer (label_fault labels.now) tt }
{
    match first_beyond(labels) {
        Some(label) => Err(Fault::Label(label)),
        None => Ok(()),
    }
}

fn first_beyond(labels: &[u8]) -> Option<u8>
    ensures { result ≡ find (λ l. nat_lt 95 l) labels.now }
{
    labels
        .iter()
        .copied()
        .find(|label| *label as usize >= PLACES)
}

// Whether a value that names these labels may be set at a place that holds `held`, when the part found the value at `found`.
pub fn check_set<V: Copy>(
    place: u8,
    labels: &[u8],
    held: Option<V>,
    found: Option<u8>,
) -> Result<(), Fault>
    ensures { result ≡ answer (set_refusal place labels.now held found) tt }
{
    check_labels(&[place])?;
    check_labels(labels)?;
    if held.is_some() {
        return Err(Fault::Full(place));
    }
    match found {
        Some(label) => Err(Fault::Elsewhere(label)),
        None => Ok(()),
    }
}

// The value that a place holds, for clear.
pub fn check_clear<V: Copy>(place: u8, held: Option<V>) -> Result<V, Fault>
    ensures { result ≡ taken_from place held }
{
    check_labels(&[place]).and(held.ok_or(Fault::Vacant(place)))
}

// Whether a list has room for the labels of all places, or a table a row for each.
pub fn check_room<T: Copy>(list: &[T]) -> Result<(), Fault>
    ensures { result ≡ answer (list_fault (length list.now)) tt }
{
    if list.len() < PLACES {
        return Err(Fault::Short(list.len() as u8));
    }
    Ok(())
}
