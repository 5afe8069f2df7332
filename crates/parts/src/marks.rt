// Marks for labels that were found, and the list of the marked ones.
ghost use Rattle.std.specs.Prelude.{◌≡◌, ◌≤◌, length, take, IfOk};
ghost use Rattle.fields.specs.Faults.{answer, unless};
ghost use Rattle.parts.specs.Meaning.{list_fault};
ghost use Rattle.parts.specs.Marks.{mark_found, marked, over_start, ListsMarked};

use crate::checks::{check_room, put_at};
use fields::faults::Fault;

// How many places a part has.
pub const PLACES: usize = 96;

// Marks a label that was found.
pub fn mark(marks: &mut [bool; PLACES], found: Option<u8>)
    ensures { marks.new ≡ mark_found marks.old found }
{
    if let Some(label) = found {
        put_at(marks, label as usize, true);
    }
}

// Writes the labels that are marked, rising, from the start of the list, and answers how many.
pub fn write_marked(marks: &[bool; PLACES], list: &mut [u8]) -> Result<usize, Fault>
    ensures result { result ≡ answer (list_fault (length list.old)) (length (marked marks.now)) }
    ensures written { list.new ≡ unless (list_fault (length list.old)) list.old (over_start (marked marks.now) list.old) }
    ensures exactly { IfOk result (λ n. ListsMarked marks.now (take n list.new)) }
    ensures few { IfOk result (λ n. n ≤ 96) }
{
    check_room(list)?;
    // Counted by hand: of what is written through an adapter of iter_mut a contract says nothing.
    let mut count = 0;
    for (label, marked) in marks.iter().enumerate() {
        if *marked {
            list[count] = label as u8;
            count += 1;
        }
    }
    Ok(count)
}
