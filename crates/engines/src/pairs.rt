// At most two labels, written in rising order.
ghost use Rattle.std.specs.Prelude.{◌≡◌, ◌≤◌, length, IfOk};
ghost use Rattle.fields.specs.Faults.{answer, unless};
ghost use Rattle.parts.specs.Meaning.{list_fault};
ghost use Rattle.parts.specs.Marks.{over_start};
ghost use Rattle.engines.specs.Rising.{rising};

use fields::faults::Fault;
use parts::checks::check_room;

// Writes the labels there are, rising, from the start of the list, and answers how many; from two labels, where others go over marks.
pub fn write_rising(first: Option<u8>, second: Option<u8>, list: &mut [u8]) -> Result<usize, Fault>
    ensures result { result ≡ answer (list_fault (length list.old)) (length (rising first second)) }
    ensures written { list.new ≡ unless (list_fault (length list.old)) list.old (over_start (rising first second) list.old) }
    ensures few { IfOk result (λ n. n ≤ 96) }
{
    check_room(list)?;
    match (first, second) {
        (None, None) => Ok(0),
        (Some(label), None) | (None, Some(label)) => {
            list[0] = label;
            Ok(1)
        }
        (Some(a), Some(b)) => {
            list[0] = a.min(b);
            list[1] = a.max(b);
            Ok(2)
        }
    }
}
