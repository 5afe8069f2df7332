// Why a value does not take a number: none where it does, and a refusal where the row forms no value.
ghost use Rattle.std.specs.Prelude.{◌≡◌, ◌-◌, ◌≤◌, MatchOption};
ghost use Rattle.fields.specs.Prefixes.{prefix_fault, prefix_takes, first_bits};
ghost use Rattle.fields.specs.Ranges.{range_fault, range_takes};
ghost use Rattle.fields.specs.Protocols.{protocol_fault, protocol_takes};
ghost use Rattle.fields.specs.Flags.{flag_fault, flag_takes};
ghost use Rattle.reasons.specs.Reasons.{Explains, FirstDifference, Beyond, OtherThan, Differing};

use crate::sides::Side;
use fields::faults::Fault;
use fields::flags::{FlagMask, FlagRow};
use fields::kinds::Kind;
use fields::prefixes::{Prefix, PrefixRow};
use fields::protocols::ProtocolRow;
use fields::ranges::{PortRange, RangeRow};

// Each reason is of another kind, so that a common frame would be handed all but two lines.
// The first bit in which the number differs from the prefix.
pub fn prefix(row: PrefixRow, number: u32) -> Result<Option<u8>, Fault>
    ensures { Explains (prefix_fault row) (prefix_takes row number) (FirstDifference row number) result }
{
    let value = Prefix::form(row)?;
    if value.takes(number) {
        return Ok(None);
    }
    Ok(Some((number ^ row.address).leading_zeros() as u8 + 1))
}

// The side of the range on which the number lies.
pub fn range(row: RangeRow, number: u16) -> Result<Option<Side>, Fault>
    ensures { Explains (range_fault row) (range_takes row number) (Beyond row number) result }
{
    let value = PortRange::form(row)?;
    if value.takes(number as u32) {
        return Ok(None);
    }
    Ok(Some(if number < row.low {
        Side::Beneath
    } else {
        Side::Above
    }))
}

// The number that the protocol takes alone. Every protocol's row forms a value; the Result is for the shape of the four.
pub fn protocol(row: ProtocolRow, number: u8) -> Result<Option<u8>, Fault>
    ensures { Explains (protocol_fault row) (protocol_takes row number) (OtherThan row number) result }
{
    match row {
        ProtocolRow::Only(only) if number != only => Ok(Some(only)),
        _ => Ok(None),
    }
}

// The bits that count and are not as wanted.
pub fn flags(row: FlagRow, number: u8) -> Result<Option<u8>, Fault>
    ensures { Explains (flag_fault row) (flag_takes row number) (Differing row number) result }
{
    let value = FlagMask::form(row)?;
    if value.takes(number as u32) {
        return Ok(None);
    }
    Ok(Some((number & row.mask) ^ row.wanted))
}
