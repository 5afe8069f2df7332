// The words of the values of a filter, read into rows; whether a row is lawful is judged when a value is formed from it.
ghost use Rattle.words.specs.Texts.{prefix_text, range_text, protocol_text, flag_text, PrefixFits, RangeFits, ProtocolFits, FlagFits};
ghost use Rattle.words.specs.Reading.{Reads};

use crate::cuts::cut;
use crate::decimals::{read_u8, read_u16};
use crate::hexadecimals::{read_address, read_flags};
use fields::flags::FlagRow;
use fields::prefixes::PrefixRow;
use fields::protocols::ProtocolRow;
use fields::ranges::RangeRow;

// Three readers that name their separator and their parts: a common one would take both readers and the making of the row.
pub fn read_prefix(word: &[u8]) -> Option<PrefixRow>
    ensures { Reads prefix_text PrefixFits word.now result }
{
    let (front, rest) = cut(word, b'/')?;
    let address = read_address(front)?;
    let length = read_u8(rest)?;
    Some(PrefixRow { address, length })
}

pub fn read_range(word: &[u8]) -> Option<RangeRow>
    ensures { Reads range_text RangeFits word.now result }
{
    let (front, rest) = cut(word, b':')?;
    let low = read_u16(front)?;
    let high = read_u16(rest)?;
    Some(RangeRow { low, high })
}

pub fn read_protocol(word: &[u8]) -> Option<ProtocolRow>
    ensures { Reads protocol_text ProtocolFits word.now result }
{
    match word {
        b"*" => Some(ProtocolRow::Any),
        _ => Some(ProtocolRow::Only(read_u8(word)?)),
    }
}

pub fn read_flag_mask(word: &[u8]) -> Option<FlagRow>
    ensures { Reads flag_text FlagFits word.now result }
{
    let (front, rest) = cut(word, b'=')?;
    let mask = read_flags(front)?;
    let wanted = read_flags(rest)?;
    Some(FlagRow { mask, wanted })
}
