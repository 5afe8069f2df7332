// What a line asks: whether a value takes a number, whether six numbers form a network order, or, field by field, whether a
// filter's values match a header.
use fields::flags::FlagRow;
use fields::orders::FIELDS;
use fields::prefixes::PrefixRow;
use fields::protocols::ProtocolRow;
use fields::ranges::RangeRow;

#[derive(Clone, Copy)]
pub enum Question {
    OfPrefix(PrefixRow, u32),
    OfRange(RangeRow, u16),
    OfProtocol(ProtocolRow, u8),
    OfFlags(FlagRow, u8),
    OfOrder([u8; FIELDS]),
}

// What a line holds: one question, or a question for each field of a filter.
#[derive(Clone, Copy)]
pub enum Line {
    One(Question),
    Filter([Question; FIELDS]),
}
