// Lines into questions: `prefix VALUE NUMBER` and its like, `order` with six numbers, and `filter` with six values and six numbers.
use crate::questions::{Line, Question};
use fields::orders::FIELDS;
use words::cuts::cut;
use words::decimals::{read_u8, read_u16};
use words::hexadecimals::{read_address, read_flags};
use words::values::{read_flag_mask, read_prefix, read_protocol, read_range};

pub fn read_line(line: &[u8]) -> Option<Line> {
    let (kind, rest) = cut(line, b' ')?;
    match kind {
        b"order" => Some(Line::One(Question::OfOrder(read_order(rest)?))),
        b"filter" => Some(Line::Filter(read_filter(rest)?)),
        _ => Some(Line::One(read_taking(kind, rest)?)),
    }
}

// A value and a number, on words alone: the crate spelling rests on the filter list, which an explanation has no use for.
fn read_taking(kind: &[u8], rest: &[u8]) -> Option<Question> {
    let (value, number) = cut(rest, b' ')?;
    match kind {
        b"prefix" => Some(Question::OfPrefix(read_prefix(value)?, read_address(number)?)),
        b"range" => Some(Question::OfRange(read_range(value)?, read_u16(number)?)),
        b"protocol" => Some(Question::OfProtocol(read_protocol(value)?, read_u8(number)?)),
        b"flags" => Some(Question::OfFlags(read_flag_mask(value)?, read_flags(number)?)),
        _ => None,
    }
}

// Six numbers. The last word is all that is left, in which no number reads a space.
fn read_order(text: &[u8]) -> Option<[u8; FIELDS]> {
    let mut words = text.splitn(FIELDS, |byte| *byte == b' ');
    let mut fields = [0; FIELDS];
    for field in &mut fields {
        *field = read_u8(words.next()?)?;
    }
    Some(fields)
}

// Six values, and then six numbers, the last as in an order.
fn read_filter(text: &[u8]) -> Option<[Question; FIELDS]> {
    let mut words = text.splitn(FIELDS + FIELDS, |byte| *byte == b' ');
    let source = read_prefix(words.next()?)?;
    let destination = read_prefix(words.next()?)?;
    let source_port = read_range(words.next()?)?;
    let destination_port = read_range(words.next()?)?;
    let protocol = read_protocol(words.next()?)?;
    let flags = read_flag_mask(words.next()?)?;
    Some([
        Question::OfPrefix(source, read_address(words.next()?)?),
        Question::OfPrefix(destination, read_address(words.next()?)?),
        Question::OfRange(source_port, read_u16(words.next()?)?),
        Question::OfRange(destination_port, read_u16(words.next()?)?),
        Question::OfProtocol(protocol, read_u8(words.next()?)?),
        Question::OfFlags(flags, read_flags(words.next()?)?),
    ])
}
