// Sentences that a person can read.
use crate::questions::Question;
use fields::faults::Fault;
use fields::flags::FlagRow;
use fields::orders::{FIELDS, NetworkOrder};
use fields::prefixes::PrefixRow;
use fields::protocols::ProtocolRow;
use fields::ranges::RangeRow;
use reasons::sides::Side;
use reasons::why;
use std::alloc::{AllocError, Global};

// From the best to the worst: a filter comes out as the worst of its values.
#[derive(Clone, Copy, PartialEq, Eq, PartialOrd, Ord)]
pub enum Outcome {
    Taken,
    NotTaken,
    Refused,
}

#[derive(Drop)]
pub struct Said {
    pub outcome: Outcome,
    pub text: String,
}

impl Said {
    fn new(outcome: Outcome, text: String) -> Said {
        Said { outcome, text }
    }
}

// What is said of a question.
pub fn explanation(heap: Global, question: Question) -> Result<Said, AllocError> {
    match question {
        Question::OfPrefix(row, number) => of_prefix(heap, row, number),
        Question::OfRange(row, number) => of_range(heap, row, number),
        Question::OfProtocol(row, number) => of_protocol(heap, row, number),
        Question::OfFlags(row, number) => of_flags(heap, row, number),
        Question::OfOrder(fields) => of_order(heap, fields),
    }
}

// What is said of a line that asks nothing.
pub fn unreadable(heap: Global) -> Result<Said, AllocError> {
    of_fault(heap, Fault::Line)
}

// A sentence names the parts of its row once more, so that a Display of rows would spare one placeholder in each.
fn of_prefix(heap: Global, row: PrefixRow, number: u32) -> Result<Said, AllocError> {
    let address = row.address;
    let length = row.length;
    match why::prefix(row, number) {
        Err(fault) => of_fault(heap, fault),
        Ok(None) if length == 0 => Ok(Said::new(
            Outcome::Taken,
            format!(in heap;
                "prefix {address:08X}/0 takes {number:08X}: length 0 takes every address"
            )?,
        )),
        Ok(None) => Ok(Said::new(
            Outcome::Taken,
            format!(in heap;
                "prefix {address:08X}/{length} takes {number:08X}: bits 1 to {length} agree"
            )?,
        )),
        Ok(Some(bit)) => Ok(Said::new(
            Outcome::NotTaken,
            format!(in heap;
                "prefix {address:08X}/{length} does not take {number:08X}: bit {bit} is the first that differs"
            )?,
        )),
    }
}

fn of_range(heap: Global, row: RangeRow, number: u16) -> Result<Said, AllocError> {
    let low = row.low;
    let high = row.high;
    match why::range(row, number) {
        Err(fault) => of_fault(heap, fault),
        Ok(None) => Ok(Said::new(
            Outcome::Taken,
            format!(in heap; "range {low}:{high} takes {number}: it lies between the ends")?,
        )),
        Ok(Some(Side::Beneath)) => Ok(Said::new(
            Outcome::NotTaken,
            format!(in heap;
                "range {low}:{high} does not take {number}: it is below the low end {low}"
            )?,
        )),
        Ok(Some(Side::Above)) => Ok(Said::new(
            Outcome::NotTaken,
            format!(in heap;
                "range {low}:{high} does not take {number}: it is above the high end {high}"
            )?,
        )),
    }
}

fn of_protocol(heap: Global, row: ProtocolRow, number: u8) -> Result<Said, AllocError> {
    match why::protocol(row, number) {
        Err(fault) => of_fault(heap, fault),
        Ok(None) => match row {
            ProtocolRow::Any => Ok(Said::new(
                Outcome::Taken,
                format!(in heap; "protocol * takes {number}: it takes any number")?,
            )),
            ProtocolRow::Only(only) => Ok(Said::new(
                Outcome::Taken,
                format!(in heap; "protocol {only} takes {number}: it is the same number")?,
            )),
        },
        Ok(Some(only)) => Ok(Said::new(
            Outcome::NotTaken,
            format!(in heap; "protocol {only} does not take {number}: it takes {only} alone")?,
        )),
    }
}

fn of_flags(heap: Global, row: FlagRow, number: u8) -> Result<Said, AllocError> {
    let mask = row.mask;
    let wanted = row.wanted;
    match why::flags(row, number) {
        Err(fault) => of_fault(heap, fault),
        Ok(None) => Ok(Said::new(
            Outcome::Taken,
            format!(in heap;
                "flags {mask:02X}={wanted:02X} takes {number:02X}: every bit of the mask is as wanted"
            )?,
        )),
        Ok(Some(bits)) => Ok(Said::new(
            Outcome::NotTaken,
            format!(in heap;
                "flags {mask:02X}={wanted:02X} does not take {number:02X}: bits {bits:02X} differ"
            )?,
        )),
    }
}

fn of_order(heap: Global, fields: [u8; FIELDS]) -> Result<Said, AllocError> {
    let [a, b, c, d, e, f] = fields;
    match NetworkOrder::form(fields) {
        Err(fault) => of_fault(heap, fault),
        Ok(_) => Ok(Said::new(
            Outcome::Taken,
            format!(in heap; "order {a} {b} {c} {d} {e} {f} is formed: it names each field once")?,
        )),
    }
}

fn of_fault(heap: Global, fault: Fault) -> Result<Said, AllocError> {
    Ok(Said::new(
        Outcome::Refused,
        format!(in heap;
            "refused with {}, detail {}: {}",
            fault.number(),
            fault.detail(),
            reason(fault)
        )?,
    ))
}

fn reason(fault: Fault) -> &'static str {
    match fault {
        Fault::Line => "the line has none of the forms",
        Fault::Prefix(length) if length > 32 => "the prefix is longer than 32 bits",
        Fault::Prefix(_) => "the prefix has a 1 beyond its length",
        Fault::Range(_) => "the range has its low end above its high end",
        Fault::Flags(_) => "a wanted bit lies outside the mask",
        Fault::Order(_) => "that position of the order names no field or repeats one",
        _ => "no value is formed",
    }
}
