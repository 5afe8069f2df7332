// The calls on a classifier with their arguments, and what they answer.
use crate::rows::{FilterRow, Header};

#[derive(Clone, Copy)]
pub enum Call {
    Add(FilterRow),
    // an identifier
    Remove(u16),
    // an identifier, and a place: a field, or a node counted on behind the fields
    Inspect(u16, u8),
    // a header, how many filters to list at most, and the length of the answer list
    Search(Header, u8, usize),
}

// The best filter of a search.
#[derive(Clone, Copy, PartialEq, Eq, Debug)]
pub struct Best {
    pub identifier: u16,
    pub flow: u16,
}

// What a scan of the standing filters answers: the best, and how many it listed.
#[derive(Clone, Copy, PartialEq, Eq, Debug)]
pub struct Scanned {
    pub best: Option<Best>,
    pub listed: usize,
}

#[derive(Clone, Copy, PartialEq, Eq, Debug)]
pub enum Answer {
    // how many field labels and how many combination labels came into use
    Added(u8, u8),
    // how many of either were freed
    Removed(u8, u8),
    // the filter's label at the place, and how many standing filters have it
    Inspected(u8, u8),
    // the best filter, how many were listed, and how many pairs were asked
    Found(Option<Best>, u8, u32),
}
