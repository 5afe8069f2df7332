// The calls on an engine, and what it answers.
use fields::faults::Fault;
use parts::marks::PLACES;

// A call on an engine of one kind of value.
#[derive(Clone, Copy, PartialEq, Eq, Debug)]
pub enum Call<V> {
    Empty,
    Set(u8, V),
    Clear(u8),
    Match(u32),
}

// What a call answered; of a match also the list of labels that was written, from a list of zeros.
#[derive(Clone, Copy, PartialEq, Eq, Debug)]
pub enum Answer<V> {
    Emptied,
    Set(Result<(), Fault>),
    Cleared(Result<V, Fault>),
    Matched(Result<usize, Fault>, [u8; PLACES]),
}
