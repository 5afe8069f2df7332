// The calls on a store as values, and what a store answers.
use fields::faults::Fault;
use stores::pairs::Pair;

#[derive(Clone, Copy)]
pub enum StoreCall {
    Set(u8, Pair),
    Clear(u8),
    Find(u8, u8),
}

#[derive(Clone, Copy, PartialEq, Eq, Debug)]
pub enum Reply {
    Placed(Result<(), Fault>),
    Cleared(Result<Pair, Fault>),
    Found(Result<Option<u8>, Fault>),
}
