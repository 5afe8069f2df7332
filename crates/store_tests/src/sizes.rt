// How many bytes each make of store takes.
use sieve::sieve_store::Sieve;
use std::mem::size_of;
use stores::chain_store::{ByLeft, ChainStore};
use stores::grid::GridStore;

#[test]
fn bytes(rt: HostRuntime) {
    assert_eq!(rt; size_of::<ChainStore<ByLeft>>(), 676);
    assert_eq!(rt; size_of::<GridStore>(), 18724);
    assert_eq!(rt; size_of::<Sieve<ChainStore<ByLeft>>>(), 1192);
    assert_eq!(rt; size_of::<Sieve<GridStore>>(), 19240);
}
