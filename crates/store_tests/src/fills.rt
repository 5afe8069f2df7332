// All 96 places filled, cleared in another order, and filled again.
use fields::faults::Fault;
use parts::told::Told;
use sieve::sieve_store::Sieve;
use std::process::Abort;
use std::test::Fail;
use stores::chain_store::{ByLeft, ChainStore};
use stores::grid::GridStore;
use stores::pairs::Pair;
use stores::store::Store;

// A pair for each place: six pairs share a left label.
fn pair_at(place: u8) -> Pair {
    Pair {
        left: place / 6,
        right: place,
    }
}

fn fill<S: Store>(store: &mut S) -> Result<(), Fail> {
    for place in 0..96 {
        store.set(place, pair_at(place))?;
    }
    Ok(())
}

// Every pair is found at its place, and its neighbours are not.
fn look<S: Store>(rt: &impl Abort, store: &mut S) -> Result<(), Fail> {
    for place in 0..95 {
        let pair = pair_at(place);
        assert_eq!(rt; store.find(pair.left, pair.right)?, Some(place));
        assert_eq!(rt; store.find(pair.left.saturating_add(1), pair.right)?, None);
    }
    Ok(())
}

// Clears every place, the fifth after the one before, and answers what it held.
fn drain<S: Store>(rt: &impl Abort, store: &mut S) -> Result<(), Fail> {
    for turn in 0..96u32 {
        let place = (turn * 5 % 96) as u8;
        assert_eq!(rt; store.clear(place)?, pair_at(place));
    }
    Ok(())
}

fn all_ways<S: Store>(rt: &impl Abort, store: &mut S) -> Result<(), Fail> {
    store.empty();
    fill(store)?;
    look(rt, store)?;
    assert_eq!(rt; store.set(7, pair_at(3)), Err(Fault::Full(7)));
    drain(rt, store)?;
    assert_eq!(rt; store.clear(0), Err(Fault::Vacant(0)));
    assert_eq!(rt; store.find(0, 0)?, None);
    fill(store)?;
    look(rt, store)
}

#[test]
fn list_store(rt: HostRuntime) -> Result<(), Fail> {
    let mut store = ChainStore::new(ByLeft);
    all_ways(&rt, &mut store)
}

#[test]
fn grid_store(rt: HostRuntime) -> Result<(), Fail> {
    let mut store = GridStore::new();
    all_ways(&rt, &mut store)
}

#[test]
fn sieve_over_list(rt: HostRuntime) -> Result<(), Fail> {
    let mut store = Sieve::over(ChainStore::new(ByLeft));
    all_ways(&rt, &mut store)?;
    assert_eq!(rt; store.passes(1, 0)?, false);
    assert_eq!(rt; store.passes(96, 0), Err(Fault::Label(96)));
    Ok(())
}

#[test]
fn sieve_over_sieve(rt: HostRuntime) -> Result<(), Fail> {
    let mut store = Sieve::over(Sieve::over(GridStore::new()));
    all_ways(&rt, &mut store)
}
