// One script on five makes of store, with the same answers.
use fields::faults::Fault;
use parts::told::Told;
use sieve::sieve_store::Sieve;
use std::process::Abort;
use std::test::Fail;
use store_runs::calls::{Reply, StoreCall};
use store_runs::runs::{run, run_both};
use stores::chain_store::{ByLeft, ChainStore};
use stores::grid::GridStore;
use stores::pairs::Pair;
use stores::store::Store;

const SCRIPT: [StoreCall; 12] = [
    StoreCall::Set(4, Pair { left: 1, right: 0 }),
    StoreCall::Set(9, Pair { left: 1, right: 2 }),
    StoreCall::Set(9, Pair { left: 1, right: 3 }),
    StoreCall::Set(5, Pair { left: 1, right: 0 }),
    StoreCall::Set(
        96,
        Pair {
            left: 97,
            right: 98,
        },
    ),
    StoreCall::Find(1, 0),
    StoreCall::Find(2, 1),
    StoreCall::Find(1, 200),
    StoreCall::Clear(4),
    StoreCall::Clear(4),
    StoreCall::Find(1, 0),
    StoreCall::Find(1, 2),
];

const ANSWERS: [Reply; 12] = [
    Reply::Placed(Ok(())),
    Reply::Placed(Ok(())),
    Reply::Placed(Err(Fault::Full(9))),
    Reply::Placed(Err(Fault::Elsewhere(4))),
    Reply::Placed(Err(Fault::Label(96))),
    Reply::Found(Ok(Some(4))),
    Reply::Found(Ok(None)),
    Reply::Found(Err(Fault::Label(200))),
    Reply::Cleared(Ok(Pair { left: 1, right: 0 })),
    Reply::Cleared(Err(Fault::Vacant(4))),
    Reply::Found(Ok(None)),
    Reply::Found(Ok(Some(9))),
];

fn answers_are(rt: &impl Abort, replies: &[Reply]) {
    assert_eq!(rt; replies, &ANSWERS[..]);
}

#[test]
fn five_makes(rt: HostRuntime) -> Result<(), Fail> {
    let heap = rt.alloc();
    let mut list = ChainStore::new(ByLeft);
    let mut grid = GridStore::new();
    let (first, second) = run_both(heap, &mut list, &mut grid, &SCRIPT)?;
    answers_are(&rt, &first);
    answers_are(&rt, &second);
    assert_eq!(rt; list.asked_number(), 4);
    let mut over_list = Sieve::over(list);
    let mut over_grid = Sieve::over(grid);
    let (third, fourth) = run_both(heap, &mut over_list, &mut over_grid, &SCRIPT)?;
    answers_are(&rt, &third);
    answers_are(&rt, &fourth);
    assert_eq!(rt; over_grid.asked_number(), 4);
    let mut over_sieve = Sieve::over(over_list);
    let fifth = run(heap, &mut over_sieve, &SCRIPT)?;
    answers_are(&rt, &fifth);
    Ok(())
}
