// Lists of calls on stores: any two stores give the same answers.
ghost use Rattle.std.specs.Prelude.{◌≡◌, List, IfOk, OnOk};
ghost use Rattle.parts.specs.Meaning.{Meaning};
ghost use Rattle.stores.specs.declared.pairs.Pair.{Pair};
ghost use Rattle.store_runs.specs.Replies.{reply, next, after, replies as replies_to};

use crate::calls::{Reply, StoreCall};
use std::alloc::{AllocError, Global};
use stores::pairs::Pair;
use stores::store::Store;

// One call, and what the store answers.
pub fn perform<S: Store>(store: &mut S, call: StoreCall) -> Reply
    ensures answered { (m : Meaning Pair) → S.Told.shows store.old m → result ≡ reply m call }
    ensures held { (m : Meaning Pair) → S.Told.shows store.old m → S.Told.shows store.new (next m call) }
{
    match call {
        StoreCall::Set(place, pair) => Reply::Placed(store.set(place, pair)),
        StoreCall::Clear(place) => Reply::Cleared(store.clear(place)),
        StoreCall::Find(left, right) => Reply::Found(store.find(left, right)),
    }
}

// Empties a store and performs a list of calls on it. The answers come from the calls alone.
// engine_runs has the same few lines over other calls and answers; a trait of calls with its laws would be longer than both.
pub fn run<S: Store>(
    heap: Global,
    store: &mut S,
    calls: &[StoreCall],
) -> Result<Vec<Reply>, AllocError>
    ensures answered { IfOk result (λ v. v.items ≡ replies_to calls.now) }
    ensures held { OnOk result (S.Told.shows store.new (after calls.now)) }
{
    store.empty();
    let mut replies = Vec::new(heap);
    // A loop, since after a chain whose closure changes the store little is known of the store without a lemma.
    for call in calls {
        let reply = perform(store, *call);
        replies.push(reply)?;
    }
    Ok(replies)
}

// Performs one list of calls on two stores of any make: their answers are the same.
// engine_runs has the same few lines, as of `run`.
pub fn run_both<A: Store, B: Store>(
    heap: Global,
    first: &mut A,
    second: &mut B,
    calls: &[StoreCall],
) -> Result<(Vec<Reply>, Vec<Reply>), AllocError>
    ensures same { IfOk result (λ p. p.0.items ≡ p.1.items) }
    ensures answered { IfOk result (λ p. p.0.items ≡ replies_to calls.now) }
    ensures held { OnOk result (A.Told.shows first.new (after calls.now) × B.Told.shows second.new (after calls.now)) }
{
    let left = run(heap, first, calls)?;
    let right = run(heap, second, calls)?;
    Ok((left, right))
}
