// Runs: the same calls on any engines of one kind of value get the same answers.
ghost use Rattle.std.specs.Prelude.{◌≡◌, ℕ, List, [], take, IfOk, OnOk};
ghost use Rattle.parts.specs.Meaning.{Meaning, nothing};
ghost use Rattle.engine_runs.specs.Runs.{tests, answers, after, asked_after, run_answers, run_after, run_asked};
ghost use Rattle.engine_runs.specs.Satisfied.{Exactly};

use crate::calls::{Answer, Call};
use engines::engine::Engine;
use fields::kinds::Kind;
use parts::marks::PLACES;
use std::alloc::{AllocError, Global};

// Performs one call.
pub fn perform<V: Kind, E: Engine<V>>(engine: &mut E, call: Call<V>) -> Answer<V>
    ensures answer { (m : Meaning V) → E.Told.shows engine.old m → result ≡ answers (tests V.Key.eq V.Key.labels V.Kind.satisfied) m call }
    ensures held { (m : Meaning V) → E.Told.shows engine.old m → E.Told.shows engine.new (after (tests V.Key.eq V.Key.labels V.Kind.satisfied) m call) }
    ensures asked { (m : Meaning V) (l : List ℕ) → E.Told.shows engine.old m → E.Told.agrees engine.old l → E.Told.agrees engine.new (asked_after l call) }
    ensures exactly { (m : Meaning V) → E.Told.shows engine.old m → Exactly V.Kind.satisfied m call result }
{
    match call {
        Call::Empty => {
            engine.empty();
            Answer::Emptied
        }
        Call::Set(place, value) => Answer::Set(engine.set(place, value)),
        Call::Clear(place) => Answer::Cleared(engine.clear(place)),
        Call::Match(number) => {
            let mut list = [0; PLACES];
            let found = engine.matches(number, &mut list);
            Answer::Matched(found, list)
        }
    }
}

// Empties an engine, performs the calls, and answers what each answered.
// Want of memory ends the run early: then only a first part of the calls was performed.
// store_runs has the same few lines over other calls and answers; a trait of calls with its laws would be longer than both.
pub fn run<V: Kind, E: Engine<V>>(
    heap: Global,
    engine: &mut E,
    calls: &[Call<V>],
) -> Result<Vec<Answer<V>>, AllocError>
    ensures answers { IfOk result (λ v. v.items ≡ run_answers (tests V.Key.eq V.Key.labels V.Kind.satisfied) nothing calls.now) }
    ensures held { OnOk result (E.Told.shows engine.new (run_after (tests V.Key.eq V.Key.labels V.Kind.satisfied) nothing calls.now)) }
    ensures asked { OnOk result (E.Told.agrees engine.new (run_asked [] calls.now)) }
    ensures part { (n : ℕ) × E.Told.shows engine.new (run_after (tests V.Key.eq V.Key.labels V.Kind.satisfied) nothing (take n calls.now)) }
{
    engine.empty();
    let mut answers = Vec::new(heap);
    // A loop, since after a chain whose closure changes the engine little is known of the engine without a lemma.
    for call in calls {
        answers.push(perform(engine, *call))?;
    }
    Ok(answers)
}

// What two engines answered to the same calls.
#[derive(Drop)]
pub struct Both<V: Copy> {
    pub first: Vec<Answer<V>>,
    pub second: Vec<Answer<V>>,
}

// Runs the same calls on two engines. Their answers are equal, whatever the engines and the calls are.
// store_runs has the same few lines, as of `run`.
pub fn run_both<V: Kind, A: Engine<V>, B: Engine<V>>(
    heap: Global,
    first: &mut A,
    second: &mut B,
    calls: &[Call<V>],
) -> Result<Both<V>, AllocError>
    ensures answers { IfOk result (λ b. b.first.items ≡ run_answers (tests V.Key.eq V.Key.labels V.Kind.satisfied) nothing calls.now) }
    ensures first { OnOk result (A.Told.shows first.new (run_after (tests V.Key.eq V.Key.labels V.Kind.satisfied) nothing calls.now)) }
    ensures second { OnOk result (B.Told.shows second.new (run_after (tests V.Key.eq V.Key.labels V.Kind.satisfied) nothing calls.now)) }
    ensures alike { IfOk result (λ b. b.first.items ≡ b.second.items) }
{
    let one = run(heap, first, calls)?;
    let two = run(heap, second, calls)?;
    Ok(Both {
        first: one,
        second: two,
    })
}
