// The counters of the sieve, and which of them a pair touches.
ghost use Rattle.std.specs.Prelude.{◌≡◌, ℕ, ltb, List, [], ◌∷◌, if◌then◌else◌, Some, None, nat_lt, slice_index};
ghost use Rattle.stores.specs.Pairs.{pair as pair_of};
ghost use Rattle.sieve.specs.Touched.{counter as counter_of, has, spread as spread_of, slots as slots_of, touched as touched_by, listed, Apart, every};
ghost use Rattle.sieve.specs.Counted.{Gives, changed, change_at, change_all};

use stores::pairs::Pair;

// How many counters a sieve has.
pub const COUNTERS: usize = 512;

// Each of these spreads a pair's code over the counters.
const MULTIPLIERS: [u16; 4] = [5, 37, 211, 1009];

// One pair more that touches a counter, or one fewer.
#[derive(Clone, Copy)]
pub enum Change {
    Up,
    Down,
}

fn counter(pair: Pair, multiplier: u16) -> u16
    ensures { result ≡ counter_of pair multiplier }
{
    (pair.code() * multiplier as usize / 16 % COUNTERS) as u16
}

// A counter, unless it repeats an earlier one.
fn unless_in(counter: u16, earlier: &[u16]) -> Option<u16>
    ensures { result ≡ (if has counter earlier.now then None else Some counter) }
{
    (!earlier.contains(&counter)).then_some(counter)
}

// The counters that a pair touches: four places, some empty, since nothing is allocated and each counter stands once.
pub fn touched(pair: Pair) -> [Option<u16>; 4]
    ensures slots { result ≡ slots_of pair }
    ensures each { (i : ℕ) → has i (touched_by pair) ≡ has i (spread_of pair) }
    ensures once { Apart (touched_by pair) }
    ensures figures { (touched_by (pair_of 1 0) ≡ 30 ∷ 222 ∷ 242 ∷ 422 ∷ []) × (touched_by (pair_of 0 0) ≡ 0 ∷ []) }
{
    let spread = MULTIPLIERS.map(|multiplier| counter(pair, multiplier));
    std::array::from_fn(|i| unless_in(spread[i], &spread[..i]))
}

fn count_at<F: Fn(u8) -> u8>(counters: &mut [u8; COUNTERS], slot: Option<u16>, step: &F)
    requires { F.IsAlwaysCallable step.now }
    ensures { (change : ℕ → ℕ) → Gives (F.post step.now) change → counters.new ≡ change_at change slot counters.old }
{
    // By index, since after a write through `get_mut` nothing is known of the other counters.
    if let Some(i) = slot
        && (i as usize) < COUNTERS
    {
        counters[i as usize] = step(counters[i as usize]);
    }
}

// Takes a step at each counter listed.
fn count_each<F: Fn(u8) -> u8>(counters: &mut [u8; COUNTERS], slots: &[Option<u16>; 4], step: F)
    requires { F.IsAlwaysCallable step }
    ensures { (change : ℕ → ℕ) → Gives (F.post step) change → counters.new ≡ change_all change slots.now counters.old }
{
    for slot in slots {
        count_at(counters, *slot, &step);
    }
}

// Counts a pair in or out, at each counter that it touches.
pub fn count_pair(counters: &mut [u8; COUNTERS], slots: &[Option<u16>; 4], by: Change)
    ensures { counters.new ≡ change_all (changed by) slots.now counters.old }
{
    match by {
        Change::Up => count_each(counters, slots, |count| count.saturating_add(1)),
        Change::Down => count_each(counters, slots, |count| count.saturating_sub(1)),
    }
}

// Whether the counter in a slot is above 0; a slot with none asks nothing.
fn passes(counters: &[u8; COUNTERS], slot: Option<u16>) -> bool
    ensures { result ≡ every (λ i. nat_lt 0 (slice_index counters.now i)) (listed (slot ∷ [])) }
{
    slot.is_none_or(|i| counters.get(i as usize).is_some_and(|count| *count > 0))
}

// Whether every counter listed is above 0.
pub fn all_above(counters: &[u8; COUNTERS], slots: &[Option<u16>; 4]) -> bool
    ensures { result ≡ every (λ i. ltb 0 (slice_index counters.now i)) (listed slots.now) }
{
    slots.iter().all(|slot| passes(counters, *slot))
}
