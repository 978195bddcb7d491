// A chain through the intervals of a day: from each one to the next whose state falls into the same bucket. So who looks for the later intervals
// of a state passes over nearly all others.
ghost use Rattle.std.specs.Prelude.{◌≡◌, ℕ, ◌<◌, ◌≤◌, length, get_or};
ghost use Rattle.codes.specs.Number.{closed_number};
ghost use Rattle.day_sweep.specs.Chain.{bucket_limit, no_interval, Chained, OnChain};

// How many buckets there are.
const BUCKETS: u64 = 64;

// For each bucket the first interval in it: none yet.
pub fn bare_heads() -> [u16; 64]
    ensures { (bucket_limit ≡ length result) × ((b : ℕ) → b < bucket_limit → get_or result b 0 ≡ no_interval) }
{
    [65535u16; 64]
}

// Chains the intervals, from the last one back.
pub fn link(chain: &mut [u64], heads: &mut [u16], interval_states: &[u64])
    requires le_no_interval { (length interval_states.now ≤ no_interval) × (length interval_states.now ≤ length chain.old) × (bucket_limit ≤ length heads.old) }
    requires by_index { (b : ℕ) → b < bucket_limit → get_or heads.old b 0 ≡ no_interval }
    ensures { Chained chain.new interval_states.now (length interval_states.now) }
{
    for i in (0..interval_states.len()).rev() {
        let bucket = (interval_states[i] % BUCKETS) as usize;
        chain[i] = u64::from(heads[bucket]);
        heads[bucket] = i as u16;
    }
}

// The first interval after one of a state's bucket that has the state, or how many intervals there are.
pub fn next_of(interval_states: &[u64], chain: &[u64], s: u64, last: usize) -> usize
    requires last_in_bounds { (last < length interval_states.now) × (length interval_states.now ≤ length chain.now) }
    requires fact { (s ≡ closed_number → ⊥) × OnChain chain.now interval_states.now (length interval_states.now) s last }
    ensures { (last < result) × (result ≤ length interval_states.now) × (result < length interval_states.now → get_or interval_states.now result 0 ≡ s)
        × ((k : ℕ) → last < k → k < result → get_or interval_states.now k 0 ≡ s → ⊥) }
{
    let mut next = chain[last] as usize;
    // The chain says which interval is next, so no `for` counts them.
    while next < interval_states.len() {
        if interval_states[next] == s {
            return next;
        }
        next = chain[next] as usize;
    }
    interval_states.len()
}
