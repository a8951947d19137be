//! Numbers that workers agree on without a word: where each one's part begins, which positions are whose, and who has
//! a position.
//!
//! The layer above relies on the arithmetic, and on the laws, each the contract of a function that does nothing: shares
//! meet without a gap, each position has one owner, and the shares of a list, joined, are the list. The words stand in
//! `specs/`: Shares for what a share is, Laws for the laws.
#![tactic(auto)]

ghost use Rattle.std.specs.Prelude.{◌≡◌, ℕ, ◌<◌, ◌≤◌, ◌+◌, ◌*◌, ◌/◌, length, sum, take, IfOk, slice_index};
ghost use Rattle.collective.specs.Shares.{share_start, HasPlace};

mod laws;

use dia_edge::NoMemory;
pub use laws::{places_have_one_owner, shares_are_the_list, shares_meet};
use std::alloc::Global;

/// The largest sum of counts.
pub const MOST_COUNTED: u64 = 1 << 63;

/// For each place the sum of the counts before it, so at which position each part begins when the parts are joined.
pub fn exclusive(alloc: Global, counts: &[u64]) -> Result<Vec<u64>, NoMemory>
    requires { sum counts.now ≤ MOST_COUNTED }
    ensures len { IfOk result (λ sums. length sums.items ≡ length counts.now) }
    ensures each { IfOk result (λ sums. (i : ℕ) → i < length counts.now → slice_index sums.items i ≡ sum (take i counts.now)) }
{
    let mut sums = Vec::with_capacity(alloc, counts.len())?;
    let mut before = 0u64;
    for count in counts {
        sums.push_reserved(before);
        before += *count;
    }
    Ok(sums)
}

/// The positions that a worker has of so many: from the first number up to, not including, the second.
pub fn share(total: u64, workers: u32, rank: u32) -> (u64, u64)
    requires { rank < workers }
    ensures start { result.0 ≡ share_start total workers rank }
    ensures end { result.1 ≡ share_start total workers (rank + 1) }
    ensures ordered { result.0 ≤ result.1 }
    ensures first { rank ≡ 0 → result.0 ≡ 0 }
    ensures within { result.1 ≤ total }
    ensures last { rank + 1 ≡ workers → result.1 ≡ total }
{
    (
        start_of(total, workers, rank),
        start_of(total, workers, rank + 1),
    )
}

/// Where a worker's share starts; for the rank after the last, where the last share ends.
fn start_of(total: u64, workers: u32, rank: u32) -> u64
    requires some { 0 < workers }
    requires within { rank ≤ workers }
    ensures { result ≡ share_start total workers rank }
{
    (u128::from(total) * u128::from(rank) / u128::from(workers)) as u64
}

/// The worker whose share has a position.
pub fn owner(total: u64, workers: u32, place: u64) -> u32
    requires within { place < total }
    requires some { 0 < workers }
    ensures rank { result < workers }
    ensures place { HasPlace total workers result place }
    ensures alone { (rank : ℕ) → HasPlace total workers rank place → rank ≡ result }
{
    let up_to = (u128::from(place) + 1) * u128::from(workers) - 1;
    (up_to / u128::from(total)) as u32
}

#[cfg(test)]
mod tests;
