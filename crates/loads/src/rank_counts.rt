// Loads of ranks, given by how often each rank occurs.
ghost use Rattle.std.specs.Prelude.{◌≡◌, max, length, slice_index};
ghost use Rattle.loads.specs.Counts.{Deciding, ByCounts};

use crate::weighing::Weight;

// How often the rank occurs: ranks past the last count do not.
fn occurrences(counts: &[u8], rank: usize) -> u8
    ensures { result ≡ slice_index counts.now rank }
{
    counts.get(rank).copied().unwrap_or(0)
}

// The highest rank below `bound` of which the numbers differ.
pub fn deciding_rank(left: &[u8], right: &[u8], bound: usize) -> Option<usize>
    ensures { Deciding (λ k. slice_index left.now k) (λ k. slice_index right.now k) bound result }
{
    (0..bound).rev().find(|&rank| occurrences(left, rank) != occurrences(right, rank))
}

// What the left load is against the right, where only the ranks below `bound` are looked at.
fn weigh_below(left: &[u8], right: &[u8], bound: usize) -> Weight
    ensures { ByCounts (λ k. slice_index left.now k) (λ k. slice_index right.now k) bound result }
{
    match deciding_rank(left, right, bound) {
        Some(rank) => occurrences(left, rank)
            .cmp(&occurrences(right, rank))
            .into(),
        None => Weight::Equal,
    }
}

// What the left load is against the right, where `left` and `right` say how often each rank occurs, from rank 0 up.
pub fn weigh_counts(left: &[u8], right: &[u8]) -> Weight
    ensures { ByCounts (λ k. slice_index left.now k) (λ k. slice_index right.now k) (max (length left.now) (length right.now)) result }
{
    weigh_below(left, right, left.len().max(right.len()))
}
