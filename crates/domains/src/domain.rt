// A grade set: a set of ranks below 48 that is not empty.
ghost use Rattle.std.specs.Prelude.{◌≡◌, ℕ, ◌^◌, ◌<◌, ◌≤◌, ◌⊎◌, MatchBool, MatchOption, bit_and};
ghost use Rattle.domains.specs.Sets.{In, up_to, from, full_scale, run, size, Has, NoRank, FullScale, Span};

// How many ranks there are: masks are below 2^48.
const RANKS: usize = 48;

#[derive(Clone, Copy, PartialEq, Eq, Debug)]
pub struct Domain {
    mask: u64,
    ghost some: { 0 < mask },
    ghost below: { mask < 2 ^ 48 },
}

impl Domain {
    // The set that a mask writes; none where the mask is 0, or 2^48 or above. In the form of std's `NonZero::new` and `get`.
    pub fn new(mask: u64) -> Option<Domain>
        ensures { MatchOption result ((mask ≡ 0) ⊎ (2 ^ 48 ≤ mask)) (λ d. d.mask ≡ mask) }
    {
        // not `then`: in a closure the test that the ghost fields need is not known
        if mask > 0 && mask < 1 << RANKS {
            Some(Domain { mask })
        } else {
            None
        }
    }

    // The number that writes the set.
    pub fn mask(self) -> u64
        ensures value { result ≡ self.mask }
        ensures some { 0 < result }
        ensures below { result < 2 ^ 48 }
    {
        self.mask
    }

    // All ranks below a width; none where the width is 0 or above 48.
    #[tactic(auto, using(crate::proofs::Found::full))]
    pub fn full(width: usize) -> Option<Domain>
        ensures { MatchOption result ((width ≡ 0) ⊎ (48 < width)) (λ d. FullScale width d.mask) }
    {
        if width > RANKS {
            return None;
        }
        Domain::new((1 << width) - 1)
    }

    // The ranks from `low` up to `high`; none where there are none, or `high` is no rank.
    #[tactic(auto, using(crate::proofs::Found::span))]
    pub fn span(low: usize, high: usize) -> Option<Domain>
        ensures { MatchOption result ((high < low) ⊎ (48 ≤ high)) (λ d. Span low high d.mask) }
    {
        if high >= RANKS {
            return None;
        }
        Domain::full(high + 1)?.from(low)
    }

    #[tactic(auto, using(crate::proofs::Found::none_past))]
    pub fn contains(self, rank: usize) -> bool
        ensures { MatchBool result (In self.mask rank) (In self.mask rank → ⊥) }
    {
        rank < RANKS && (self.mask >> rank) % 2 == 1
    }

    // As many zeros end a mask as there are ranks below its lowest.
    #[tactic(auto, using(crate::proofs::Found::lowest))]
    pub fn lowest(self) -> usize
        ensures within { In self.mask result }
        ensures least { NoRank (λ k. (k < result) × In self.mask k) }
        ensures rank { result < 48 }
    {
        self.mask.trailing_zeros() as usize // std has no `From<u32>` for usize, here and below
    }

    #[tactic(auto, using(crate::proofs::Found::highest))]
    pub fn highest(self) -> usize
        ensures within { In self.mask result }
        ensures most { NoRank (λ k. (result < k) × In self.mask k) }
        ensures rank { result < 48 }
    {
        63 - self.mask.leading_zeros() as usize
    }

    // The part up to a rank, if it has any.
    #[tactic(auto, using(crate::proofs::Found::front))]
    pub fn up_to(self, rank: usize) -> Option<Domain>
        ensures value { MatchOption result (up_to self.mask rank ≡ 0) (λ d. d.mask ≡ up_to self.mask rank) }
        ensures ranks { MatchOption result (NoRank (λ k. In self.mask k × (k ≤ rank))) (λ d. Has d.mask (λ k. In self.mask k × (k ≤ rank))) }
    {
        if rank >= RANKS {
            return Some(self);
        }
        Domain::new(self.mask & ((1 << (rank + 1)) - 1))
    }

    // The part from a rank, if it has any.
    #[tactic(auto, using(crate::proofs::Found::rear))]
    pub fn from(self, rank: usize) -> Option<Domain>
        ensures value { MatchOption result (from self.mask rank ≡ 0) (λ d. d.mask ≡ from self.mask rank) }
        ensures ranks { MatchOption result (NoRank (λ k. In self.mask k × (rank ≤ k))) (λ d. Has d.mask (λ k. In self.mask k × (rank ≤ k))) }
    {
        if rank >= RANKS {
            return None;
        }
        Domain::new(self.mask >> rank << rank)
    }

    // The common part with the set that a mask writes, if it has any.
    #[tactic(auto, using(crate::proofs::Found::common))]
    pub fn common(self, mask: u64) -> Option<Domain>
        ensures value { MatchOption result (bit_and self.mask mask ≡ 0) (λ d. d.mask ≡ bit_and self.mask mask) }
        ensures ranks { MatchOption result (NoRank (λ k. In self.mask k × In mask k)) (λ d. Has d.mask (λ k. In self.mask k × In mask k)) }
    {
        Domain::new(self.mask & mask)
    }

    // How many ranks the set has.
    #[tactic(auto, using(crate::proofs::Found::count))]
    pub fn count(self) -> usize
        ensures { result ≡ size self.mask }
    {
        self.mask.count_ones() as usize
    }
}
