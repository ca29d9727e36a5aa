// The two rows of a rule, and what differs between them.
ghost use Rattle.std.specs.Prelude.{◌≡◌, ◌<◌, MatchOption};
ghost use Rattle.filtering.specs.Bounded.{kept};
ghost use Rattle.filtering.specs.Sides.{best};

use domains::domain::Domain;
use marking::bounds::Bounds;

#[derive(Clone, Copy)]
pub(crate) enum Side {
    Left,
    Right,
}

impl Side {
    // The rank of a cell's set that is best for the rule: its lowest on the left, its highest on the right.
    #[tactic(auto, using(crate::proofs::Best::lowest_found, crate::proofs::Best::highest_found))]
    pub(crate) fn best(self, part: Domain) -> usize
        ensures value { result ≡ best self part.mask }
        ensures rank { result < 48 }
    {
        match self {
            Side::Left => part.lowest(),
            Side::Right => part.highest(),
        }
    }

    // What the bounds leave of a cell's set.
    pub(crate) fn keep(self, bounds: Bounds, part: Domain) -> Option<Domain>
        ensures { MatchOption result (kept self bounds part.mask ≡ 0) (λ d. d.mask ≡ kept self bounds part.mask) }
    {
        let best = self.best(part);
        match self {
            Side::Left => part.up_to(bounds.left_most(best)),
            Side::Right => part.from(bounds.right_least(best)),
        }
    }
}
