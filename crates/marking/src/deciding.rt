// How far one member of a load may be moved before the left load outweighs the right.
ghost use Rattle.std.specs.Prelude.{◌≡◌, MatchOption};
ghost use Rattle.marking.specs.Bounds.{IsFloor, FewerAtAlpha, BoundsOf, Outweighs};
ghost use Rattle.marking.specs.Marks.{occurs, on_left, on_right};

use crate::bounds::Bounds;
use crate::counts::{Counts, RANKS};
use crate::marks::Marks;
use crate::scan::mark;

impl Counts<'_> {
    // The lowest rank at which one member less makes up for one more at alpha.
    #[tactic(auto, using(crate::proofs::Verdict::floors))]
    fn floor(&self, marks: Marks, alpha: usize) -> usize
        requires { FewerAtAlpha (on_left self.now) (on_right self.now) marks alpha }
        ensures { IsFloor (on_left self.now) (on_right self.now) alpha result }
    {
        let Some(beta) = marks.beta else {
            return 0;
        };
        if !marks.gamma || self.right[alpha] - self.left[alpha] > 1 {
            return 0;
        }
        if self.left[beta] - self.right[beta] > 1 || marks.sigma {
            return beta + 1;
        }
        beta
    }
}

// What the counts decide of all loads that have them: none where the left is the heavier, and else how far a member may be moved.
#[tactic(auto, using(crate::proofs::Bounding::bounds))]
pub fn decide(left: &[u8; RANKS], right: &[u8; RANKS]) -> Option<Bounds>
    ensures { MatchOption result (Outweighs (occurs left.now) (occurs right.now)) (λ b. BoundsOf (occurs left.now) (occurs right.now) b) }
{
    let marks = mark(left, right);
    let Some(alpha) = marks.alpha else {
        return Some(Bounds { marks, floor: None });
    };
    if left[alpha] > right[alpha] {
        return None;
    }
    let floor = Counts { left, right }.floor(marks, alpha);
    Some(Bounds {
        marks,
        floor: Some(floor),
    })
}
