// What the marks decide of two loads.
ghost use Rattle.std.specs.Prelude.{◌≡◌};
ghost use Rattle.marking.specs.Bounds.{left_most, right_least};

use crate::marks::Marks;
use std::cmp::Ordering;

#[derive(Clone, Copy)]
pub struct Bounds {
    pub(crate) marks: Marks,
    // the lowest rank at which one member less makes up for one more at alpha; none without an alpha
    pub(crate) floor: Option<usize>,
}

impl Bounds {
    pub fn marks(self) -> Marks
        ensures { result ≡ self.marks }
    {
        self.marks
    }

    // The highest rank that a member of the left load may be raised to, where `lowest` is its rank.
    pub fn left_most(self, lowest: usize) -> usize
        ensures { result ≡ left_most self.marks.alpha self.floor lowest }
    {
        let (Some(alpha), Some(floor)) = (self.marks.alpha, self.floor) else {
            return lowest;
        };
        let limit = if floor <= lowest {
            alpha
        } else {
            alpha.saturating_sub(1)
        };
        lowest.max(limit)
    }

    // The lowest rank that a member of the right load may be lowered to, where `highest` is its rank.
    pub fn right_least(self, highest: usize) -> usize
        ensures { result ≡ right_least self.marks.alpha self.floor highest }
    {
        let (Some(alpha), Some(floor)) = (self.marks.alpha, self.floor) else {
            return highest;
        };
        match highest.cmp(&alpha) {
            Ordering::Less => 0,
            Ordering::Equal => highest.min(floor),
            Ordering::Greater => highest,
        }
    }
}
