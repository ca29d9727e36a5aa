// The two kinds of grade that the societies use.
ghost use Rattle.std.specs.Prelude.{◌≡◌, ◌≢◌, Some};
ghost use Rattle.std.specs.Cmp.{partial_order_from_own_ties};
ghost use Rattle.std.specs.Cmp.Rules.{comparing};
ghost use Rattle.std.specs.Ordering.{as_partial_cmp};
ghost use Rattle.std.specs.declared.cmp.Ordering.TheVariants.{Less};
ghost use Rattle.loads.specs.Kinds.{by_points, by_hand, points_order};
ghost use Rattle.loads.specs.Spelling.{spell_points, spell_hand};
ghost use Rattle.std.proofs.Common.{rules};

use crate::grades::Grade;
use std::cmp::Ordering;
use std::fmt;

// A mark given by a reader of the register: fewer points are lower.
#[derive(Clone, Copy, PartialEq, Eq, PartialOrd, Ord, Debug)]
pub struct Points {
    pub score: i32,
}

// The derived order is `by_points`: that is what `compare` promises of it.
impl Grade for Points {
    ghost cmp = { by_points };

    ghost order = { points_order };

    fn compare(&self, other: &Points) -> Ordering {
        Points::cmp(self, other)
    }
}

impl fmt::Display for Points {
    ghost output = { λ p. Some (spell_points p) };

    fn fmt<W: fmt::Write>(&self, f: &mut fmt::Formatter<W>) -> fmt::Result {
        write!(f, "{}", self.score)
    }
}

// A handwriting: its script class and its year. A lower class is lower; within a class the later year is lower.
#[derive(Clone, Copy, PartialEq, Eq, Debug)]
pub struct Hand {
    pub class: u8,
    pub year: u16,
}

impl Hand {
    // The hand of a class whose year nobody knows: year 0 and no `Option`, as registers write it, so every dated hand of the class is lower.
    pub fn undated(class: u8) -> Hand
        ensures class { result.class ≡ class }
        ensures highest { (dated : Hand) → dated.class ≡ class → (dated.year ≢ 0) → by_hand dated result ≡ Less }
    {
        Hand { class, year: 0 }
    }
}

// Not derived: a derive would put the earlier year lower.
impl Ord for Hand {
    ghost cmp = { by_hand };

    ghost total = { Prim.search (comparing, rules) };

    ghost matches_partial_cmp = { Prim.search (comparing, rules) };

    ghost matches_eq = { Prim.search (comparing, rules) };

    fn cmp(&self, other: &Hand) -> Ordering {
        // Tests of the class, which most often decides: with `then` or `then_with` weighing hands took twice the instructions.
        if other.class < self.class {
            Ordering::Greater
        } else if self.class < other.class {
            Ordering::Less
        } else {
            other.year.cmp(&self.year)
        }
    }
}

impl PartialOrd for Hand {
    ghost partial_cmp = { as_partial_cmp by_hand };

    ghost laws = { partial_order_from_own_ties (Prim.search (comparing, rules)) (Prim.search (comparing, rules)) };

    fn partial_cmp(&self, other: &Hand) -> Option<Ordering> {
        Some(self.cmp(other))
    }
}

impl Grade for Hand {
    ghost cmp = { by_hand };

    ghost order = { Prim.search rules };

    fn compare(&self, other: &Hand) -> Ordering {
        Hand::cmp(self, other)
    }
}

impl fmt::Display for Hand {
    ghost output = { λ h. Some (spell_hand h) };

    fn fmt<W: fmt::Write>(&self, f: &mut fmt::Formatter<W>) -> fmt::Result {
        write!(f, "{}/{}", self.class, self.year)
    }
}
