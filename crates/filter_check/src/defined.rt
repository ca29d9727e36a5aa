// The marks of a rule, each found as it is defined.
use crate::choice::{Choice, WIDTH, alone};
use crate::shape::Shape;
use marking::marks::Marks;

fn lowest(set: u64) -> u64 {
    let rank = (0..WIDTH).find(|&rank| set & alone(rank) != 0);
    rank.map_or(0, alone)
}

fn highest(set: u64) -> u64 {
    let rank = (0..WIDTH).rev().find(|&rank| set & alone(rank) != 0);
    rank.map_or(0, alone)
}

fn best_rank(shape: Shape<'_>, cell: u8, set: u64) -> u64 {
    if shape.right.contains(&cell) {
        highest(set)
    } else {
        lowest(set)
    }
}

// The choice that gives each left cell its lowest rank and each right cell its highest.
fn best<'a>(shape: Shape<'a>, sets: &[u64; 4]) -> Choice<'a> {
    let [a, b, c, d] = *sets;
    Choice {
        shape,
        cells: [
            best_rank(shape, 0, a),
            best_rank(shape, 1, b),
            best_rank(shape, 2, c),
            best_rank(shape, 3, d),
        ],
    }
}

impl Choice<'_> {
    // The highest rank below a bound whose counts differ.
    fn difference(&self, bound: usize) -> Option<usize> {
        (0..bound).rev().find(|&rank| self.order(rank).is_ne())
    }

    // The highest rank below a bound of which the left has more.
    fn excess(&self, bound: usize) -> Option<usize> {
        (0..bound).rev().find(|&rank| self.order(rank).is_gt())
    }

    // Whether the counts agree strictly between two ranks.
    fn agrees(&self, low: usize, high: usize) -> bool {
        (0..WIDTH).all(|rank| rank <= low || rank >= high || self.order(rank).is_eq())
    }

    // Whether the left has more at the highest rank below a bound whose counts differ.
    fn leads(&self, bound: usize) -> bool {
        self.difference(bound)
            .is_some_and(|rank| self.order(rank).is_gt())
    }
}

pub fn defined_marks(shape: Shape<'_>, sets: &[u64; 4]) -> Marks {
    let best = best(shape, sets);
    let alpha = best.difference(WIDTH);
    let beta = alpha.and_then(|alpha| best.excess(alpha));
    Marks {
        alpha,
        beta,
        gamma: alpha
            .zip(beta)
            .is_some_and(|(high, low)| best.agrees(low, high)),
        sigma: beta.is_some_and(|low| best.leads(low)),
    }
}
