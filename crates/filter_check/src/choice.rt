// A choice gives each cell one of three ranks, here written as the set of that rank alone.
use crate::shape::Shape;
use std::cmp::Ordering;

pub const WIDTH: usize = 3;

pub fn alone(rank: usize) -> u64 {
    match rank {
        0 => 1,
        1 => 2,
        _ => 4,
    }
}

#[derive(Clone, Copy)]
pub struct Choice<'a> {
    pub shape: Shape<'a>,
    pub cells: [u64; 4],
}

impl Choice<'_> {
    // How many cells of a row have a rank.
    fn count(&self, row: &[u8], rank: usize) -> usize {
        row.iter()
            .filter(|&&cell| self.cells.get(usize::from(cell)).copied() == Some(alone(rank)))
            .count()
    }

    // How the left count of a rank compares with the right.
    pub fn order(&self, rank: usize) -> Ordering {
        let left = self.count(self.shape.left, rank);
        let right = self.count(self.shape.right, rank);
        left.cmp(&right)
    }

    // Whether the left load is not heavier than the right: the highest rank whose counts differ decides.
    pub fn meets(&self) -> bool {
        for rank in (0..WIDTH).rev() {
            let order = self.order(rank);
            if order.is_ne() {
                return order.is_lt();
            }
        }
        true
    }
}
