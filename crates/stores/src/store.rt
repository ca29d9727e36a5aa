// What a store is, by its meaning. Code above stores uses this trait alone.
ghost use Rattle.std.specs.Prelude.{◌≡◌, ℕ, ◌<◌, ◌≤◌, List, length, set, MatchOption, MatchResult, slice_index, slice_set};
ghost use Rattle.stores.specs.Stores.{Laws, Sized, LaidOut, Accepted, Refused};

use crate::faults::{LayOutFault, WriteFault};
use domains::domain::Domain;

// How many cells a store has room for.
pub const CELLS: usize = 64;

// How many cells a store has, and how many ranks its scale.
#[derive(Clone, Copy, PartialEq, Eq, Debug)]
pub struct Size {
    pub cells: usize,
    pub width: usize,
}

pub trait Store {
    // The mask of each cell's set, cell 0 first.
    ghost cells: { Self → List ℕ };

    // How many ranks the scale has.
    ghost width: { Self → ℕ };

    // Which sets this kind can hold, by the width.
    ghost holds: { ℕ → ℕ → Type 0 };

    // What a store has besides its cells and its width, and keeps under a write: a frame for code over any store.
    ghost stays: { Self → Self → Type 0 };

    // Gives every one of n cells the full scale of d ranks.
    fn lay_out(&mut self, n: usize, d: usize) -> Result<(), LayOutFault>
        ensures { MatchResult result (λ _. LaidOut n d (cells self.new) (width self.new)) (λ _. (Sized n d → ⊥) × (self.new ≡ self.old)) };

    fn size(&self) -> Size
        ensures { (result.cells ≡ length (cells self.now)) × (result.width ≡ width self.now) };

    // The set of a cell, or nothing where there is no such cell.
    fn read(&self, cell: usize) -> Option<Domain>
        ensures { MatchOption result (length (cells self.now) ≤ cell) (λ d. (cell < length (cells self.now)) × (d.mask ≡ slice_index (cells self.now) cell)) };

    // Gives a cell a set. The clauses `width` and `rest`, which code over stores repeats, are of a store before and after: no type can
    // carry them.
    fn write(&mut self, cell: usize, part: Domain) -> Result<(), WriteFault>
        ensures outcome { MatchResult result (λ _. Accepted holds (length (cells self.old)) (width self.old) cell part.mask × (cells self.new ≡ slice_set (cells self.old) cell part.mask)) (λ e. Refused holds (length (cells self.old)) (width self.old) cell part.mask e × (self.new ≡ self.old)) }
        ensures width { width self.new ≡ width self.old }
        ensures rest { stays self.old self.new };

    ghost laws: { Laws cells width holds stays };
}
