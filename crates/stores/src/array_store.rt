// A store that keeps its cells in an array, each in the form of one kind.
ghost use Rattle.std.specs.Prelude.{◌≡◌, ℕ, ◌^◌, ◌<◌, ◌≤◌, ⊤, length, take, map, replicate, slice_set, All, MatchOption};
ghost use Rattle.stores.specs.Stores.{Sized, LaidOut};
ghost use Rattle.stores.specs.Kept.{formed_of};

use crate::cell::Cell;
use crate::faults::{LayOutFault, WriteFault};
use crate::store::{CELLS, Size, Store};
use domains::domain::Domain;
use std::alloc::AllocError;

// A plain array with its count, and no vector of fixed room, since a store is `Copy`.
pub struct ArrayStore<C: Cell> {
    pub(crate) cells: usize,
    width: usize,
    pub(crate) kept: [C; CELLS],
    ghost long: { length kept ≡ 64 },
    ghost few: { cells ≤ 64 },
    ghost narrow: { width ≤ 48 },
    ghost below: { All (λ c. C.mask c < 2 ^ width) (take cells kept) },
}

// By hand: a derive takes no ghost field that names a bound.
impl<C: Cell> Copy for ArrayStore<C> {}

impl<C: Cell> Clone for ArrayStore<C> {
    ghost is_clone = { λ x y. y ≡ x };

    ghost is_infallible = { λ _. ⊤ };

    fn clone(&self) -> Result<ArrayStore<C>, AllocError> {
        Ok(*self)
    }
}

fn filled<C: Cell>(kept: C) -> [C; CELLS]
    ensures { result ≡ replicate 64 kept }
{
    [kept; CELLS]
}

impl<C: Cell> ArrayStore<C> {
    // A store that is not laid out: no cells, and a width of 0.
    pub fn new() -> ArrayStore<C>
        ensures { (result.cells ≡ 0) × (result.width ≡ 0) }
    {
        ArrayStore {
            cells: 0,
            width: 0,
            kept: filled(C::blank()),
        }
    }

    // A store of n cells that all have the full scale of d ranks.
    fn laid_out(n: usize, d: usize) -> Option<ArrayStore<C>>
        ensures { MatchOption result (Sized n d → ⊥) (λ s. LaidOut n d (map C.mask (take s.cells s.kept)) s.width) }
    {
        if n < 1 || n > CELLS {
            return None;
        }
        let full = C::keep(Domain::full(d)?)?;
        Some(ArrayStore {
            cells: n,
            width: d,
            kept: filled(full),
        })
    }

    fn put(&mut self, cell: usize, kept: C)
        requires { (cell < self.old.cells) × (C.mask kept < 2 ^ self.old.width) }
        ensures written { map C.mask (take self.new.cells self.new.kept) ≡ slice_set (map C.mask (take self.old.cells self.old.kept)) cell (C.mask kept) }
        ensures width { self.new.width ≡ self.old.width }
        ensures within { cell < length (map C.mask (take self.old.cells self.old.kept)) }
    {
        self.kept[cell] = kept;
    }
}

impl<C: Cell> Store for ArrayStore<C> {
    ghost cells = { λ s. map C.mask (take s.cells s.kept) };

    ghost width = { λ s. s.width };

    ghost holds = { λ _ m. C.holds m };

    ghost stays = { λ _ _. Unit {0} };

    ghost laws = { record {
      formed = λ s. formed_of C.mask C.holds C.laws s.cells s.width s.kept s.few s.narrow s.below;
      full = λ d h l. C.laws.full d h l;
      front = λ d m r h p. C.laws.front m r h p;
      rear = λ d m r h p. C.laws.rear m r h p;
      same = λ s. tt;
      then = λ s t u p q. tt;
    } };

    fn lay_out(&mut self, n: usize, d: usize) -> Result<(), LayOutFault> {
        *self = ArrayStore::laid_out(n, d).ok_or(LayOutFault::OutOfBounds)?;
        Ok(())
    }

    fn size(&self) -> Size {
        Size {
            cells: self.cells,
            width: self.width,
        }
    }

    fn read(&self, cell: usize) -> Option<Domain> {
        if cell >= self.cells {
            return None;
        }
        Some(self.kept[cell].domain())
    }

    fn write(&mut self, cell: usize, part: Domain) -> Result<(), WriteFault> {
        if cell >= self.cells {
            return Err(WriteFault::NoCell);
        }
        // a mask with a rank from the width on is 2^width or more
        if part.mask() >= 1 << self.width {
            return Err(WriteFault::RankPastScale);
        }
        let kept = C::keep(part).ok_or(WriteFault::NotHeld)?;
        self.put(cell, kept);
        Ok(())
    }
}
