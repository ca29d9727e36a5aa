// The masks of all cells of any store, read out and written back.
ghost use Rattle.std.specs.Prelude.{◌≡◌, ℕ, ◌<◌, ◌≤◌, length, take, slice_index, slice_set};
ghost use Rattle.stores.specs.Stores.{Holdable, Savable};

use crate::store::Store;
use domains::domain::Domain;

// The mask of each cell; past the cells, 0.
pub fn snapshot<S: Store>(store: &S) -> [u64; 64]
    ensures long { length result ≡ 64 }
    ensures same { take (length (S.cells store.now)) result ≡ S.cells store.now }
    ensures savable { Savable S.holds (S.width store.now) (length (S.cells store.now)) result }
{
    let mut masks = [0; 64];
    let cells = store.size().cells;
    for (cell, mask) in masks[..cells].iter_mut().enumerate() {
        if let Some(part) = store.read(cell) {
            *mask = part.mask();
        }
    }
    masks
}

// Writes a mask back to a cell, where the store can hold it.
fn put_back<S: Store>(store: &mut S, cell: usize, mask: u64)
    ensures same { cell < length (S.cells store.old) → Holdable S.holds (S.width store.old) mask → S.cells store.new ≡ slice_set (S.cells store.old) cell mask }
    ensures count { length (S.cells store.new) ≡ length (S.cells store.old) }
    ensures width { S.width store.new ≡ S.width store.old }
    ensures rest { S.stays store.old store.new }
{
    if let Some(part) = Domain::new(mask) {
        let _ = store.write(cell, part);
    }
}

// Writes the masks of a snapshot back. Where they can all be held, the cells are those of the snapshot again.
pub fn restore<S: Store>(store: &mut S, saved: &[u64; 64])
    ensures same { Savable S.holds (S.width store.old) (length (S.cells store.old)) saved.now → S.cells store.new ≡ take (length (S.cells store.old)) saved.now }
    ensures count { length (S.cells store.new) ≡ length (S.cells store.old) }
    ensures width { S.width store.new ≡ S.width store.old }
    ensures rest { S.stays store.old store.new }
{
    let size = store.size();
    for (cell, &mask) in saved[..size.cells].iter().enumerate() {
        put_back(store, cell, mask);
    }
}
