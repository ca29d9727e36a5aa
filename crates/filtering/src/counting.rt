// How often each rank is the best of a cell of a row.
ghost use Rattle.std.specs.Prelude.{◌≡◌, ◌≤◌, length};
ghost use Rattle.loads.specs.Counts.{Counted};
ghost use Rattle.marking.specs.Marks.{occurs};
ghost use Rattle.rules.specs.Rows.{Below};
ghost use Rattle.filtering.specs.Sides.{bests};

use crate::sides::Side;
use marking::counts::RANKS;
use stores::store::Store;

// A row has at most 16 cells, so the counts fit.
pub(crate) fn count_bests<S: Store>(store: &S, row: &[u8], side: Side) -> [u8; RANKS]
    requires few { length row.now ≤ 16 }
    requires below { Below (length (S.cells store.now)) row.now }
    ensures long { length result ≡ 48 }
    ensures counted { Counted (occurs result) 48 (bests side (S.cells store.now) row.now) }
{
    let mut counts = [0; RANKS];
    for &cell in row {
        if let Some(part) = store.read(usize::from(cell)) {
            counts[side.best(part)] += 1;
        }
    }
    counts
}
