// Taking from the cells of a row what the bounds do not leave.
ghost use Rattle.std.specs.Prelude.{◌≡◌, ◌<◌, length, MatchResult};
ghost use Rattle.rules.specs.Rows.{Apart, Below};
ghost use Rattle.filtering.specs.Bounded.{kept};
ghost use Rattle.filtering.specs.Cuts.{CellCut, Cut};

use crate::sides::Side;
use marking::bounds::Bounds;
use rules::faults::FilterFault;
use stores::faults::WriteFault;
use stores::store::Store;

// Takes from one cell, and answers how many ranks went. Each of the three misses has its refusal, and none happens.
#[tactic(auto, using(crate::proofs::Kept::kept_some))]
fn cut_cell<S: Store>(
    store: &mut S,
    cell: usize,
    side: Side,
    bounds: Bounds,
) -> Result<usize, FilterFault>
    requires { cell < length (S.cells store.old) }
    ensures outcome { MatchResult result (λ went. CellCut (kept side bounds) (S.cells store.old) (S.cells store.new) cell went) (λ _. ⊥) }
    ensures width { S.width store.new ≡ S.width store.old }
    ensures rest { S.stays store.old store.new }
{
    let part = store.read(cell).ok_or(WriteFault::NoCell)?;
    let kept = side.keep(bounds, part).ok_or(FilterFault::NothingLeft)?;
    store.write(cell, kept)?;
    Ok(part.count() - kept.count())
}

pub(crate) fn cut_row<S: Store>(
    store: &mut S,
    row: &[u8],
    side: Side,
    bounds: Bounds,
) -> Result<usize, FilterFault>
    requires below { Below (length (S.cells store.old)) row.now }
    requires apart { Apart row.now }
    ensures outcome { MatchResult result (λ went. Cut (kept side bounds) row.now (S.cells store.old) (S.cells store.new) went) (λ _. ⊥) }
    ensures width { S.width store.new ≡ S.width store.old }
    ensures rest { S.stays store.old store.new }
{
    let mut went = 0;
    for &cell in row {
        went += cut_cell(store, usize::from(cell), side, bounds)?;
    }
    Ok(went)
}
