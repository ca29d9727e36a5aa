// The bounds of a rule, found from the counts of the best ranks of its cells.
ghost use Rattle.std.specs.Prelude.{MatchResult};
ghost use Rattle.rules.specs.Filtered.{rule, Unfiltered};
ghost use Rattle.filtering.specs.Bounded.{Bounded};

use crate::counting::count_bests;
use crate::sides::Side;
use marking::bounds::Bounds;
use marking::deciding::decide;
use rules::faults::FilterFault;
use rules::rows::check_rows;
use stores::store::Store;

pub(crate) fn rule_bounds<S: Store>(
    store: &S,
    left: &[u8],
    right: &[u8],
) -> Result<Bounds, FilterFault>
    ensures { MatchResult result (λ b. Bounded (S.cells store.now) (rule left.now right.now) b) (λ e. Unfiltered (S.cells store.now) (rule left.now right.now) e) }
{
    check_rows(left, right, store.size().cells)?;
    let lows = count_bests(store, left, Side::Left);
    let highs = count_bests(store, right, Side::Right);
    decide(&lows, &highs).ok_or(FilterFault::NothingLeft)
}
