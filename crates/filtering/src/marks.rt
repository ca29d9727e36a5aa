// The marks of a rule's best choice, for what asks only to be told them.
ghost use Rattle.std.specs.Prelude.{MatchResult};
ghost use Rattle.rules.specs.Filtered.{rule, Unfiltered};
ghost use Rattle.filtering.specs.Bounded.{MarksOf};

use crate::bounding::rule_bounds;
use marking::marks::Marks;
use rules::faults::FilterFault;
use stores::store::Store;

// The marks of two counts: of the lowest ranks of the left cells, and of the highest of the right cells.
pub fn marks<S: Store>(store: &S, left: &[u8], right: &[u8]) -> Result<Marks, FilterFault>
    ensures { MatchResult result (λ m. MarksOf (S.cells store.now) (rule left.now right.now) m) (λ e. Unfiltered (S.cells store.now) (rule left.now right.now) e) }
{
    Ok(rule_bounds(store, left, right)?.marks())
}
