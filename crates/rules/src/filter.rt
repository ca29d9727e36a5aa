// What it is to filter by one rule. Code above filters uses this trait alone, so that one way to filter can stand for another.
ghost use Rattle.std.specs.Prelude.{◌≡◌, MatchResult};
ghost use Rattle.rules.specs.Filtered.{rule, Filtered, Unfiltered};

use crate::faults::FilterFault;
use stores::store::Store;

pub trait Filter {
    // Takes from each cell that the rule names the ranks that no choice that meets the rule gives it, and answers how many went.
    // Where it refuses, the store is as it was. The rows stand as they are sent, so callers make no rule first.
    fn filter<S: Store>(
        &self,
        store: &mut S,
        left: &[u8],
        right: &[u8],
    ) -> Result<usize, FilterFault>
        ensures outcome { MatchResult result (λ went. Filtered (S.cells store.old) (S.cells store.new) (rule left.now right.now) went) (λ e. Unfiltered (S.cells store.old) (rule left.now right.now) e × (store.new ≡ store.old)) }
        ensures width { S.width store.new ≡ S.width store.old }
        ensures rest { S.stays store.old store.new };
}
