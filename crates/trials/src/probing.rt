// Code over any store that writes, run on a store with trials between an open and its undo.
ghost use Rattle.std.specs.Prelude.{◌≡◌, ◌+◌, MatchBool, MatchResult};
ghost use Rattle.trials.specs.Trials.{CannotOpen};
ghost use Rattle.trials.specs.TrialStores.{open_trials, IsSound};
ghost use Rattle.trials.specs.Caps.{CanCap, CannotCap, Capped};
ghost use Rattle.trials.specs.Rehearsals.{Back};

use crate::faults::TrialFault;
use crate::trial_store::TrialStore;
use stores::store::Store;

// Keeps the part of a cell up to a rank, and answers whether there is such a part.
pub fn cap<S: Store>(store: &mut S, cell: usize, rank: usize) -> bool
    ensures outcome { MatchBool result (Capped (S.cells store.old) cell rank (S.cells store.new)) (CannotCap (S.cells store.old) cell rank × (store.new ≡ store.old)) }
    ensures width { S.width store.new ≡ S.width store.old }
    ensures rest { S.stays store.old store.new }
{
    let Some(kept) = store.read(cell).and_then(|part| part.up_to(rank)) else {
        return false;
    };
    store.write(cell, kept).is_ok()
}

// Whether a cell has a part up to a rank, found by a trial. The cells and the open trials are as before.
pub fn probe<S: Store>(
    store: &mut TrialStore<S>,
    cell: usize,
    rank: usize,
) -> Result<bool, TrialFault>
    ensures outcome { MatchResult result (λ some. MatchBool some (CanCap (S.cells store.old.below) cell rank) (CannotCap (S.cells store.old.below) cell rank) × (store.new.table.granted ≡ store.old.table.granted + 1)) (λ e. CannotOpen (open_trials S.Store store.old) store.old.table.granted e × (store.new ≡ store.old)) }
    ensures back { Back S.Store store.old store.new }
    ensures sound { IsSound S.Store store.old → IsSound S.Store store.new }
{
    let number = store.open()?;
    let some = cap(store, cell, rank);
    store.undo(number)?;
    Ok(some)
}
