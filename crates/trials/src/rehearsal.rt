// A rehearsal: calls made in a trial that is then undone. Whatever they were, the cells are again those at the opening.
ghost use Rattle.std.specs.Prelude.{◌≡◌, length, IfOk, MatchResult, OnOk};
ghost use Rattle.trials.specs.Trials.{CannotOpen};
ghost use Rattle.trials.specs.TrialStores.{open_trials, IsSound, Undone};
ghost use Rattle.trials.specs.declared.trial_store.TrialStore.{TrialStore};
ghost use Rattle.trials.specs.Rehearsals.{Answered, Step, Ran, Tried, Rehearsed, NotRehearsed, Back};

use crate::faults::{CallFault, TrialFault};
use crate::trial_store::TrialStore;
use domains::domain::Domain;
use stores::store::Store;

// A call on a store with trials: data and no closure, since `rehearse` is promised of any list of calls, and a reader sees here which.
#[derive(Clone, Copy)]
pub enum TrialCall {
    Write { cell: usize, part: Domain },
    Open,
    Undo { number: u32 },
    Keep { number: u32 },
}

// What an accepted call answers: nothing more, the number of the trial that it opened, or how many trials remain open.
#[derive(Clone, Copy, PartialEq, Eq, Debug)]
pub enum CallAnswer {
    Written,
    Opened { number: u32 },
    Ended { left: usize },
}

// Makes a call, and answers as the store does.
pub fn answer<S: Store>(store: &mut TrialStore<S>, call: TrialCall) -> Result<CallAnswer, CallFault>
    ensures answered { Answered S.Store call store.old store.new result }
    ensures sound { IsSound S.Store store.old → IsSound S.Store store.new }
{
    match call {
        TrialCall::Write { cell, part } => {
            store.write(cell, part)?;
            Ok(CallAnswer::Written)
        }
        TrialCall::Open => {
            let number = store.open()?;
            Ok(CallAnswer::Opened { number })
        }
        TrialCall::Undo { number } => {
            let left = store.undo(number)?;
            Ok(CallAnswer::Ended { left })
        }
        TrialCall::Keep { number } => {
            let left = store.keep(number)?;
            Ok(CallAnswer::Ended { left })
        }
    }
}

// Makes a call, whatever it answers.
pub fn carry_out<S: Store>(store: &mut TrialStore<S>, call: TrialCall)
    ensures step { Step S.Store call store.old store.new }
    ensures sound { IsSound S.Store store.old → IsSound S.Store store.new }
{
    let _ = answer(store, call);
}

// Makes the calls, one after another.
fn carry_out_all<S: Store>(store: &mut TrialStore<S>, calls: &[TrialCall])
    ensures ran { Ran S.Store calls.now store.old store.new }
    ensures sound { IsSound S.Store store.old → IsSound S.Store store.new }
{
    for call in calls {
        carry_out(store, *call);
    }
}

// Opens a trial, makes the calls, and answers the trial's number. Whatever the calls were, to undo that number takes the store back.
fn try_calls<S: Store>(store: &mut TrialStore<S>, calls: &[TrialCall]) -> Result<u32, TrialFault>
    ensures outcome { MatchResult result (λ number. Tried S.Store calls.now number store.old store.new) (λ e. CannotOpen (open_trials S.Store store.old) store.old.table.granted e × (store.new ≡ store.old)) }
    ensures back { IfOk result (λ number. (t : TrialStore _) → Undone S.Store number store.new t → Back S.Store store.old t) }
    ensures sound { IsSound S.Store store.old → IsSound S.Store store.new }
{
    let number = store.open()?;
    carry_out_all(store, calls);
    Ok(number)
}

// Rehearses the calls in a trial that is then undone, and answers how many trials are open. Where the undo is accepted, the
// cells, the width and the open trials are those before, whatever was written, opened, undone and kept in between.
pub fn rehearse<S: Store>(
    store: &mut TrialStore<S>,
    calls: &[TrialCall],
) -> Result<usize, TrialFault>
    ensures outcome { MatchResult result (λ left. Rehearsed S.Store calls.now store.old store.new × (left ≡ length (open_trials S.Store store.new))) (λ e. NotRehearsed S.Store calls.now store.old store.new e) }
    ensures back { OnOk result (Back S.Store store.old store.new) }
    ensures sound { IsSound S.Store store.old → IsSound S.Store store.new }
{
    let trial = try_calls(store, calls)?;
    store.undo(trial)?;
    Ok(store.trials())
}
