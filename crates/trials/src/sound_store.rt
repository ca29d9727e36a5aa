// A store with trials whose type says that what is saved can be written back, for whoever is handed one and knows no more of it.
ghost use Rattle.std.specs.Prelude.{◌≡◌, [], OnErr};
ghost use Rattle.trials.specs.TrialStores.{open_trials, IsSound};
ghost use Rattle.trials.specs.SoundStores.{Answered};

use crate::faults::CallFault;
use crate::rehearsal::{self, CallAnswer, TrialCall};
use crate::trial_store::TrialStore;
use domains::domain::Domain;
use stores::faults::{LayOutFault, WriteFault};
use stores::store::{Size, Store};

// Calls of `TrialStore`'s own can be made on `store`, and leave it sound; code over any store is given the whole.
#[derive(Drop)]
pub struct SoundTrialStore<S: Store> {
    pub store: TrialStore<S>,
    pub ghost sound: { ∥ IsSound S.Store store ∥₁ },
}

impl<S: Store> SoundTrialStore<S> {
    pub fn new(below: S) -> SoundTrialStore<S>
        ensures below { result.store.below ≡ below }
        ensures trials { (open_trials S.Store result.store ≡ []) × (result.store.table.granted ≡ 0) }
    {
        SoundTrialStore {
            store: TrialStore::new(below),
        }
    }
}

// A store as the one within is.
impl<S: Store> Store for SoundTrialStore<S> {
    ghost use Rattle.std.specs.Prelude.{◌≡◌, [], MatchResult};
    ghost use Rattle.stores.specs.Stores.{Sized, LaidOut};
    ghost use Rattle.trials.specs.TrialStores.{open_trials, Rests};
    ghost use Rattle.std.proofs.Common.{rules};

    ghost cells = { λ s. S.cells s.store.below };

    ghost width = { λ s. S.width s.store.below };

    ghost holds = { S.holds };

    ghost stays = { λ s t. S.stays s.store.below t.store.below × Rests S.Store s.store t.store };

    ghost laws = { Prim.search rules };

    #[tactic(auto, using(crate::proofs::SoundStores::still_sound))]
    fn lay_out(&mut self, n: usize, d: usize) -> Result<(), LayOutFault>
        ensures outcome { MatchResult result (λ _. LaidOut n d (S.cells self.new.store.below) (S.width self.new.store.below)) (λ _. (Sized n d → ⊥) × (self.new ≡ self.old)) }
        ensures ended { MatchResult result (λ _. open_trials S.Store self.new.store ≡ []) (λ _. open_trials S.Store self.new.store ≡ open_trials S.Store self.old.store) }
        ensures granted { self.new.store.table.granted ≡ self.old.store.table.granted }
    {
        self.store.lay_out(n, d)
    }

    fn size(&self) -> Size {
        self.store.size()
    }

    fn read(&self, cell: usize) -> Option<Domain> {
        self.store.read(cell)
    }

    #[tactic(auto, using(crate::proofs::SoundStores::still_sound))]
    fn write(&mut self, cell: usize, part: Domain) -> Result<(), WriteFault> {
        self.store.write(cell, part)
    }
}

// Makes a call, and answers as the store does. What the other `answer` promises of a sound store only, that undo gives each cell the set
// that was saved for it, is promised here of every one.
#[tactic(auto, using(crate::proofs::SoundStores::sound_answered, crate::proofs::SoundStores::sound_refused, crate::proofs::SoundStores::still_sound))]
pub fn answer<S: Store>(
    store: &mut SoundTrialStore<S>,
    call: TrialCall,
) -> Result<CallAnswer, CallFault>
    ensures answered { Answered S.Store call store.old.store store.new.store result }
    ensures refused { OnErr result (store.new ≡ store.old) }
{
    rehearsal::answer(&mut store.store, call)
}
