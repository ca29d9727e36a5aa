// A store over any other, with trials: each can be undone, or kept, by its number.
use crate::faults::TrialFault;
use crate::saved::Saved;
use crate::table::TrialTable;
use domains::domain::Domain;
use stores::copying::{restore, snapshot};
use stores::faults::{LayOutFault, WriteFault};
use stores::store::{Size, Store};

// What is saved for each open trial can be written back to the store below (`IsSound`): a new one is sound, and each call leaves it so,
// since only a lay out changes the cells' number or the width, and it ends the trials. This type does not say it: a ghost field would have
// to name the bound, and ask each type that holds a store with trials for it. `SoundTrialStore` says it.
#[derive(Drop)]
pub struct TrialStore<S> {
    below: S,
    table: TrialTable,
}

impl<S: Store> TrialStore<S> {
    ghost use Rattle.std.specs.Prelude.{◌≡◌, [], length, take, MatchResult, slice_set};
    ghost use Rattle.stores.specs.Stores.{Accepted, Refused, Savable};
    ghost use Rattle.trials.specs.Saved.{Numbered};
    ghost use Rattle.trials.specs.Trials.{CannotEnd};
    ghost use Rattle.trials.specs.TrialStores.{open_trials, IsSound, TrialsApart, OpenAnswers, Rests, Closed, Undone, UndoAnswers, KeepAnswers};

    pub fn new(below: S) -> TrialStore<S>
        ensures below { result.below ≡ below }
        ensures trials { (open_trials S.Store result ≡ []) × (result.table.granted ≡ 0) }
        ensures sound { IsSound S.Store result }
    {
        TrialStore {
            below,
            table: TrialTable::new(),
        }
    }

    // How many trials are open.
    #[tactic(auto, using(crate::proofs::Ending::numbered_map))]
    pub fn trials(&self) -> usize
        ensures count { result ≡ length (open_trials S.Store self.now) }
        ensures numbered { Numbered self.now.table.granted (open_trials S.Store self.now) }
    {
        self.table.len()
    }

    // Opens a trial, and answers its number. That the trials before and after lie apart, here and below, is said of two stores: no type
    // can carry it.
    pub fn open(&mut self) -> Result<u32, TrialFault>
        ensures outcome { OpenAnswers S.Store self.old self.new result }
        ensures sound { IsSound S.Store self.old → IsSound S.Store self.new }
        ensures apart { TrialsApart S.Store self.old self.new }
    {
        let masks = snapshot(&self.below);
        self.begin(masks)
    }

    // Opens a trial for which the present masks are saved. Apart from `open`: its goals are answered by name, and an edit of `open` has to
    // be refused at the function.
    fn begin(&mut self, masks: [u64; 64]) -> Result<u32, TrialFault>
        requires { (take (length (S.cells self.old.below)) masks ≡ S.cells self.old.below) × (Savable S.holds (S.width self.old.below) (length (S.cells self.old.below)) masks) }
        ensures outcome { OpenAnswers S.Store self.old self.new result }
        ensures sound { IsSound S.Store self.old → IsSound S.Store self.new }
        ensures apart { TrialsApart S.Store self.old self.new }
    {
        self.table.open(masks, 0)
    }

    // Ends the trial with a number and all newer ones, and answers what was saved for it.
    fn end(&mut self, number: u32) -> Result<Saved, TrialFault>
        ensures outcome { MatchResult result (λ saved. Closed S.Store number saved self.old self.new) (λ e. CannotEnd number (open_trials S.Store self.old) e × (self.new ≡ self.old)) }
        ensures sound { IsSound S.Store self.old → IsSound S.Store self.new }
        ensures apart { TrialsApart S.Store self.old self.new }
    {
        self.table.end(number)
    }

    // Leaves each cell as it is, ends the same trials as `undo`, and answers how many remain open.
    pub fn keep(&mut self, number: u32) -> Result<usize, TrialFault>
        ensures outcome { KeepAnswers S.Store number self.old self.new result }
        ensures sound { IsSound S.Store self.old → IsSound S.Store self.new }
        ensures apart { TrialsApart S.Store self.old self.new }
    {
        self.end(number)?;
        Ok(self.trials())
    }

    // Gives each cell the set that it had when the trial was opened, ends that trial and all newer ones, and answers how many
    // remain open.
    #[tactic(auto, using(crate::proofs::Layers::restored_undone, crate::proofs::Layers::restored_apart, crate::proofs::Layers::restored_sound))]
    pub fn undo(&mut self, number: u32) -> Result<usize, TrialFault>
        ensures outcome { UndoAnswers S.Store number self.old self.new result }
        ensures sound { IsSound S.Store self.old → IsSound S.Store self.new }
        ensures apart { TrialsApart S.Store self.old self.new }
    {
        let saved = self.end(number)?;
        restore(&mut self.below, &saved.masks);
        Ok(self.trials())
    }

    // A write while trials are open is a plain write to the store below. Apart from `write` for the same reason: that a refused one
    // leaves the whole as it was takes a lemma by name.
    fn pass_on(&mut self, cell: usize, part: Domain) -> Result<(), WriteFault>
        ensures outcome { MatchResult result (λ _. Accepted S.holds (length (S.cells self.old.below)) (S.width self.old.below) cell part.mask × (S.cells self.new.below ≡ slice_set (S.cells self.old.below) cell part.mask)) (λ e. Refused S.holds (length (S.cells self.old.below)) (S.width self.old.below) cell part.mask e × (self.new ≡ self.old)) }
        ensures width { S.width self.new.below ≡ S.width self.old.below }
        ensures rest { S.stays self.old.below self.new.below × Rests S.Store self.old self.new }
    {
        self.below.write(cell, part)
    }
}

impl<S: Store> Store for TrialStore<S> {
    ghost use Rattle.std.specs.Prelude.{◌≡◌, [], MatchResult};
    ghost use Rattle.stores.specs.Stores.{Sized, LaidOut};
    ghost use Rattle.trials.specs.TrialStores.{open_trials, IsSound, Rests};
    ghost use Rattle.std.proofs.Common.{refl, ◌∙◌};

    ghost cells = { λ s. S.cells s.below };

    ghost width = { λ s. S.width s.below };

    ghost holds = { S.holds };

    ghost stays = { λ s t. S.stays s.below t.below × Rests S.Store s t };

    ghost laws = { let laws = S.laws in
        record {
          formed = λ s. laws.formed s.below;
          full = laws.full;
          front = laws.front;
          rear = laws.rear;
          same = λ s. (laws.same s.below, record { trials = refl; granted = refl; sound = λ h. h });
          then = λ s t u p q. (laws.then s.below t.below u.below p.0 q.0, record { trials = q.1.trials ∙ p.1.trials; granted = q.1.granted ∙ p.1.granted; sound = λ h. q.1.sound (p.1.sound h) });
        } };

    // Where it is accepted, it ends all trials; their numbers stay granted.
    fn lay_out(&mut self, n: usize, d: usize) -> Result<(), LayOutFault>
        ensures outcome { MatchResult result (λ _. LaidOut n d (S.cells self.new.below) (S.width self.new.below)) (λ _. (Sized n d → ⊥) × (self.new ≡ self.old)) }
        ensures ended { MatchResult result (λ _. open_trials S.Store self.new ≡ []) (λ _. open_trials S.Store self.new ≡ open_trials S.Store self.old) }
        ensures granted { self.new.table.granted ≡ self.old.table.granted }
        ensures sound { IsSound S.Store self.old → IsSound S.Store self.new }
    {
        self.below.lay_out(n, d)?;
        self.table.clear();
        Ok(())
    }

    fn size(&self) -> Size {
        self.below.size()
    }

    fn read(&self, cell: usize) -> Option<Domain> {
        self.below.read(cell)
    }

    fn write(&mut self, cell: usize, part: Domain) -> Result<(), WriteFault> {
        self.pass_on(cell, part)
    }
}
