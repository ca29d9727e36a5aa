// The table of snapshots: what is saved for each open trial. It opens a trial, and ends one with all newer ones.
ghost use Rattle.std.specs.Prelude.{◌≡◌, ◌≤◌, length, take};
ghost use Rattle.trials.specs.Saved.{trials_from, Numbered, Numbered-prop};

use crate::faults::TrialFault;
use crate::saved::Saved;

// How many trials may be open at once, and how many numbers are granted in all.
pub const MOST_OPEN: usize = 16;

pub const MOST_GRANTED: u32 = 1_000_000;

// The first `count` places are of the open trials, the oldest first; their numbers rise. There is no copy of a table, so no number is
// granted twice. A plain array with its count, and no vector of fixed room, since that blanks each place of a trial that ends.
#[derive(Drop)]
pub struct TrialTable {
    count: usize,
    granted: u32,
    saved: [Saved; MOST_OPEN],
    pub ghost long: { length saved ≡ 16 },
    pub ghost few: { count ≤ 16 },
    pub ghost spent: { granted ≤ 1000000 },
    pub ghost numbered: { Numbered granted (trials_from (take count saved)) } by { Numbered-prop granted (trials_from (take count saved)) },
}

impl TrialTable {
    ghost use Rattle.std.specs.Prelude.{◌≡◌, ◌+◌, ◌<◌, ◌≤◌, [], ◌∷◌, length, take, MatchOption, MatchResult};
    ghost use Rattle.trials.specs.Saved.{trial, at};
    ghost use Rattle.trials.specs.Trials.{trials_of, NotAmong, Opens, CannotOpen, Ends, CannotEnd};

    pub fn new() -> TrialTable
        ensures { (trials_of result ≡ []) × (result.granted ≡ 0) }
    {
        TrialTable {
            count: 0,
            granted: 0,
            saved: [Saved::default(); MOST_OPEN],
        }
    }

    // How many trials are open.
    #[tactic(auto, using(crate::proofs::Places::count_of))]
    pub fn len(&self) -> usize
        ensures count { result ≡ length (trials_of self.now) }
        ensures few { result ≤ 16 }
        ensures numbered { Numbered self.now.granted (trials_of self.now) }
    {
        self.count // at most MOST_OPEN
    }

    // How many numbers are granted.
    pub fn granted(&self) -> u32
        ensures value { result ≡ self.now.granted }
        ensures spent { result ≤ 1000000 }
    {
        self.granted // at most MOST_GRANTED
    }

    // Opens a trial with the next number.
    pub fn open(&mut self, masks: [u64; 64], note: usize) -> Result<u32, TrialFault>
        ensures { MatchResult result (λ t. Opens (trials_of self.old) self.old.granted (record { number = t; note = note; masks = masks }) (trials_of self.new) self.new.granted) (λ e. CannotOpen (trials_of self.old) self.old.granted e × (self.new ≡ self.old)) }
    {
        if self.len() >= MOST_OPEN {
            return Err(TrialFault::TooManyOpen);
        }
        if self.granted >= MOST_GRANTED {
            return Err(TrialFault::AllGranted);
        }
        let number = self.granted + 1;
        let saved = Saved {
            number,
            note,
            masks,
        };
        self.put(saved);
        Ok(number)
    }

    // Puts a trial with the next number behind the others.
    #[tactic(auto, using(crate::proofs::Places::room_of, crate::proofs::Places::few_more, crate::proofs::Places::put_front))]
    fn put(&mut self, saved: Saved)
        requires { (length (trials_of self.old) < 16) × ((self.old.granted < 1000000) × (saved.number ≡ self.old.granted + 1)) }
        ensures front { trials_of self.new ≡ trial saved ∷ trials_of self.old }
        ensures spent { self.new.granted ≡ self.old.granted + 1 }
    {
        self.saved[self.count] = saved;
        self.count += 1;
        self.granted += 1;
    }

    // The place of the open trial with a number.
    fn place(&self, number: u32) -> Option<usize>
        ensures { MatchOption result (NotAmong number (trials_of self.now)) (λ p. (p < self.now.count) × Ends number (trials_of self.now) (trial (at self.now.saved p)) (trials_from (take p self.now.saved))) }
    {
        self.saved[..self.count]
            .iter()
            .position(|s| s.number == number)
    }

    // Ends the trial at a place and all newer ones, and answers what was saved for it.
    #[tactic(auto, using(crate::proofs::Places::cut_numbered, crate::proofs::Places::some_at, crate::proofs::Places::granted_at, crate::proofs::Places::older_numbered))]
    fn cut(&mut self, place: usize) -> Saved
        requires { place < self.old.count }
        ensures that { result ≡ at self.old.saved place }
        ensures older { trials_of self.new ≡ trials_from (take place self.old.saved) }
        ensures spent { self.new.granted ≡ self.old.granted }
    {
        let saved = self.saved[place];
        self.count = place;
        saved
    }

    // Ends the trial with a number and all newer ones, and answers what was saved for it.
    pub fn end(&mut self, number: u32) -> Result<Saved, TrialFault>
        ensures { MatchResult result (λ saved. Ends number (trials_of self.old) (trial saved) (trials_of self.new) × (self.new.granted ≡ self.old.granted)) (λ e. CannotEnd number (trials_of self.old) e × (self.new ≡ self.old)) }
    {
        let place = self.place(number).ok_or(TrialFault::NotOpen)?;
        Ok(self.cut(place))
    }

    // Ends all trials. Their numbers stay granted.
    pub fn clear(&mut self)
        ensures { (trials_of self.new ≡ []) × (self.new.granted ≡ self.old.granted) }
    {
        self.count = 0;
    }
}
