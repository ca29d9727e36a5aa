// Answers, which six bytes hold.
ghost use Rattle.std.specs.Prelude.{◌≡◌, ◌^◌, ◌<◌, ◌≤◌, MatchOption};

// What a call answers: a number below 2^48. No other can be made.
#[derive(Clone, Copy, PartialEq, Eq, Debug)]
pub struct Answer {
    value: u64,
    ghost below: { value < 2 ^ 48 },
}

impl Answer {
    // How many numbers there are to answer with.
    const BOUND: u64 = 1 << 48;

    // Refuses a number that six bytes do not hold. In the form of std's `NonZero::new` and `get`: there is one way to fail.
    pub fn new(value: u64) -> Option<Answer>
        ensures { MatchOption result (2 ^ 48 ≤ value) (λ a. (value < 2 ^ 48) × (a.value ≡ value)) }
    {
        if value < Self::BOUND {
            Some(Answer { value })
        } else {
            None
        }
    }

    pub fn value(self) -> u64
        ensures { (result ≡ self.value) × (result < 2 ^ 48) }
    {
        self.value
    }
}
