// What is counted over rules of which filter and search say the same.
#[derive(Clone, Copy, Default)]
pub struct Tally {
    pub rules: usize,
    // rules that no choice meets
    pub unmet: usize,
    // ranks that went
    pub went: usize,
}

impl Tally {
    // One rule that no choice meets.
    pub fn unmet() -> Tally {
        Tally {
            rules: 1,
            unmet: 1,
            went: 0,
        }
    }

    // One rule that a choice meets.
    pub fn met(went: usize) -> Tally {
        Tally {
            rules: 1,
            unmet: 0,
            went,
        }
    }

    // No sum comes near the end of its type.
    pub fn and(self, other: Tally) -> Tally {
        Tally {
            rules: self.rules.saturating_add(other.rules),
            unmet: self.unmet.saturating_add(other.unmet),
            went: self.went.saturating_add(other.went),
        }
    }
}
