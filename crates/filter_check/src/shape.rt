// The shape of a rule: its two rows, of four cells at most in all.
#[derive(Clone, Copy)]
pub struct Shape<'a> {
    pub left: &'a [u8],
    pub right: &'a [u8],
    // how many rules have the shape: 7 sets for each cell
    pub rules: u64,
}

impl<'a> Shape<'a> {
    pub fn new(left: &'a [u8], right: &'a [u8], rules: u64) -> Shape<'a> {
        Shape { left, right, rules }
    }
}

fn set(number: u64) -> u64 {
    number % 7 + 1
}

// The sets of a rule's cells, by its number. Where it has fewer than four cells, the others have the lowest rank alone.
pub fn sets(rule: u64) -> [u64; 4] {
    [set(rule), set(rule / 7), set(rule / 49), set(rule / 343)]
}
