// The four marks. Ranks are counted from 0. Each stands by itself, as it is defined: that gamma and sigma are false without a beta
// could be said by nested Options, but no caller would read that with more ease.
#[derive(Clone, Copy, Default, PartialEq, Eq, Debug)]
pub struct Marks {
    // the highest rank whose counts differ
    pub alpha: Option<usize>,
    // the highest rank below alpha of which the left has more
    pub beta: Option<usize>,
    // whether the counts agree strictly between alpha and beta
    pub gamma: bool,
    // whether the left has more at the highest rank below beta whose counts differ
    pub sigma: bool,
}
