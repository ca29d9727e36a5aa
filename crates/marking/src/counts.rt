// The two counts that the marks are found of.
ghost use Rattle.std.specs.Prelude.{◌≡◌, length};

// How many ranks are counted.
pub const RANKS: usize = 48;

// How often each rank occurs on the left, and how often on the right.
#[derive(Clone, Copy)]
pub(crate) struct Counts<'a> {
    pub(crate) left: &'a [u8; RANKS],
    pub(crate) right: &'a [u8; RANKS],
    ghost left_len: { length left.now ≡ 48 },
    ghost right_len: { length right.now ≡ 48 },
}
