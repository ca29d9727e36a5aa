// What is saved for an open trial: its number, what its owner notes, and the mask of each cell when it was opened.
#[derive(Clone, Copy, Default)]
pub struct Saved {
    pub number: u32,
    pub note: usize,
    // as `snapshot` hands them out: a plain array, since this is `Copy`
    pub masks: [u64; 64],
}
