// The rows of a rule, checked: a rule names 1 to 16 cells a row, all below n, none twice.
ghost use Rattle.std.specs.Prelude.{◌≡◌, ◌<◌, ◌≤◌, ◌↔◌, length, IsTrue, MatchBool, MatchResult, slice_index};
ghost use Rattle.rules.specs.Rows.{RowSized, Below, Past, Repeat, Apart, Fit, Unfit, cells};

use crate::faults::RowFault;

// How many cells a row may have.
pub const LONGEST_ROW: usize = 16;

fn is_sized(row: &[u8]) -> bool
    ensures { IsTrue result ↔ RowSized row.now }
{
    (1..=LONGEST_ROW).contains(&row.len())
}

// The two rows of a rule. Their cells are the left row's, and the right row's after them.
#[derive(Clone, Copy)]
struct Rows<'a> {
    left: &'a [u8],
    right: &'a [u8],
}

impl Rows<'_> {
    // Whether every cell is below n.
    fn are_below(&self, n: usize) -> bool
        ensures { MatchBool result (Below n (cells self.now)) (Past n (cells self.now)) }
    {
        self.left
            .iter()
            .chain(self.right)
            .all(|cell| usize::from(*cell) < n)
    }

    fn cell_at(&self, place: usize) -> u8
        requires { place < length (cells self.now) }
        ensures { result ≡ slice_index (cells self.now) place }
    {
        if place < self.left.len() {
            self.left[place]
        } else {
            self.right[place - self.left.len()]
        }
    }

    // Whether two places hold the same cell: by two loops left by a label, a form that docs/DECISIONS.md gives the reason for.
    fn has_repeat(&self) -> bool
        requires { (length self.now.left.now ≤ 16) × (length self.now.right.now ≤ 16) }
        ensures { MatchBool result (Repeat (cells self.now)) (Apart (cells self.now)) }
    {
        let count = self.left.len() + self.right.len();
        'rows: {
            for i in 0..count {
                for j in 0..i {
                    if self.cell_at(i) == self.cell_at(j) {
                        break 'rows true;
                    }
                }
            }
            false
        }
    }
}

// Whether two rows make a rule for n cells.
pub fn check_rows(left: &[u8], right: &[u8], n: usize) -> Result<(), RowFault>
    ensures { MatchResult result (λ _. Fit n left.now right.now) (λ f. Unfit n left.now right.now f) }
{
    if !is_sized(left) || !is_sized(right) {
        return Err(RowFault::BadLength);
    }
    let rows = Rows { left, right };
    if !rows.are_below(n) {
        return Err(RowFault::NoCell);
    }
    if rows.has_repeat() {
        return Err(RowFault::NamedTwice);
    }
    Ok(())
}
