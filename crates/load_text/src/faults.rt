// Why a text of loads is refused.
ghost use Rattle.load_text.specs.declared.faults.TextFault.TheVariants.{OutOfMemory};
ghost use Rattle.load_text.specs.Words.{fault_words};
ghost use Rattle.std.specs.Prelude.{◌≡◌, Some};

use std::alloc::AllocFailed;
use std::error::Error;
use std::fmt;

#[derive(Clone, Copy, PartialEq, Eq, Debug)]
pub enum TextFault {
    // over 65,536 bytes
    TooLong,
    // fewer than three lines: the first that is missing
    MissingLine { line: usize },
    // something stands after the third line
    ExtraLine,
    // the first line is neither `points` nor `hands`
    UnknownKind,
    // the first word, from 1, of a line that is no entry of the kind
    BadEntry { line: usize, entry: usize },
    OutOfMemory,
}

impl fmt::Display for TextFault {
    ghost output = { λ f. Some (fault_words f) };

    fn fmt<W: fmt::Write>(&self, f: &mut fmt::Formatter<W>) -> fmt::Result {
        match self {
            TextFault::TooLong => write!(f, "refused: over 65536 bytes"),
            TextFault::MissingLine { line } => write!(f, "refused: line {line} is missing"),
            TextFault::ExtraLine => write!(
                f,
                "refused: line 4, entry 1: nothing may follow the third line"
            ),
            TextFault::UnknownKind => write!(
                f,
                "refused: line 1, entry 1: neither points nor hands"
            ),
            TextFault::BadEntry { line, entry } => write!(
                f,
                "refused: line {line}, entry {entry}: no entry of this kind"
            ),
            TextFault::OutOfMemory => write!(f, "refused: out of memory"),
        }
    }
}

impl Error for TextFault {}

impl<T: Drop> From<AllocFailed<T>> for TextFault {
    ghost from_gives = { λ _ r. r ≡ OutOfMemory };

    fn from(_e: AllocFailed<T>) -> TextFault {
        TextFault::OutOfMemory
    }
}
