// Orders, and what can be wrong with the bytes of a file.
ghost use Rattle.std.specs.Prelude.{◌≡◌, Some};
ghost use Rattle.orders.specs.Parse.{number_of, place_of, fault_words};

use std::error::Error;
use std::fmt;

// One order of a file. The rows of a post are parts of the file itself.
#[derive(Clone, Copy, PartialEq, Eq, Debug)]
pub enum Order<'a> {
    LayOut { cells: u8, width: u8 },
    Limit { cell: u8, set: u64 },
    Post { left: &'a [u8], right: &'a [u8] },
    Open,
    Undo { trial: u32 },
    Keep { trial: u32 },
    Read { cell: u8 },
}

// Why no order can be read. The place is that of the mark, counted from the start of the file.
#[derive(Clone, Copy, PartialEq, Eq, Debug)]
pub enum OrderFault {
    UnknownMark { place: usize },
    CutShort { place: usize },
}

impl OrderFault {
    // Where the mark stands.
    pub fn place(self) -> usize
        ensures { result ≡ place_of self }
    {
        match self {
            OrderFault::UnknownMark { place } | OrderFault::CutShort { place } => place,
        }
    }
}

// The number that callers are told: 14 for an unknown mark, 15 for a record cut short.
impl From<OrderFault> for u8 {
    ghost from_gives = { λ fault number. number ≡ number_of fault };

    fn from(fault: OrderFault) -> u8 {
        match fault {
            OrderFault::UnknownMark { .. } => 14,
            OrderFault::CutShort { .. } => 15,
        }
    }
}

impl fmt::Display for OrderFault {
    ghost output = { λ fault. Some (fault_words (number_of fault)) };

    fn fmt<W: fmt::Write>(&self, f: &mut fmt::Formatter<W>) -> fmt::Result {
        f.write_str(match self {
            OrderFault::UnknownMark { .. } => "fault 14, an unknown mark",
            OrderFault::CutShort { .. } => "fault 15, a record cut short",
        })
    }
}

impl Error for OrderFault {}
