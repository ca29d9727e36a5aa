// Why a store refuses a call. Each case has its number.
ghost use Rattle.std.specs.Prelude.{◌≡◌};
ghost use Rattle.stores.specs.Faults.{lay_out_number, write_number};

#[derive(Clone, Copy, PartialEq, Eq, Debug)]
pub enum LayOutFault {
    // not 1 to 64 cells, or not 1 to 48 ranks
    OutOfBounds = 2,
}

impl From<LayOutFault> for u8 {
    ghost from_gives = { λ fault number. number ≡ lay_out_number fault };

    fn from(fault: LayOutFault) -> u8 {
        fault as u8
    }
}

#[derive(Clone, Copy, PartialEq, Eq, Debug)]
pub enum WriteFault {
    // the cell is not one of the store's
    NoCell = 4,
    // the set has a rank that is not below the width
    RankPastScale = 6,
    // the kind of store cannot hold the set
    NotHeld = 8,
}

impl From<WriteFault> for u8 {
    ghost from_gives = { λ fault number. number ≡ write_number fault };

    fn from(fault: WriteFault) -> u8 {
        fault as u8
    }
}
