// Why two rows make no rule, and why a store is not filtered by them. Each case has its number.
ghost use Rattle.std.specs.Prelude.{◌≡◌};
ghost use Rattle.rules.specs.Faults.{row_number, filter_number};
ghost use Rattle.rules.specs.declared.faults.FilterFault.TheVariants.{Rows, Store};

use stores::faults::WriteFault;

#[derive(Clone, Copy, PartialEq, Eq, Debug)]
pub enum RowFault {
    // a row has no cell, or more than 16
    BadLength = 3,
    // a cell is not one of the store's
    NoCell = 4,
    // a cell is named a second time, in one row or across both
    NamedTwice = 5,
}

impl From<RowFault> for u8 {
    ghost from_gives = { λ fault number. number ≡ row_number fault };

    fn from(fault: RowFault) -> u8 {
        fault as u8
    }
}

#[derive(Clone, Copy, PartialEq, Eq, Debug)]
pub enum FilterFault {
    // the rows make no rule
    Rows(RowFault),
    // no choice from the cells' sets meets the rule
    NothingLeft,
    // the store refused a write; what a filter promises says that none does
    Store(WriteFault),
}

impl From<FilterFault> for u8 {
    ghost from_gives = { λ fault number. number ≡ filter_number fault };

    fn from(fault: FilterFault) -> u8 {
        match fault {
            FilterFault::Rows(why) => u8::from(why),
            FilterFault::NothingLeft => 9,
            FilterFault::Store(why) => u8::from(why),
        }
    }
}

impl From<RowFault> for FilterFault {
    ghost from_gives = { λ f r. r ≡ Rows f };

    fn from(fault: RowFault) -> FilterFault {
        FilterFault::Rows(fault)
    }
}

impl From<WriteFault> for FilterFault {
    ghost from_gives = { λ f r. r ≡ Store f };

    fn from(fault: WriteFault) -> FilterFault {
        FilterFault::Store(fault)
    }
}
