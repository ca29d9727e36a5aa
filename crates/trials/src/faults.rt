// Why a call on a store with trials is refused. Each case has its number.
ghost use Rattle.std.specs.Prelude.{◌≡◌};
ghost use Rattle.trials.specs.Faults.{trial_number, call_number};
ghost use Rattle.trials.specs.declared.faults.CallFault.TheVariants.{Write, Trial};

use stores::faults::WriteFault;

#[derive(Clone, Copy, PartialEq, Eq, Debug)]
pub enum TrialFault {
    // 16 trials are open
    TooManyOpen = 10,
    // all 1,000,000 numbers are granted
    AllGranted = 11,
    // no open trial has the number
    NotOpen = 12,
}

impl From<TrialFault> for u8 {
    ghost from_gives = { λ fault number. number ≡ trial_number fault };

    fn from(fault: TrialFault) -> u8 {
        fault as u8
    }
}

// Why one of several calls is refused: by the store below, or by the trials.
#[derive(Clone, Copy, PartialEq, Eq, Debug)]
pub enum CallFault {
    Write(WriteFault),
    Trial(TrialFault),
}

impl From<CallFault> for u8 {
    ghost from_gives = { λ fault number. number ≡ call_number fault };

    fn from(fault: CallFault) -> u8 {
        match fault {
            CallFault::Write(fault) => fault.into(),
            CallFault::Trial(fault) => fault.into(),
        }
    }
}

impl From<WriteFault> for CallFault {
    ghost from_gives = { λ f r. r ≡ Write f };

    fn from(fault: WriteFault) -> CallFault {
        CallFault::Write(fault)
    }
}

impl From<TrialFault> for CallFault {
    ghost from_gives = { λ f r. r ≡ Trial f };

    fn from(fault: TrialFault) -> CallFault {
        CallFault::Trial(fault)
    }
}
