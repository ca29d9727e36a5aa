// Sets, stores and trials on examples worked out by hand. A crate of its own, so that the libraries are not proved twice.
#![tactic(auto)]

#[cfg(test)]
mod tests {
    use domains::domain::Domain;
    use std::test::Fail;
    use stores::bit_store::BitStore;
    use stores::bounds_store::BoundsStore;
    use stores::faults::{LayOutFault, WriteFault};
    use stores::store::{Size, Store};
    use trials::faults::{CallFault, TrialFault};
    use trials::rehearsal::{CallAnswer, TrialCall, answer, rehearse};
    use trials::sound_store::{self, SoundTrialStore};
    use trials::trial_store::TrialStore;

    fn set(mask: u64) -> Result<Domain, Fail> {
        Domain::new(mask).ok_or_else(|| Fail::new("no set"))
    }

    #[test]
    fn numbers_of_refusals(rt: HostRuntime) {
        assert_eq!(rt; u8::from(LayOutFault::OutOfBounds), 2);
        assert_eq!(rt; u8::from(WriteFault::NoCell), 4);
        assert_eq!(rt; u8::from(WriteFault::RankPastScale), 6);
        assert_eq!(rt; u8::from(CallFault::from(WriteFault::NotHeld)), 8);
        assert_eq!(rt; u8::from(TrialFault::TooManyOpen), 10);
        assert_eq!(rt; u8::from(TrialFault::AllGranted), 11);
        assert_eq!(rt; u8::from(CallFault::from(TrialFault::NotOpen)), 12);
    }

    #[test]
    fn sets(rt: HostRuntime) -> Result<(), Fail> {
        assert!(rt; Domain::new(0).is_none());
        assert!(rt; Domain::new(1 << 48).is_none());
        assert_eq!(rt;
            Domain::full(48).map(|part| part.mask()),
            Some(281474976710655)
        );
        assert_eq!(rt; Domain::full(49), None);
        assert_eq!(rt; Domain::span(2, 4), Domain::new(28));
        let part = set(0b101100)?;
        assert_eq!(rt; part.lowest(), 2);
        assert_eq!(rt; part.highest(), 5);
        assert_eq!(rt; part.count(), 3);
        assert!(rt; part.contains(3) && !part.contains(4) && !part.contains(99));
        assert_eq!(rt; part.up_to(3), Domain::new(0b001100));
        assert_eq!(rt; part.from(3), Domain::new(0b101000));
        assert_eq!(rt; part.up_to(1), None);
        assert_eq!(rt; part.common(0b110011), Domain::new(0b100000));
        Ok(())
    }

    #[test]
    fn bounds_of_a_layout(rt: HostRuntime) -> Result<(), Fail> {
        let mut bits = BitStore::new();
        assert_eq!(rt; bits.write(0, set(1)?), Err(WriteFault::NoCell));
        assert_eq!(rt; bits.lay_out(0, 1), Err(LayOutFault::OutOfBounds));
        assert_eq!(rt; bits.lay_out(65, 1), Err(LayOutFault::OutOfBounds));
        assert_eq!(rt; bits.lay_out(1, 49), Err(LayOutFault::OutOfBounds));
        assert_eq!(rt; bits.lay_out(1, 0), Err(LayOutFault::OutOfBounds));
        assert_eq!(rt; bits.lay_out(64, 48), Ok(()));
        assert_eq!(rt; bits.read(63), Domain::new(281474976710655));
        assert!(rt; bits.read(64).is_none());
        let copy = bits.clone()?;
        assert_eq!(rt; copy.read(63), bits.read(63));
        Ok(())
    }

    #[test]
    fn gaps(rt: HostRuntime) -> Result<(), Fail> {
        let mut bounds = BoundsStore::new();
        assert_eq!(rt; bounds.lay_out(3, 3), Ok(()));
        assert_eq!(rt; bounds.write(1, set(5)?), Err(WriteFault::NotHeld));
        assert_eq!(rt; bounds.write(1, set(13)?), Err(WriteFault::RankPastScale));
        assert_eq!(rt; bounds.write(3, set(13)?), Err(WriteFault::NoCell));
        assert_eq!(rt; bounds.write(1, set(6)?), Ok(()));
        assert_eq!(rt; bounds.read(0), Domain::new(7));
        assert_eq!(rt; bounds.read(1), Domain::new(6));
        assert_eq!(rt; bounds.read(2), Domain::new(7));
        assert_eq!(rt; bounds.ends(1), Some((1, 2)));
        assert_eq!(rt; bounds.ends(3), None);
        Ok(())
    }

    // A type that holds a store with trials asks for no bound.
    #[derive(Drop)]
    struct Desk<S> {
        store: TrialStore<S>,
    }

    #[test]
    fn trials_over_trials(rt: HostRuntime) -> Result<(), Fail> {
        let mut desk = Desk {
            store: TrialStore::new(TrialStore::new(BitStore::new())),
        };
        let store = &mut desk.store;
        assert_eq!(rt; store.lay_out(2, 4), Ok(()));
        let first = store.open();
        assert!(rt; first.is_ok());
        assert_eq!(rt; store.write(0, set(9)?), Ok(()));
        assert!(rt; store.open().is_ok());
        assert_eq!(rt; store.write(0, set(8)?), Ok(()));
        assert!(rt; store.keep(2).is_ok());
        assert_eq!(rt; store.read(0), Domain::new(8));
        assert!(rt; store.undo(2).is_err());
        assert!(rt; store.undo(1).is_ok());
        assert_eq!(rt; store.read(0), Domain::new(15));
        Ok(())
    }

    #[test]
    fn calls_and_their_answers(rt: HostRuntime) -> Result<(), Fail> {
        let mut store = TrialStore::new(BoundsStore::new());
        assert_eq!(rt; store.lay_out(2, 4), Ok(()));
        let part = set(6)?;
        let gap = set(5)?;
        let write = TrialCall::Write { cell: 0, part };
        let elsewhere = TrialCall::Write { cell: 2, part };
        let gapped = TrialCall::Write { cell: 0, part: gap };
        let opened = CallAnswer::Opened { number: 1 };
        assert_eq!(rt; answer(&mut store, TrialCall::Open), Ok(opened));
        assert_eq!(rt; answer(&mut store, write), Ok(CallAnswer::Written));
        assert_eq!(rt;
            answer(&mut store, elsewhere),
            Err(CallFault::Write(WriteFault::NoCell))
        );
        assert_eq!(rt;
            answer(&mut store, gapped),
            Err(CallFault::Write(WriteFault::NotHeld))
        );
        assert_eq!(rt; store.read(0), Some(part));
        assert_eq!(rt;
            answer(&mut store, TrialCall::Keep { number: 2 }),
            Err(CallFault::Trial(TrialFault::NotOpen))
        );
        let ended = CallAnswer::Ended { left: 0 };
        assert_eq!(rt;
            answer(&mut store, TrialCall::Undo { number: 1 }),
            Ok(ended)
        );
        assert_eq!(rt; store.read(0), Domain::full(4));
        Ok(())
    }

    // A call can be made on the store within too, and the type still says that it is sound.
    #[tactic(auto, using(trials::proofs::SoundStores::still_sound))]
    #[test]
    fn calls_on_a_sound_store(rt: HostRuntime) -> Result<(), Fail> {
        let mut desk = SoundTrialStore::new(BoundsStore::new());
        assert_eq!(rt; desk.lay_out(2, 4), Ok(()));
        let write = TrialCall::Write {
            cell: 1,
            part: set(6)?,
        };
        let undo = TrialCall::Undo { number: 1 };
        assert_eq!(rt; desk.write(1, set(9)?), Err(WriteFault::NotHeld));
        assert_eq!(rt; desk.size(), Size { cells: 2, width: 4 });
        assert_eq!(rt;
            sound_store::answer(&mut desk, TrialCall::Open),
            Ok(CallAnswer::Opened { number: 1 })
        );
        assert_eq!(rt;
            sound_store::answer(&mut desk, write),
            Ok(CallAnswer::Written)
        );
        assert_eq!(rt; desk.read(1), Domain::new(6));
        assert_eq!(rt; rehearse(&mut desk.store, &[write]), Ok(1));
        assert_eq!(rt;
            sound_store::answer(&mut desk, undo),
            Ok(CallAnswer::Ended { left: 0 })
        );
        assert_eq!(rt; desk.read(1), Domain::full(4));
        assert_eq!(rt;
            sound_store::answer(&mut desk, undo),
            Err(CallFault::Trial(TrialFault::NotOpen))
        );
        Ok(())
    }
}
