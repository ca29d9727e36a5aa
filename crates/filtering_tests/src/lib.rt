// Filtering and its marks on examples worked out by hand. A crate of its own, so that the libraries are not proved twice.
#![tactic(auto)]

#[cfg(test)]
mod tests {
    use domains::domain::Domain;
    use filtering::by_marks::ByMarks;
    use filtering::marks::marks;
    use marking::marks::Marks;
    use rules::faults::FilterFault;
    use rules::filter::Filter;
    use std::process::Abort;
    use std::test::Fail;
    use stores::bit_store::BitStore;
    use stores::bounds_store::BoundsStore;
    use stores::store::Store;
    use trials::trial_store::TrialStore;

    // Lays the store out with a cell for each mask, and gives each its set.
    fn put<S: Store>(store: &mut S, d: usize, masks: &[u64]) -> Result<(), Fail> {
        store
            .lay_out(masks.len(), d)
            .map_err(|_| Fail::new("not laid out"))?;
        for (cell, &mask) in masks.iter().enumerate() {
            let part = Domain::new(mask).ok_or_else(|| Fail::new("no set"))?;
            store
                .write(cell, part)
                .map_err(|_| Fail::new("not written"))?;
        }
        Ok(())
    }

    // The masks of the first four cells; 0 where there is none.
    fn masks<S: Store>(store: &S) -> [u64; 4] {
        [0, 1, 2, 3].map(|cell| store.read(cell).map_or(0, |part| part.mask()))
    }

    // Each of the five examples by name, on a store that `put` has made ready.
    fn set_with_a_gap<S: Store>(rt: &impl Abort, store: &mut S) {
        let wanted = Marks {
            alpha: Some(2),
            beta: Some(1),
            gamma: true,
            sigma: false,
        };
        assert_eq!(rt; marks(store, &[0, 1], &[2, 3]), Ok(wanted));
        assert_eq!(rt; ByMarks.filter(store, &[0, 1], &[2, 3]), Ok(1));
        assert_eq!(rt; masks(store), [1, 2, 6, 1]);
        assert_eq!(rt; ByMarks.filter(store, &[0, 1], &[2, 3]), Ok(0));
    }

    fn rank_from_each_row<S: Store>(rt: &impl Abort, store: &mut S) {
        let wanted = Marks {
            alpha: Some(3),
            beta: Some(2),
            gamma: true,
            sigma: true,
        };
        assert_eq!(rt; marks(store, &[0, 1], &[2, 3]), Ok(wanted));
        assert_eq!(rt; ByMarks.filter(store, &[0, 1], &[2, 3]), Ok(2));
        assert_eq!(rt; masks(store), [4, 2, 8, 1]);
    }

    fn nothing_goes<S: Store>(rt: &impl Abort, store: &mut S) {
        let wanted = Marks {
            alpha: Some(3),
            beta: Some(2),
            gamma: true,
            sigma: false,
        };
        assert_eq!(rt; marks(store, &[0, 1], &[2, 3]), Ok(wanted));
        assert_eq!(rt; ByMarks.filter(store, &[0, 1], &[2, 3]), Ok(0));
        assert_eq!(rt; masks(store), [12, 2, 12, 2]);
    }

    fn no_alpha<S: Store>(rt: &impl Abort, store: &mut S) {
        assert_eq!(rt; marks(store, &[0], &[1]), Ok(Marks::default()));
        assert_eq!(rt; ByMarks.filter(store, &[0], &[1]), Ok(2));
        assert_eq!(rt; masks(store), [2, 2, 0, 0]);
    }

    fn nothing_left<S: Store>(rt: &impl Abort, store: &mut S) {
        let refused = FilterFault::NothingLeft;
        assert_eq!(rt; u8::from(refused), 9);
        assert_eq!(rt; marks(store, &[0], &[1]), Err(refused));
        assert_eq!(rt; ByMarks.filter(store, &[0], &[1]), Err(refused));
        assert_eq!(rt; masks(store), [4, 3, 0, 0]);
    }

    #[test]
    fn examples_on_bits(rt: HostRuntime) -> Result<(), Fail> {
        let mut store = BitStore::new();
        put(&mut store, 3, &[5, 2, 6, 1])?;
        set_with_a_gap(&rt, &mut store);
        put(&mut store, 4, &[12, 2, 12, 1])?;
        rank_from_each_row(&rt, &mut store);
        put(&mut store, 4, &[12, 2, 12, 2])?;
        nothing_goes(&rt, &mut store);
        put(&mut store, 3, &[6, 3])?;
        no_alpha(&rt, &mut store);
        put(&mut store, 3, &[4, 3])?;
        nothing_left(&rt, &mut store);
        Ok(())
    }

    #[test]
    fn examples_on_bounds(rt: HostRuntime) -> Result<(), Fail> {
        let mut store = BoundsStore::new();
        put(&mut store, 4, &[12, 2, 12, 1])?;
        rank_from_each_row(&rt, &mut store);
        put(&mut store, 4, &[12, 2, 12, 2])?;
        nothing_goes(&rt, &mut store);
        put(&mut store, 3, &[6, 3])?;
        no_alpha(&rt, &mut store);
        put(&mut store, 3, &[4, 3])?;
        nothing_left(&rt, &mut store);
        Ok(())
    }

    #[test]
    fn between_open_and_undo(rt: HostRuntime) -> Result<(), Fail> {
        let mut store = TrialStore::new(BitStore::new());
        put(&mut store, 3, &[5, 2, 6, 1])?;
        assert_eq!(rt; store.open(), Ok(1));
        set_with_a_gap(&rt, &mut store);
        assert_eq!(rt; store.undo(1), Ok(0));
        assert_eq!(rt; masks(&store), [5, 2, 6, 1]);
        Ok(())
    }

    #[test]
    fn top_rank(rt: HostRuntime) -> Result<(), Fail> {
        let mut store = BitStore::new();
        put(&mut store, 48, &[1 << 47, 1 << 46])?;
        let wanted = Marks {
            alpha: Some(47),
            beta: Some(46),
            gamma: true,
            sigma: false,
        };
        assert_eq!(rt; marks(&store, &[1], &[0]), Ok(wanted));
        assert_eq!(rt; refusal(&mut store, &[0], &[1]), Some(9));
        Ok(())
    }

    // The number of the refusal, where filter and marks refuse alike.
    fn refusal<S: Store>(store: &mut S, left: &[u8], right: &[u8]) -> Option<u8> {
        let fault = marks(store, left, right).err()?;
        if ByMarks.filter(store, left, right) != Err(fault) {
            return None;
        }
        Some(u8::from(fault))
    }

    // The first fault that applies is told: rules in the upper lines have those of lower lines too.
    #[test]
    fn refusals_in_order(rt: HostRuntime) -> Result<(), Fail> {
        let mut store = BitStore::new();
        put(&mut store, 3, &[4, 3])?;
        assert_eq!(rt; refusal(&mut store, &[0, 0, 2], &[]), Some(3));
        assert_eq!(rt; refusal(&mut store, &[], &[0, 0, 2]), Some(3));
        assert_eq!(rt; refusal(&mut store, &[0; 16], &[2; 17]), Some(3));
        assert_eq!(rt; refusal(&mut store, &[0; 17], &[2; 16]), Some(3));
        assert_eq!(rt; refusal(&mut store, &[0; 16], &[2; 16]), Some(4));
        assert_eq!(rt; refusal(&mut store, &[0, 0], &[1, 2]), Some(4));
        assert_eq!(rt; refusal(&mut store, &[0, 0], &[1]), Some(5));
        assert_eq!(rt; refusal(&mut store, &[0], &[1, 1]), Some(5));
        assert_eq!(rt; refusal(&mut store, &[0], &[0, 1]), Some(5));
        assert_eq!(rt; refusal(&mut store, &[0], &[1]), Some(9));
        assert_eq!(rt; masks(&store), [4, 3, 0, 0]);
        Ok(())
    }
}
