// Byte strings with what they read as, worked out by hand from the format.
#![tactic(auto)]

#[cfg(test)]
mod tests;

#[cfg(test)]
mod listings {
    use order_text::listing::listing;
    use std::test::Fail;

    #[test]
    fn short_and_long_files(rt: HostRuntime) -> Result<(), Fail> {
        let heap = rt.alloc();
        let empty = listing(heap, b"")?;
        assert_eq!(rt; empty.as_str(), "at 0: end of the file; orders: 0");
        let post = listing(heap, b"PR\x03\x00\x05\x02\x09")?;
        assert_eq!(rt;
            post.as_str(),
            "at 0: post a rule: left cells 5, 2, 9; right cells none\nat 7: end of the file; orders: 1"
        );
        let room = [0u8; 8193];
        let unknown = listing(heap, &room[0..8192])?;
        assert_eq!(rt;
            unknown.as_str(),
            "at 0: fault 14, an unknown mark; orders: 0"
        );
        let long = listing(heap, &room)?;
        assert_eq!(rt;
            long.as_str(),
            "at 0: over 8192 bytes; playing this file would answer 13"
        );
        Ok(())
    }

    #[test]
    fn orders_in_words(rt: HostRuntime) -> Result<(), Fail> {
        let heap = rt.alloc();
        let limits = listing(
            heap,
            b"LI\x04\x80\x00\x00\x00\x00\x05LI\x05\x00\x00\x00\x00\x00\x00LO\x02\x03X",
        )?;
        assert_eq!(rt;
            limits.as_str(),
            "at 0: limit cell 4 to ranks 0, 2, 47\nat 9: limit cell 5 to ranks none\nat 18: lay out: cells 2, grades 3\nat 22: fault 15, a record cut short; orders: 3"
        );
        let trials = listing(heap, b"OTUT\x00\x00\x00\x01KT\x00\x00\x01\x00RD\xff")?;
        assert_eq!(rt;
            trials.as_str(),
            "at 0: open a trial\nat 2: undo trial 1\nat 8: keep trial 256\nat 14: read cell 255\nat 17: end of the file; orders: 4"
        );
        Ok(())
    }
}
