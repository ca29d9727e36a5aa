// Texts of loads with the line that answers each, worked out by hand. A crate of its own, so that `load_text` is not proved twice.
#![tactic(auto)]

#[cfg(test)]
mod tests {
    use load_text::reading::parse;
    use load_text::words::reply;
    use std::alloc::Global;
    use std::process::Abort;
    use std::test::Fail;

    fn answers(rt: &impl Abort, heap: Global, text: &[u8], line: &str) -> Result<(), Fail> {
        let said = reply(heap, parse(heap, text))?;
        assert!(rt; said.as_str() == line, "{}", line);
        Ok(())
    }

    #[test]
    fn weighed(rt: HostRuntime) -> Result<(), Fail> {
        let heap = rt.alloc();
        answers(&rt, heap, b"points\n\n\n", "equal at every grade")?;
        answers(
            &rt,
            heap,
            b"points\n\n-3",
            "lighter at -3: the left load holds 0, the right load holds 1",
        )?;
        answers(
            &rt,
            heap,
            b"points\n 2147483647  +7 \n7 2147483647 -0\n",
            "lighter at 0: the left load holds 0, the right load holds 1",
        )?;
        answers(
            &rt,
            heap,
            b"points\n-2147483648 5 5\n5\n",
            "heavier at 5: the left load holds 2, the right load holds 1",
        )?;
        answers(
            &rt,
            heap,
            b"hands\n255/0\n255/65535 255/1 254/0\n",
            "heavier at 255/0: the left load holds 1, the right load holds 0",
        )?;
        answers(
            &rt,
            heap,
            b"hands\n003/1790 0/0\n0/0 3/1790",
            "equal at every grade",
        )
    }

    #[test]
    fn refused(rt: HostRuntime) -> Result<(), Fail> {
        let heap = rt.alloc();
        answers(&rt, heap, b"", "refused: line 1 is missing")?;
        answers(&rt, heap, b"points", "refused: line 2 is missing")?;
        answers(&rt, heap, b"points\n1 2\n", "refused: line 3 is missing")?;
        answers(
            &rt,
            heap,
            b"points\n1\n2\n\n",
            "refused: line 4, entry 1: nothing may follow the third line",
        )?;
        answers(
            &rt,
            heap,
            b"Points\n1\n2\n",
            "refused: line 1, entry 1: neither points nor hands",
        )?;
        answers(
            &rt,
            heap,
            b"points hands\n1\n2\n",
            "refused: line 1, entry 1: neither points nor hands",
        )?;
        answers(
            &rt,
            heap,
            b"points\n1 2 x3\n4\n",
            "refused: line 2, entry 3: no entry of this kind",
        )?;
        answers(
            &rt,
            heap,
            b"points\n1\n2147483648\n",
            "refused: line 3, entry 1: no entry of this kind",
        )?;
        answers(
            &rt,
            heap,
            b"points\n-\n1\n",
            "refused: line 2, entry 1: no entry of this kind",
        )?;
        answers(
            &rt,
            heap,
            b"hands\n1/2 256/0\n\n",
            "refused: line 2, entry 2: no entry of this kind",
        )?;
        answers(
            &rt,
            heap,
            b"hands\n1/2\n1/65536\n",
            "refused: line 3, entry 1: no entry of this kind",
        )?;
        answers(
            &rt,
            heap,
            b"hands\n1/2/3\n\n",
            "refused: line 2, entry 1: no entry of this kind",
        )?;
        answers(
            &rt,
            heap,
            b"hands\n17\n\n",
            "refused: line 2, entry 1: no entry of this kind",
        )
    }

    #[test]
    fn lengths(rt: HostRuntime) -> Result<(), Fail> {
        let heap = rt.alloc();
        let mut longest = [b' '; 65537];
        longest[0] = b'\n';
        answers(&rt, heap, &longest, "refused: over 65536 bytes")?;
        answers(&rt, heap, &longest[1..], "refused: line 2 is missing")
    }
}
