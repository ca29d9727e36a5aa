// Loads weighed by hand, held against what the crate answers. A crate of its own, so that `loads` is not proved twice.
#![tactic(auto)]

#[cfg(test)]
mod tests {
    use loads::kinds::{Hand, Points};
    use loads::rank_counts::weigh_counts;
    use loads::weighing::{Weight, compare_loads, exchange, not_heavier, weigh};
    use std::cmp::Ordering;
    use std::process::Abort;
    use std::test::Fail;

    fn points(score: i32) -> Points {
        Points { score }
    }

    fn hand(class: u8, year: u16) -> Hand {
        Hand { class, year }
    }

    // left, right, what the left is, what the right is
    fn both_ways(rt: &impl Abort, left: &[Points], right: &[Points], there: Weight, back: Weight) {
        assert_eq!(rt; weigh(left, right), there);
        assert_eq!(rt; weigh(right, left), back);
    }

    #[test]
    fn points_from_the_highest_down(rt: HostRuntime) {
        let none: [Points; 0] = [];
        let low = [points(i32::MIN)];
        let high = [points(i32::MAX)];
        let many_low = [points(i32::MIN), points(i32::MIN), points(i32::MIN)];
        let mixed = [points(-3), points(7), points(-3)];
        let turned = [points(-3), points(-3), points(7)];
        let part = [points(7), points(-3)];
        both_ways(&rt, &none, &none, Weight::Equal, Weight::Equal);
        both_ways(&rt, &none, &low, Weight::Lighter, Weight::Heavier);
        both_ways(&rt, &low, &high, Weight::Lighter, Weight::Heavier);
        both_ways(&rt, &many_low, &high, Weight::Lighter, Weight::Heavier);
        both_ways(&rt, &mixed, &turned, Weight::Equal, Weight::Equal);
        both_ways(&rt, &part, &mixed, Weight::Lighter, Weight::Heavier);
        both_ways(
            &rt,
            &part,
            &[points(7), points(-2)],
            Weight::Lighter,
            Weight::Heavier,
        );
    }

    #[test]
    fn hands_by_class_then_later_year(rt: HostRuntime) {
        let undated = [Hand::undated(4)];
        let dated = [hand(4, 65535), hand(4, 1), hand(3, 0)];
        assert_eq!(rt; weigh(&dated, &undated), Weight::Lighter);
        assert_eq!(rt; weigh(&[hand(3, 1800)], &[hand(3, 1799)]), Weight::Lighter);
        assert_eq!(rt; weigh(&[hand(255, 9)], &[hand(0, 9)]), Weight::Heavier);
        assert_eq!(rt; weigh(&[hand(4, 0)], &undated), Weight::Equal);
        assert!(rt; not_heavier(&undated, &[hand(4, 0), hand(0, 1)]));
        assert!(rt; !not_heavier(&[hand(4, 0), hand(0, 1)], &undated));
    }

    #[test]
    fn thousands_of_members(rt: HostRuntime) {
        let ones = [points(1); 5000];
        let twos = [points(2); 1];
        let mut almost = [points(1); 5000];
        almost[2500] = points(0);
        both_ways(&rt, &ones, &twos, Weight::Lighter, Weight::Heavier);
        both_ways(&rt, &almost, &ones, Weight::Lighter, Weight::Heavier);
        both_ways(&rt, &ones, &ones, Weight::Equal, Weight::Equal);
    }

    #[test]
    fn where_it_was_decided(rt: HostRuntime) -> Result<(), Fail> {
        let left = [points(9), points(5), points(5), points(2)];
        let right = [points(2), points(5), points(9), points(2), points(1)];
        let found = compare_loads(&left, &right);
        assert_eq!(rt; found.weight, Weight::Heavier);
        assert_eq!(rt; found.agreed, 1);
        let tally = found.decided.ok_or_else(|| Fail::new("no grade decided"))?;
        assert_eq!(rt; tally.grade.score, 5);
        assert_eq!(rt; tally.left, 2);
        assert_eq!(rt; tally.right, 1);
        assert_eq!(rt; compare_loads(&left, &left).agreed, 3);
        Ok(())
    }

    #[test]
    fn one_member_exchanged(rt: HostRuntime) -> Result<(), Fail> {
        let mut load = [points(3), points(8)];
        let given = exchange(&mut load, 1, points(7)).map_err(|_| Fail::new("refused"))?;
        assert_eq!(rt; given.weight, Weight::Lighter);
        assert_eq!(rt; given.old.score, 8);
        assert_eq!(rt; load[1].score, 7);
        assert!(rt; exchange(&mut load, 2, points(0)).is_err());
        Ok(())
    }

    #[test]
    fn orders_of_grades(rt: HostRuntime) {
        assert_eq!(rt; points(-3).cmp(&points(7)), Ordering::Less);
        assert_eq!(rt; hand(3, 1800).cmp(&hand(3, 1799)), Ordering::Less);
        assert_eq!(rt; hand(4, 1799).cmp(&hand(3, 1800)), Ordering::Greater);
        assert_eq!(rt; Weight::from(Ordering::Less), Weight::Lighter);
        assert_eq!(rt; Weight::from(Ordering::Equal), Weight::Equal);
        assert_eq!(rt; Weight::from(Ordering::Greater), Weight::Heavier);
    }

    #[test]
    fn counts_of_ranks(rt: HostRuntime) {
        assert_eq!(rt; weigh_counts(&[], &[]), Weight::Equal);
        assert_eq!(rt; weigh_counts(&[], &[1]), Weight::Lighter);
        assert_eq!(rt; weigh_counts(&[0, 0, 1], &[0, 3]), Weight::Heavier);
        assert_eq!(rt; weigh_counts(&[0, 1], &[1, 1]), Weight::Lighter);
        assert_eq!(rt; weigh_counts(&[2, 1, 0], &[2, 1]), Weight::Equal);
    }
}
