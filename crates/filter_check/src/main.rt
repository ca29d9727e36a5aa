// Goes through every rule of small shape on a scale of three ranks, and compares filtering by marks with a search over all choices.
#![tactic(auto)]

mod choice;
mod comparing;
mod defined;
mod search;
mod shape;
mod tally;

use comparing::compare;
use shape::{Shape, sets};
use std::io;
use stores::bit_store::BitStore;
use stores::bounds_store::BoundsStore;
use stores::store::Store;
use tally::Tally;

// The sets of three ranks, and those without a gap.
const ALL: [u64; 7] = [1, 2, 3, 4, 5, 6, 7];

const GAPLESS: [u64; 6] = [1, 2, 3, 4, 6, 7];

// Compares the rules of a shape whose sets are all held. At the first difference, answers the number of the rule.
fn compare_all<S: Store>(store: &mut S, shape: Shape<'_>, held: &[u64]) -> Result<Tally, u64> {
    let mut tally = Tally::default();
    for rule in 0..shape.rules {
        let sets = sets(rule);
        if sets.iter().all(|set| held.contains(set)) {
            tally = tally.and(compare(store, shape, &sets).ok_or(rule)?);
        }
    }
    Ok(tally)
}

fn tell_difference(rt: &HostRuntime, shape: Shape<'_>, rule: u64) -> io::Result<()> {
    let Shape { left, right, .. } = shape;
    let [a, b, c, d] = sets(rule);
    println!(rt; "difference at left row {left:?}, right row {right:?}, sets {a} {b} {c} {d}")
}

fn tell_tally(rt: &HostRuntime, tally: Tally) -> io::Result<()> {
    let Tally { rules, unmet, went } = tally;
    println!(rt; "  {rules} rules compared")?;
    println!(rt; "  {unmet} could not be met")?;
    println!(rt; "  {went} ranks went")
}

// Answers whether there was no difference.
fn go_through<S: Store>(rt: &HostRuntime, store: &mut S, held: &[u64]) -> io::Result<bool> {
    let shapes = [
        Shape::new(&[0], &[1], 49),
        Shape::new(&[0], &[1, 2], 343),
        Shape::new(&[0, 1], &[2], 343),
        Shape::new(&[0, 1], &[2, 3], 2401),
        Shape::new(&[0], &[1, 2, 3], 2401),
    ];
    let mut tally = Tally::default();
    for shape in shapes {
        match compare_all(store, shape, held) {
            Ok(more) => tally = tally.and(more),
            Err(rule) => {
                tell_difference(rt, shape, rule)?;
                return Ok(false);
            }
        }
    }
    tell_tally(rt, tally)?;
    Ok(true)
}

fn main(rt: HostRuntime) -> io::Result<()> {
    println!(rt; "A store of bits, every set")?;
    if !go_through(&rt, &mut BitStore::new(), &ALL)? {
        return Ok(());
    }
    println!(rt; "A store of bounds, every set without a gap")?;
    go_through(&rt, &mut BoundsStore::new(), &GAPLESS)?;
    Ok(())
}
