// What a filter does to a rule's cells, compared with what the search finds.
use crate::choice::{WIDTH, alone};
use crate::defined::defined_marks;
use crate::search::supported;
use crate::shape::Shape;
use crate::tally::Tally;
use domains::domain::Domain;
use filtering::by_marks::ByMarks;
use filtering::marks::marks;
use rules::faults::FilterFault;
use rules::filter::Filter;
use stores::store::Store;

// Lays out four cells and gives each its set; none where the store refuses one.
fn put<S: Store>(store: &mut S, sets: &[u64; 4]) -> Option<()> {
    store.lay_out(4, WIDTH).ok()?;
    for (cell, &set) in sets.iter().enumerate() {
        store.write(cell, Domain::new(set)?).ok()?;
    }
    Some(())
}

fn masks<S: Store>(store: &S) -> [u64; 4] {
    [0, 1, 2, 3].map(|cell| store.read(cell).map_or(0, |part| part.mask()))
}

// How many ranks the sets had that are not left.
fn count_gone(sets: &[u64; 4], left: &[u64; 4]) -> usize {
    let mut gone = 0_usize;
    for (set, left) in sets.iter().zip(left) {
        let ranks = (0..WIDTH).filter(|&rank| *set & !*left & alone(rank) != 0);
        gone = gone.saturating_add(ranks.count());
    }
    gone
}

// Whether marks and filter both refuse and leave the sets as they were.
fn is_refused<S: Store>(store: &mut S, shape: Shape<'_>, sets: &[u64; 4]) -> bool {
    let Shape { left, right, .. } = shape;
    marks(store, left, right) == Err(FilterFault::NothingLeft)
        && ByMarks.filter(store, left, right) == Err(FilterFault::NothingLeft)
        && masks(store) == *sets
}

// Whether a filter takes so many ranks and leaves these sets.
fn leaves<S: Store>(store: &mut S, shape: Shape<'_>, went: usize, kept: &[u64; 4]) -> bool {
    ByMarks.filter(store, shape.left, shape.right) == Ok(went) && masks(store) == *kept
}

// Counts a rule; none where the filter, the marks or the store do otherwise than the search.
pub fn compare<S: Store>(store: &mut S, shape: Shape<'_>, sets: &[u64; 4]) -> Option<Tally> {
    put(store, sets)?;
    let Some(kept) = supported(shape, sets) else {
        return is_refused(store, shape, sets).then_some(Tally::unmet());
    };
    let wanted = defined_marks(shape, sets);
    let went = count_gone(sets, &kept);
    let same = marks(store, shape.left, shape.right) == Ok(wanted)
        && leaves(store, shape, went, &kept)
        && leaves(store, shape, 0, &kept);
    same.then_some(Tally::met(went))
}
