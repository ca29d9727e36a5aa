// The long way to find what a rule supports: every choice from the cells' sets is looked at.
use crate::choice::{Choice, alone};
use crate::shape::Shape;

// How many choices there are of three ranks for four cells.
const CHOICES: usize = 81;

// The ranks that a choice gives the cells, by its number.
fn ranks(number: usize) -> [u64; 4] {
    [
        alone(number % 3),
        alone(number / 3 % 3),
        alone(number / 9 % 3),
        alone(number / 27 % 3),
    ]
}

// Whether each rank is one of its cell's set.
fn are_from(ranks: &[u64; 4], sets: &[u64; 4]) -> bool {
    let [a, b, c, d] = *ranks;
    let [e, f, g, h] = *sets;
    a & e != 0 && b & f != 0 && c & g != 0 && d & h != 0
}

fn join(sets: &[u64; 4], ranks: &[u64; 4]) -> [u64; 4] {
    let [a, b, c, d] = *sets;
    let [e, f, g, h] = *ranks;
    [a | e, b | f, c | g, d | h]
}

// The ranks that the choices that meet the rule give each cell; none where no choice meets it.
pub fn supported(shape: Shape<'_>, sets: &[u64; 4]) -> Option<[u64; 4]> {
    let mut found = None;
    for number in 0..CHOICES {
        let cells = ranks(number);
        if are_from(&cells, sets) && (Choice { shape, cells }).meets() {
            found = Some(join(&found.unwrap_or([0; 4]), &cells));
        }
    }
    found
}
