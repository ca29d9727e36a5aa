// The answer to a text of loads, in words.
ghost use Rattle.std.specs.Prelude.{◌≡◌, IfOk, string_bytes};
ghost use Rattle.load_text.specs.Words.{weight_word, counts_words, decided_words, SaysOf, Replies};

use crate::entries::Entry;
use crate::faults::TextFault;
use crate::reading::{LoadPair, Pair};
use loads::grades::Grade;
use loads::weighing::{Tally, compare_loads};
use std::alloc::{AllocError, Global};

// What the left load is, by how many members of the deciding grade each load holds. This and the next are apart from `tally_words`:
// written out there, a wrong word would be refused at an answer by name, and not at the function.
fn weight_word(left: usize, right: usize) -> &'static str
    ensures { result.now ≡ weight_word left right }
{
    if left < right { "lighter" } else { "heavier" }
}

fn counts_words(heap: Global, left: usize, right: usize) -> Result<String, AllocError>
    ensures { IfOk result (λ s. string_bytes s ≡ counts_words left right) }
{
    format!(in heap; "the left load holds {left}, the right load holds {right}")
}

// Says at which grade two loads differ, and how: one text of four words.
fn tally_words<G: Entry>(heap: Global, tally: Tally<'_, G>) -> Result<String, AllocError>
    ensures { IfOk result (λ s. string_bytes s ≡ decided_words G.spelt tally.entry.grade.now tally.entry.left tally.entry.right) }
{
    let Tally { grade, left, right } = tally;
    let grade = grade.spell(heap)?;
    let word = weight_word(left, right);
    let counts = counts_words(heap, left, right)?;
    format!(in heap; "{word} at {grade}: {counts}")
}

// Says how two loads of one kind compare.
fn pair_words<G: Grade + Entry>(heap: Global, pair: &Pair<G>) -> Result<String, AllocError>
    ensures { IfOk result (λ s. SaysOf G.cmp G.spelt pair.now.left.items pair.now.right.items (string_bytes s)) }
{
    match compare_loads(&pair.left, &pair.right).decided {
        None => String::from_str(heap, "equal at every grade"),
        Some(tally) => tally_words(heap, tally),
    }
}

// The line that answers a text, by what it was read as.
pub fn reply(heap: Global, read: Result<LoadPair, TextFault>) -> Result<String, AllocError>
    ensures { IfOk result (λ s. Replies read (string_bytes s)) }
{
    match read {
        Ok(LoadPair::Points(pair)) => pair_words(heap, &pair),
        Ok(LoadPair::Hands(pair)) => pair_words(heap, &pair),
        Err(fault) => fault.to_string(heap),
    }
}
