// Reads two loads from a text.
ghost use Rattle.std.specs.Prelude.{◌≡◌, MatchOption, MatchResult};
ghost use Rattle.load_text.specs.declared.reading.Kind.{Kind};
ghost use Rattle.load_text.specs.Lines.{words_of};
ghost use Rattle.load_text.specs.Text.{Written, LoadFault, ThreeLines, LinesFault, Names, BothWritten, BothFault, TextOf, TextFaultOf};

use crate::entries::Entry;
use crate::faults::TextFault;
use crate::lines::{Lines, Words};
use loads::kinds::{Hand, Points};
use std::alloc::Global;

// A longer text is refused.
const LONGEST: usize = 65536;

// The three lines of a text.
#[derive(Drop)]
struct Layout<'a> {
    kind: &'a [u8],
    left: &'a [u8],
    right: &'a [u8],
}

fn three_lines(text: &[u8]) -> Result<Layout<'_>, TextFault>
    ensures { MatchResult result (λ l. ThreeLines text.now l.kind.now l.left.now l.right.now) (λ f. LinesFault text.now f) }
{
    if text.len() > LONGEST {
        return Err(TextFault::TooLong);
    }
    let mut lines = Lines(text);
    let kind = lines.next().ok_or(TextFault::MissingLine { line: 1 })?;
    let left = lines.next().ok_or(TextFault::MissingLine { line: 2 })?;
    let right = lines.next().ok_or(TextFault::MissingLine { line: 3 })?;
    match lines.next() {
        None => Ok(Layout { kind, left, right }),
        Some(_) => Err(TextFault::ExtraLine),
    }
}

#[derive(Clone, Copy)]
enum Kind {
    Points,
    Hands,
}

// The kind that a line names.
fn kind_of(line: &[u8]) -> Option<Kind>
    ensures { MatchOption result ((k : Kind) → Names line.now k → ⊥) (λ k. Names line.now k) }
{
    let mut words = Words(line);
    match (words.next()?, words.next()) {
        (b"points", None) => Some(Kind::Points),
        (b"hands", None) => Some(Kind::Hands),
        _ => None,
    }
}

// The load that a line writes, an entry a word; `number` is the line's.
fn read_load<G: Entry + Drop>(heap: Global, line: &[u8], number: usize) -> Result<Vec<G>, TextFault>
    ensures { MatchResult result (λ load. Written G.writes (words_of line.now) load.items) (λ f. LoadFault G.writes (words_of line.now) number f) }
{
    let mut load = Vec::new(heap);
    for word in Words(line) {
        let grade = G::parse(word).ok_or(TextFault::BadEntry {
            line: number,
            entry: load.len() + 1,
        })?;
        load.push(grade)?;
    }
    Ok(load)
}

// Two loads of one kind.
#[derive(Drop)]
pub struct Pair<G> {
    pub left: Vec<G>,
    pub right: Vec<G>,
}

fn read_pair<G: Entry + Drop>(heap: Global, left: &[u8], right: &[u8]) -> Result<Pair<G>, TextFault>
    ensures { MatchResult result (λ p. BothWritten G.writes left.now right.now p.left.items p.right.items) (λ f. BothFault G.writes left.now right.now f) }
{
    let left = read_load(heap, left, 2)?;
    let right = read_load(heap, right, 3)?;
    Ok(Pair { left, right })
}

// Two loads, of the kind that their text names.
#[derive(Drop)]
pub enum LoadPair {
    Points(Pair<Points>),
    Hands(Pair<Hand>),
}

// Reads a text of three lines: the kind, the left load, the right load.
pub fn parse(heap: Global, text: &[u8]) -> Result<LoadPair, TextFault>
    ensures { MatchResult result (λ loads. TextOf text.now loads) (λ f. TextFaultOf text.now f) }
{
    let Layout { kind, left, right } = three_lines(text)?;
    match kind_of(kind).ok_or(TextFault::UnknownKind)? {
        Kind::Points => read_pair(heap, left, right).map(LoadPair::Points),
        Kind::Hands => read_pair(heap, left, right).map(LoadPair::Hands),
    }
}
