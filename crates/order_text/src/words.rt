// The words of an order.
ghost use Rattle.std.specs.Prelude.{ℕ, List, Some, OnOk};
ghost use Rattle.std.specs.Iterator.{IsFinite, Drains};
ghost use Rattle.std.specs.Fmt.{IsPlainFormatter, HasWritten};
ghost use Rattle.order_text.specs.Words.{ranks_of, listed, order_words, line_of};
ghost use Rattle.orders.specs.Said.{said};

use orders::Order;
use std::fmt;

// Writes numbers with commas between them, or the word `none`.
fn write_list<W: fmt::Write, I: Iterator<Item = u8> + Drop>(
    f: &mut fmt::Formatter<W>,
    mut numbers: I,
) -> fmt::Result
    requires can { I.can_next numbers }
    requires ends { IsFinite (I.remaining numbers) }
    ensures { OnOk result ((xs : List ℕ) × Drains I.next_gives numbers xs
        × (IsPlainFormatter f.old → HasWritten W.Write.write_str_gives f.old (listed xs) f.new)) }
{
    let Some(first) = numbers.next() else {
        return f.write_str("none");
    };
    write!(f, "{first}")?;
    for number in numbers {
        write!(f, ", {number}")?;
    }
    Ok(())
}

// Numbers as a list in words.
#[derive(Clone, Copy)]
struct Numbers<'a>(&'a [u8]);

impl fmt::Display for Numbers<'_> {
    ghost output = { λ numbers. Some (listed numbers.0.now) };

    fn fmt<W: fmt::Write>(&self, f: &mut fmt::Formatter<W>) -> fmt::Result {
        write_list(f, self.0.iter().copied())
    }
}

// The ranks of a set, in rising order, as a list in words.
#[derive(Clone, Copy)]
struct Ranks(u64);

impl fmt::Display for Ranks {
    ghost output = { λ ranks. Some (listed (ranks_of ranks.0)) };

    fn fmt<W: fmt::Write>(&self, f: &mut fmt::Formatter<W>) -> fmt::Result {
        let Ranks(set) = *self;
        write_list(f, (0..48u8).filter(|rank| (set >> *rank) % 2 == 1))
    }
}

// What an order says in words.
#[derive(Clone, Copy)]
struct Words<'a>(Order<'a>);

impl fmt::Display for Words<'_> {
    ghost output = { λ words. Some (order_words (said words.0)) };

    fn fmt<W: fmt::Write>(&self, f: &mut fmt::Formatter<W>) -> fmt::Result {
        match self.0 {
            Order::LayOut { cells, width } => write!(f, "lay out: cells {cells}, grades {width}"),
            Order::Limit { cell, set } => {
                let ranks = Ranks(set);
                write!(f, "limit cell {cell} to ranks {ranks}")
            }
            Order::Post { left, right } => {
                let (left, right) = (Numbers(left), Numbers(right));
                write!(f, "post a rule: left cells {left}; right cells {right}")
            }
            Order::Open => f.write_str("open a trial"),
            Order::Undo { trial } => write!(f, "undo trial {trial}"),
            Order::Keep { trial } => write!(f, "keep trial {trial}"),
            Order::Read { cell } => write!(f, "read cell {cell}"),
        }
    }
}

// The line of an order that stands at a place of the file.
#[derive(Clone, Copy)]
pub(crate) struct Line<'a> {
    pub(crate) place: usize,
    pub(crate) order: Order<'a>,
}

impl fmt::Display for Line<'_> {
    ghost output = { λ line. Some (line_of line.place (said line.order)) };

    fn fmt<W: fmt::Write>(&self, f: &mut fmt::Formatter<W>) -> fmt::Result {
        let Line { place, order } = *self;
        write!(f, "at {place}: {}", Words(order))
    }
}
