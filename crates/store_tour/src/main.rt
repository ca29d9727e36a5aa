// A short day at a trial screen, on both kinds of store: what each call answers, in words.
#![tactic(auto)]

use domains::domain::Domain;
use std::{fmt, io};
use stores::bit_store::BitStore;
use stores::bounds_store::BoundsStore;
use stores::store::Store;
use trials::trial_store::TrialStore;

// A call, in words.
#[derive(Clone, Copy)]
enum Call {
    LayOut { cells: usize, width: usize },
    Write { cell: usize, mask: u64 },
    Open,
    Undo { trial: u32 },
    Keep { trial: u32 },
}

impl fmt::Display for Call {
    fn fmt<W: fmt::Write>(&self, f: &mut fmt::Formatter<W>) -> fmt::Result {
        match *self {
            Call::LayOut { cells, width } => write!(f, "lay out {cells} cells, {width} ranks"),
            Call::Write { cell, mask } => write!(f, "write {mask} to cell {cell}"),
            Call::Open => f.write_str("open"),
            Call::Undo { trial } => write!(f, "undo trial {trial}"),
            Call::Keep { trial } => write!(f, "keep trial {trial}"),
        }
    }
}

// What a call answered, on one line with it: in its own words where it was accepted, and else the number of the refusal.
fn tell<T, E: Into<u8>, F: FnOnce(T) -> io::Result<()>>(
    rt: &HostRuntime,
    call: Call,
    answer: Result<T, E>,
    accepted: F,
) -> io::Result<()>
    requires { F.IsAlwaysCallable accepted }
{
    match answer {
        Ok(value) => accepted(value),
        Err(fault) => {
            let number: u8 = fault.into();
            println!(rt; "{call}: refused, {number}")
        }
    }
}

fn lay_out<S: Store>(
    rt: &HostRuntime,
    store: &mut S,
    cells: usize,
    width: usize,
) -> io::Result<()> {
    let call = Call::LayOut { cells, width };
    tell(
        rt,
        call,
        store.lay_out(cells, width),
        |()| println!(rt; "{call}: done"),
    )
}

fn write<S: Store>(rt: &HostRuntime, store: &mut S, cell: usize, mask: u64) -> io::Result<()> {
    let Some(part) = Domain::new(mask) else {
        return println!(rt; "{mask} is no set");
    };
    let call = Call::Write { cell, mask };
    tell(
        rt,
        call,
        store.write(cell, part),
        |()| println!(rt; "{call}: done"),
    )
}

fn open<S: Store>(rt: &HostRuntime, store: &mut TrialStore<S>) -> io::Result<()> {
    let call = Call::Open;
    tell(
        rt,
        call,
        store.open(),
        |number| println!(rt; "{call}: trial {number}"),
    )
}

fn undo<S: Store>(rt: &HostRuntime, store: &mut TrialStore<S>, trial: u32) -> io::Result<()> {
    end(rt, Call::Undo { trial }, store.undo(trial))
}

fn keep<S: Store>(rt: &HostRuntime, store: &mut TrialStore<S>, trial: u32) -> io::Result<()> {
    end(rt, Call::Keep { trial }, store.keep(trial))
}

// Tells of a call that ends trials.
fn end<E: Into<u8> + Drop>(
    rt: &HostRuntime,
    call: Call,
    answer: Result<usize, E>,
) -> io::Result<()> {
    tell(
        rt,
        call,
        answer,
        |left| println!(rt; "{call}: done, {left} open"),
    )
}

// The sets of the cells, each as its ranks.
fn show<S: Store>(rt: &HostRuntime, store: &S) -> io::Result<()> {
    let cells = 0..store.size().cells;
    for (cell, part) in cells.filter_map(|cell| Some((cell, store.read(cell)?))) {
        show_cell(rt, cell, part)?;
    }
    Ok(())
}

fn show_cell(rt: &HostRuntime, cell: usize, part: Domain) -> io::Result<()> {
    print!(rt; "  cell {cell} has ranks")?;
    for rank in (0..48).filter(|&rank| part.contains(rank)) {
        print!(rt; " {rank}")?;
    }
    println!(rt; "")
}

fn morning<S: Store>(rt: &HostRuntime, store: &mut TrialStore<S>) -> io::Result<()> {
    lay_out(rt, store, 0, 3)?;
    lay_out(rt, store, 2, 3)?;
    write(rt, store, 0, 5)?;
    open(rt, store)?;
    write(rt, store, 0, 3)?;
    open(rt, store)?;
    write(rt, store, 1, 4)?;
    show(rt, store)?;
    undo(rt, store, 1)?;
    show(rt, store)
}

fn afternoon<S: Store>(rt: &HostRuntime, store: &mut TrialStore<S>) -> io::Result<()> {
    keep(rt, store, 2)?;
    open(rt, store)?;
    write(rt, store, 1, 6)?;
    keep(rt, store, 3)?;
    write(rt, store, 7, 1)?;
    write(rt, store, 0, 8)?;
    undo(rt, store, 3)?;
    show(rt, store)
}

fn day<S: Store + Drop>(rt: &HostRuntime, below: S) -> io::Result<()> {
    let mut store = TrialStore::new(below);
    morning(rt, &mut store)?;
    afternoon(rt, &mut store)
}

fn main(rt: HostRuntime) -> io::Result<()> {
    println!(rt; "A store of bits")?;
    day(&rt, BitStore::new())?;
    println!(rt; "A store of bounds")?;
    day(&rt, BoundsStore::new())
}
