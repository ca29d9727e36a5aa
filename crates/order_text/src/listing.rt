// The listing of a file.
ghost use Rattle.std.specs.Prelude.{◌≡◌, ◌<◌, ◌≤◌, length, Some, IfOk, string_bytes};
ghost use Rattle.order_text.specs.Listing.{closing, ending, Lines, Listed};

use crate::words::Line;
use orders::{Reader, Survey};
use std::alloc::{AllocError, Global};
use std::fmt;

// A longer file is not played.
pub const LONGEST: usize = 8192;

// A line for each order, up to the end of the file or a fault. Here and below the heap comes with the file, as std's own functions take it.
fn lines(heap: Global, file: &[u8]) -> Result<String, AllocError>
    ensures { IfOk result (λ s. Lines file.now (string_bytes s)) }
{
    let mut reader = Reader::new(file);
    let mut text = String::new(heap);
    loop {
        let place = reader.place();
        match reader.next() {
            Ok(Some(order)) => writeln!(text, "{}", Line { place, order })?,
            Ok(None) => return Ok(text),
            Err(_) => return Ok(text),
        }
    }
}

// The closing line: where reading stopped, what is there, and how many orders came before it.
#[derive(Clone, Copy)]
struct Closing(Survey);

impl fmt::Display for Closing {
    ghost output = { λ last. Some (closing (ending last.0.stop) last.0.orders) };

    fn fmt<W: fmt::Write>(&self, f: &mut fmt::Formatter<W>) -> fmt::Result {
        let Survey { orders, stop } = self.0;
        match stop {
            Ok(place) => write!(f, "at {place}: end of the file; orders: {orders}"),
            Err(fault) => {
                let place = fault.place();
                write!(f, "at {place}: {fault}; orders: {orders}")
            }
        }
    }
}

// The lines of the orders, and the closing line.
fn whole(heap: Global, file: &[u8]) -> Result<String, AllocError>
    requires { length file.now ≤ 8192 }
    ensures { IfOk result (λ s. Listed file.now (string_bytes s)) }
{
    let mut text = lines(heap, file)?;
    write!(text, "{}", Closing(Survey::of(file)))?;
    Ok(text)
}

// The whole listing. A file that is too long is not read, since playing it would not read it either.
pub fn listing(heap: Global, file: &[u8]) -> Result<String, AllocError>
    ensures { IfOk result (λ s. Listed file.now (string_bytes s)) }
{
    if file.len() > LONGEST {
        return String::from_str(
            heap,
            "at 0: over 8192 bytes; playing this file would answer 13",
        );
    }
    whole(heap, file)
}
