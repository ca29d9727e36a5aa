// Reads a whole file, to say how many orders it has and where it stops.
ghost use Rattle.orders.specs.Surveyed.{Surveyed};

use super::kinds::OrderFault;
use super::reading::Reader;

// How many orders a file has before it stops, and where that is: the place of the end, or a fault.
#[derive(Clone, Copy, PartialEq, Eq, Debug)]
pub struct Survey {
    pub orders: usize,
    pub stop: Result<usize, OrderFault>,
}

impl Survey {
    // Reads the file from its start, order by order.
    pub fn of(file: &[u8]) -> Survey
        ensures { Surveyed file.now result }
    {
        let mut reader = Reader::new(file);
        let mut orders = 0;
        let stop = loop {
            match reader.next() {
                Ok(Some(_)) => orders += 1,
                Ok(None) => break Ok(reader.place()),
                Err(fault) => break Err(fault),
            }
        };
        Survey { orders, stop }
    }
}
