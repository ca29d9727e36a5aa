// Lists the orders of a file in words, for whoever reads them out to a caller.
#![tactic(auto)]

use inputs::read_into;
use order_text::listing::{LONGEST, listing};
use std::io;

// One byte more than the longest file, so that a longer one is seen to be longer.
const ROOM: usize = LONGEST + 1;

fn main(rt: HostRuntime) -> io::Result<()> {
    let mut room = [0u8; ROOM];
    let file = read_into(&mut rt.stdin(), &mut room)?;
    rt.println(listing(rt.alloc(), file)?)
}
