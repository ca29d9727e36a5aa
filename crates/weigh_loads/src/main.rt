// Weighs two loads that standard input holds as text, and prints one line with the answer.
#![tactic(auto)]

use inputs::read_into;
use load_text::reading::parse;
use load_text::words::reply;
use std::io;

// One byte more than the longest text, so that a longer one is seen to be longer.
const ROOM: usize = 65537;

fn main(rt: HostRuntime) -> io::Result<()> {
    let mut room = [0u8; ROOM];
    let text = read_into(&mut rt.stdin(), &mut room)?;
    let loads = parse(rt.alloc(), text);
    rt.println(reply(rt.alloc(), loads)?)
}
