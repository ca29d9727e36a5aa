// Standard input for the programs: a bounded part of it.
#![tactic(auto)]

ghost use Rattle.std.specs.Io.KnownBytes.{Consumes, IsAtEnd};
ghost use Rattle.std.specs.Prelude.{◌<◌, ◌≤◌, length, IfOk};

use std::io;
use std::io::Read;

// Reads until the input ends or the room is full. What was read, and no more, is handed back: it stands in the front of the room.
pub fn read_into<'a, R: Read>(input: &mut R, room: &'a mut [u8]) -> io::Result<&'a [u8]>
    ensures bound { IfOk result (λ front. length front.now ≤ length room.old) }
    ensures bytes { IfOk result (λ front. Consumes (R.remaining input.old) (R.remaining input.new) front.now) }
    ensures end { IfOk result (λ front. length front.now < length room.old → IsAtEnd (R.remaining input.new)) }
{
    // No method of std fills a slice as far as the input goes: `read_exact` fails at its end, and `read_to_end` wants a heap.
    let mut count = 0;
    while count < room.len() {
        match input.read(&mut room[count..])? {
            0 => break,
            more => count += more,
        }
    }
    Ok(&room[..count])
}
