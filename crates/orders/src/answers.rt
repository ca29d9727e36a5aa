// The records that answer a file of orders: eight bytes for each order, and eight to close.
ghost use Rattle.std.specs.Prelude.{◌≡◌, ◌∷◌, Some, codes};
ghost use Rattle.orders.specs.Answers.{reply, replied, reply_bytes, reply_of, closing_bytes, Fills};
ghost use Rattle.orders.specs.Marks.{in_six};

use super::values::Answer;
use std::error::Error;
use std::fmt;

// The two bytes of each mark.
const DONE: (u8, u8) = (b'O', b'K');

const REFUSED: (u8, u8) = (b'N', b'O');

const CLOSING: (u8, u8) = (b'E', b'N');

// What an order was answered: carried out, with its answer, or refused with a number.
// Kept as an enum: a `Result<Answer, u8>` could have no methods `write` and `read` of its own.
#[derive(Clone, Copy, PartialEq, Eq, Debug)]
pub enum AnswerRecord {
    Done { answer: Answer },
    Refused { number: u8 },
}

// How a play ended: 0 or the number that stopped it, and its place in the file.
// The number is what stands in the record, and no `Option`, since the format gives 0 its meaning.
#[derive(Clone, Copy, PartialEq, Eq, Debug)]
pub struct ClosingRecord {
    pub number: u16,
    pub place: u32,
}

// A record fills a part of eight bytes, and the part that was lent has another length.
#[derive(Clone, Copy, PartialEq, Eq, Debug)]
pub struct NotEightBytes;

impl fmt::Display for NotEightBytes {
    ghost output = { λ _. Some (codes "a record fills eight bytes") };

    fn fmt<W: fmt::Write>(&self, f: &mut fmt::Formatter<W>) -> fmt::Result {
        f.write_str("a record fills eight bytes")
    }
}

impl Error for NotEightBytes {}

// A mark, and the low six bytes of a number.
fn six_bytes(mark: (u8, u8), value: u64) -> [u8; 8]
    ensures { result ≡ mark.0 ∷ mark.1 ∷ in_six value }
{
    let (first, second) = mark;
    let [_, _, a, b, c, d, e, f] = value.to_be_bytes();
    [first, second, a, b, c, d, e, f]
}

impl From<AnswerRecord> for [u8; 8] {
    ghost from_gives = { λ answered bytes. bytes ≡ reply_bytes (reply answered) };

    fn from(answered: AnswerRecord) -> [u8; 8] {
        match answered {
            AnswerRecord::Done { answer } => six_bytes(DONE, answer.value()),
            AnswerRecord::Refused { number } => six_bytes(REFUSED, u64::from(number)),
        }
    }
}

impl From<ClosingRecord> for [u8; 8] {
    ghost from_gives = { λ closing bytes. bytes ≡ closing_bytes closing.number closing.place };

    fn from(closing: ClosingRecord) -> [u8; 8] {
        let (first, second) = CLOSING;
        let [a, b] = closing.number.to_be_bytes();
        let [c, d, e, f] = closing.place.to_be_bytes();
        [first, second, a, b, c, d, e, f]
    }
}

// Puts a record's bytes into a part, and leaves one of another length as it is. Both records have a `write` of their own over it, and
// share no trait, so that callers import none.
fn fill(part: &mut [u8], bytes: [u8; 8]) -> Result<(), NotEightBytes>
    ensures { Fills bytes result part.old part.new }
{
    if part.len() != 8 {
        return Err(NotEightBytes);
    }
    part.copy_from_slice(&bytes);
    Ok(())
}

impl AnswerRecord {
    // Fills the part that it is lent, if that has eight bytes.
    pub fn write(self, part: &mut [u8]) -> Result<(), NotEightBytes>
        ensures { Fills (reply_bytes (reply self)) result part.old part.new }
    {
        fill(part, self.into())
    }

    // What eight bytes answer; `None` if they are no answer record.
    pub fn read(part: &[u8]) -> Option<AnswerRecord>
        ensures { replied result ≡ reply_of part.now }
    {
        let [first, second, a, b, c, d, e, f] = *part.as_array::<8>()?;
        let value = u64::from_be_bytes([0, 0, a, b, c, d, e, f]);
        match (first, second) {
            DONE => {
                let answer = Answer::new(value)?;
                Some(AnswerRecord::Done { answer })
            }
            REFUSED => {
                let number = u8::try_from(value).ok()?;
                Some(AnswerRecord::Refused { number })
            }
            _ => None,
        }
    }
}

impl ClosingRecord {
    // Fills the part that it is lent, if that has eight bytes.
    pub fn write(self, part: &mut [u8]) -> Result<(), NotEightBytes>
        ensures { Fills (closing_bytes self.number self.place) result part.old part.new }
    {
        fill(part, self.into())
    }
}
