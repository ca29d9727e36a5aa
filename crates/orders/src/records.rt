// Takes one record apart: two bytes of mark, the fields of its kind, and the rest.
ghost use Rattle.std.specs.Prelude.{◌≡◌, ◌<◌, length, if◌then◌else◌, Some, None, nat_lt};
ghost use Rattle.orders.specs.Marks.{four};
ghost use Rattle.orders.specs.Parse.{fields, parsed_mark, parsed, lay_out_of, limit_of, post_of, read_of, marked, record_of};

use super::kinds::Order;

// The two bytes of each mark.
const LAY_OUT: (u8, u8) = (b'L', b'O');

const LIMIT: (u8, u8) = (b'L', b'I');

const POST: (u8, u8) = (b'P', b'R');

const OPEN: (u8, u8) = (b'O', b'T');

const UNDO: (u8, u8) = (b'U', b'T');

const KEEP: (u8, u8) = (b'K', b'T');

const READ: (u8, u8) = (b'R', b'D');

// An order, and how many bytes its record has, with the mark.
#[derive(Clone, Copy)]
pub(super) struct Record<'a> {
    pub(super) order: Order<'a>,
    pub(super) length: usize,
}

// Why no record can be read: fewer bytes than it asks for, or two bytes that are no mark.
#[derive(Clone, Copy)]
pub(super) enum RecordFault {
    Cut,
    Unknown,
}

// In each of these, `rest` is what stands after the mark, and `None` is a record cut short.
fn lay_out(rest: &[u8]) -> Option<Record<'_>>
    ensures { fields result ≡ lay_out_of rest.now }
{
    let [cells, width] = *rest.first_chunk::<2>()?;
    let order = Order::LayOut { cells, width };
    Some(Record { order, length: 4 })
}

fn limit(rest: &[u8]) -> Option<Record<'_>>
    ensures { fields result ≡ limit_of rest.now }
{
    let [cell, a, b, c, d, e, f] = *rest.first_chunk::<7>()?;
    let set = u64::from_be_bytes([0, 0, a, b, c, d, e, f]);
    let order = Order::Limit { cell, set };
    Some(Record { order, length: 9 })
}

// The two rows stand after their two counts.
fn post(rest: &[u8]) -> Option<Record<'_>>
    ensures { fields result ≡ post_of rest.now }
{
    let ([lefts, rights], cells) = rest.split_first_chunk::<2>()?;
    let (lefts, rights) = (usize::from(*lefts), usize::from(*rights));
    let (left, others) = cells.split_at_checked(lefts)?;
    let (right, _) = others.split_at_checked(rights)?;
    let order = Order::Post { left, right };
    let length = 4 + lefts + rights;
    Some(Record { order, length })
}

// The four bytes of a trial's number.
fn trial(rest: &[u8]) -> Option<u32>
    ensures { result ≡ (if nat_lt (length rest.now) 4 then None else Some (four rest.now)) }
{
    Some(u32::from_be_bytes(*rest.first_chunk()?))
}

fn read(rest: &[u8]) -> Option<Record<'_>>
    ensures { fields result ≡ read_of rest.now }
{
    let cell = *rest.first()?;
    let order = Order::Read { cell };
    Some(Record { order, length: 3 })
}

// The record that has the mark, and whose other bytes are the first of `rest`.
fn after_mark(mark: (u8, u8), rest: &[u8]) -> Result<Record<'_>, RecordFault>
    ensures { parsed_mark result ≡ marked mark.0 mark.1 rest.now }
{
    let record = match mark {
        LAY_OUT => lay_out(rest),
        LIMIT => limit(rest),
        POST => post(rest),
        OPEN => Some(Record {
            order: Order::Open,
            length: 2,
        }),
        UNDO => trial(rest).map(|trial| Record {
            order: Order::Undo { trial },
            length: 6,
        }),
        KEEP => trial(rest).map(|trial| Record {
            order: Order::Keep { trial },
            length: 6,
        }),
        READ => read(rest),
        _ => return Err(RecordFault::Unknown),
    };
    record.ok_or(RecordFault::Cut)
}

// The record that the first of the bytes are; `None` if there is no byte.
pub(super) fn first_record(bytes: &[u8]) -> Result<Option<Record<'_>>, RecordFault>
    ensures { parsed result ≡ record_of bytes.now }
{
    match bytes {
        [] => Ok(None),
        [_] => Err(RecordFault::Cut),
        [first, second, rest @ ..] => Ok(Some(after_mark((*first, *second), rest)?)),
    }
}
