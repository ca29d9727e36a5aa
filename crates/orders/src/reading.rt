// A reader that goes through a lent file, record by record.
ghost use Rattle.std.specs.Prelude.{◌≡◌, ◌≤◌, length};
ghost use Rattle.orders.specs.Parse.{parse, parsed, told, next_of, place_after};
ghost use Rattle.orders.specs.Within.{Within};

use super::kinds::{Order, OrderFault};
use super::records::{Record, RecordFault, first_record};

// Stands at a place of the file, where the next record begins.
#[derive(Debug, Drop)]
pub struct Reader<'a> {
    file: &'a [u8],
    place: usize,
    ghost within: { place ≤ length file.now },
}

impl<'a> Reader<'a> {
    // Stands at the start of the file.
    pub fn new(file: &'a [u8]) -> Reader<'a>
        ensures file { result.file.now ≡ file.now }
        ensures place { result.place ≡ 0 }
    {
        Reader { file, place: 0 }
    }

    // Where the next record begins, or the last fault's mark stands.
    pub fn place(&self) -> usize
        ensures { result ≡ self.now.place }
    {
        let Reader { place, .. } = self;
        *place
    }

    // What stands at the reader's place; a whole record ends within the file.
    #[tactic(auto, using(std::proofs::lemmas::List::take_rest, crate::proofs::Ends::here), unfolding(crate::specs::Parse::parse))]
    fn here(&self) -> Result<Option<Record<'a>>, RecordFault>
        ensures stands { parsed result ≡ parse self.now.file.now self.now.place }
        ensures within { Within self.now.place (length self.now.file.now) (parsed result) }
    {
        let file: &'a [u8] = self.file;
        first_record(&file[self.place..])
    }

    // The next order, or `None` at the end of the file. At a fault the reader stays where the mark is.
    pub fn next(&mut self) -> Result<Option<Order<'a>>, OrderFault>
        ensures order { told result ≡ next_of self.old.file.now self.old.place }
        ensures place { self.new.place ≡ place_after self.old.file.now self.old.place }
        ensures file { self.new.file.now ≡ self.old.file.now }
    {
        let place = self.place;
        let record = self.here().map_err(|fault| match fault {
            RecordFault::Cut => OrderFault::CutShort { place },
            RecordFault::Unknown => OrderFault::UnknownMark { place },
        })?;
        let Some(Record { order, length }) = record else {
            return Ok(None);
        };
        self.place = place + length;
        Ok(Some(order))
    }
}
