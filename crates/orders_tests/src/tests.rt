use orders::{
    Answer, AnswerRecord, ClosingRecord, NotEightBytes, Order, OrderFault, Reader, Survey,
};
use std::process::Abort;
use std::test::Fail;

// What `next` gives.
type Next<'a> = Result<Option<Order<'a>>, OrderFault>;

const CUT_SHORT: OrderFault = OrderFault::CutShort { place: 0 };

const UNKNOWN_MARK: OrderFault = OrderFault::UnknownMark { place: 0 };

// The first record of a file reads so, and the reader then stands at `place`.
fn reads(rt: &impl Abort, file: &[u8], next: Next<'_>, place: usize) {
    let mut reader = Reader::new(file);
    assert_eq!(rt; reader.next(), next);
    assert_eq!(rt; reader.place(), place);
}

// A record that is whole, read whole and cut at every length.
fn reads_whole_and_cut(rt: &impl Abort, record: &[u8], order: Order<'_>) {
    reads(rt, record, Ok(Some(order)), record.len());
    // by length: there is no iterator over the fronts of a slice
    for length in 1..record.len() {
        reads(rt, &record[0..length], Err(CUT_SHORT), 0);
    }
}

#[test]
fn every_kind_whole_and_cut(rt: HostRuntime) {
    let lay_out = Order::LayOut { cells: 2, width: 3 };
    reads_whole_and_cut(&rt, b"LO\x02\x03", lay_out);
    let limit = Order::Limit { cell: 0, set: 6 };
    reads_whole_and_cut(&rt, b"LI\x00\x00\x00\x00\x00\x00\x06", limit);
    let large = Order::Limit {
        cell: 255,
        set: 1108152157446,
    };
    reads_whole_and_cut(&rt, b"LI\xff\x01\x02\x03\x04\x05\x06", large);
    let post = Order::Post {
        left: &[0, 3],
        right: &[5],
    };
    reads_whole_and_cut(&rt, b"PR\x02\x01\x00\x03\x05", post);
    let empty = Order::Post {
        left: &[],
        right: &[],
    };
    reads_whole_and_cut(&rt, b"PR\x00\x00", empty);
    reads_whole_and_cut(&rt, b"OT", Order::Open);
    reads_whole_and_cut(&rt, b"UT\x00\x00\x00\x01", Order::Undo { trial: 1 });
    let keep = Order::Keep { trial: 16909060 };
    reads_whole_and_cut(&rt, b"KT\x01\x02\x03\x04", keep);
    reads_whole_and_cut(&rt, b"RD\xff", Order::Read { cell: 255 });
}

#[test]
fn marks_lone_bytes_and_the_end(rt: HostRuntime) {
    reads(&rt, b"", Ok(None), 0);
    reads(&rt, b"L", Err(CUT_SHORT), 0);
    reads(&rt, b"X", Err(CUT_SHORT), 0);
    reads(&rt, b"XX", Err(UNKNOWN_MARK), 0);
    reads(&rt, b"lo\x02\x03", Err(UNKNOWN_MARK), 0);
    reads(&rt, b"OL", Err(UNKNOWN_MARK), 0);
    reads(&rt, b"LX", Err(UNKNOWN_MARK), 0);
    reads(&rt, b"XO", Err(UNKNOWN_MARK), 0);
    let answer = b"OK\x00\x00\x00\x00\x00\x00";
    reads(&rt, answer, Err(UNKNOWN_MARK), 0);
    reads(&rt, b"OTX", Ok(Some(Order::Open)), 2);
}

#[test]
fn faults_have_numbers_and_words(rt: HostRuntime) -> Result<(), Fail> {
    assert_eq!(rt; u8::from(UNKNOWN_MARK), 14);
    assert_eq!(rt; u8::from(CUT_SHORT), 15);
    assert_eq!(rt; UNKNOWN_MARK.place(), 0);
    let heap = rt.alloc();
    let unknown = UNKNOWN_MARK.to_string(heap)?;
    assert_eq!(rt; unknown.as_str(), "fault 14, an unknown mark");
    let cut = CUT_SHORT.to_string(heap)?;
    assert_eq!(rt; cut.as_str(), "fault 15, a record cut short");
    Ok(())
}

#[test]
fn rows_are_parts_of_the_file(rt: HostRuntime) {
    let mut reader = Reader::new(b"PR\x02\x01\x07\x08\x09RD\x01");
    let post = Order::Post {
        left: &[7, 8],
        right: &[9],
    };
    assert_eq!(rt; reader.next(), Ok(Some(post)));
    assert_eq!(rt; reader.place(), 7);
    assert_eq!(rt; reader.next(), Ok(Some(Order::Read { cell: 1 })));
}

#[test]
fn the_largest_rows(rt: HostRuntime) {
    let zeros = [0u8; 255];
    let left = Order::Post {
        left: &zeros,
        right: &[],
    };
    let both = Order::Post {
        left: &zeros,
        right: &zeros,
    };
    let right = Order::Post {
        left: &[],
        right: &zeros,
    };
    let mut file = [0u8; 514];
    file[0] = b'P';
    file[1] = b'R';
    file[2] = 255;
    reads(&rt, &file, Ok(Some(left)), 259);
    reads(&rt, &file[0..259], Ok(Some(left)), 259);
    reads(&rt, &file[0..258], Err(CUT_SHORT), 0);
    file[3] = 255;
    reads(&rt, &file, Ok(Some(both)), 514);
    reads(&rt, &file[0..513], Err(CUT_SHORT), 0);
    file[2] = 0;
    reads(&rt, &file, Ok(Some(right)), 259);
}

#[test]
fn order_after_order(rt: HostRuntime) {
    let file = b"LO\x02\x03OTRD\x01XXUT\x00\x00\x00\x01";
    let unknown = OrderFault::UnknownMark { place: 9 };
    let mut reader = Reader::new(file);
    let lay_out = Order::LayOut { cells: 2, width: 3 };
    assert_eq!(rt; reader.next(), Ok(Some(lay_out)));
    assert_eq!(rt; reader.next(), Ok(Some(Order::Open)));
    assert_eq!(rt; reader.next(), Ok(Some(Order::Read { cell: 1 })));
    assert_eq!(rt; reader.next(), Err(unknown));
    assert_eq!(rt; reader.next(), Err(unknown));
    assert_eq!(rt; reader.place(), 9);
    assert_eq!(rt; (u8::from(unknown), unknown.place()), (14, 9));
    let survey = Survey {
        orders: 3,
        stop: Err(unknown),
    };
    assert_eq!(rt; Survey::of(file), survey);
}

#[test]
fn a_whole_file(rt: HostRuntime) {
    let survey = Survey {
        orders: 3,
        stop: Ok(12),
    };
    assert_eq!(rt; Survey::of(b"LO\x02\x03OTUT\x00\x00\x00\x01"), survey);
}

// The answer record of an order that was carried out.
fn carried_out(rt: &impl Abort, value: u64) -> AnswerRecord {
    let answer = Answer::new(value).expect(rt, "a number below 2^48");
    assert_eq!(rt; answer.value(), value);
    AnswerRecord::Done { answer }
}

#[test]
fn answers_in_eight_bytes(rt: HostRuntime) {
    let mut buffer = [9u8; 10];
    let done = carried_out(&rt, 6);
    assert_eq!(rt; done.write(&mut buffer[1..9]), Ok(()));
    assert!(rt; buffer == *b"\x09OK\x00\x00\x00\x00\x00\x06\x09");
    let refused = AnswerRecord::Refused { number: 12 };
    assert_eq!(rt; refused.write(&mut buffer[1..9]), Ok(()));
    assert!(rt; buffer == *b"\x09NO\x00\x00\x00\x00\x00\x0c\x09");
    let closing = ClosingRecord {
        number: 0,
        place: 36,
    };
    assert_eq!(rt; closing.write(&mut buffer[1..9]), Ok(()));
    assert!(rt; buffer == *b"\x09EN\x00\x00\x00\x00\x00\x24\x09");
    assert_eq!(rt; done.write(&mut buffer[1..8]), Err(NotEightBytes));
    assert_eq!(rt; refused.write(&mut buffer[1..10]), Err(NotEightBytes));
    assert_eq!(rt; closing.write(&mut buffer[0..0]), Err(NotEightBytes));
    assert!(rt; buffer == *b"\x09EN\x00\x00\x00\x00\x00\x24\x09");
}

#[test]
fn answers_read_back(rt: HostRuntime) {
    assert_eq!(rt; Answer::new(281474976710656), None);
    assert!(rt; Answer::new(281474976710655).is_some());
    assert_eq!(rt;
        AnswerRecord::read(b"OK\xff\xff\xff\xff\xff\xff"),
        Some(carried_out(&rt, 281474976710655))
    );
    assert_eq!(rt;
        AnswerRecord::read(b"OK\x01\x02\x03\x04\x05\x06"),
        Some(carried_out(&rt, 1108152157446))
    );
    let refused = AnswerRecord::Refused { number: 12 };
    assert_eq!(rt;
        AnswerRecord::read(b"NO\x00\x00\x00\x00\x00\x0c"),
        Some(refused)
    );
    assert_eq!(rt; AnswerRecord::read(b"NO\x00\x00\x00\x00\x01\x00"), None);
    assert_eq!(rt; AnswerRecord::read(b"EN\x00\x00\x00\x00\x00\x24"), None);
    assert_eq!(rt; AnswerRecord::read(b"OK\x00\x00\x00\x00\x00"), None);
    assert_eq!(rt; AnswerRecord::read(b"OK\x00\x00\x00\x00\x00\x00\x00"), None);
}
