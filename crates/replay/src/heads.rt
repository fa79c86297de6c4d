// Parts 1 to 5 and 10: file headers, record headers, index entries, part arithmetic, and the lesser and the greater of two doubles.
use crate::cases::Case;
use format::kinds::UnknownKind;
use format::shapes::Short;
use format::units::Words;
use header::entries::{self, RecordHeader, ShapeIndex};
use header::{Header, HeaderError};

pub fn header_read(case: Case<'_>) -> bool {
    let seen = case.seen();
    match header::read_header(case.input) {
        Ok(h) => seen
            .byte(0)
            .int(h.file_length.0)
            .int(h.version)
            .int(h.shape_type)
            .bounds(h.bbox)
            .is_whole(),
        Err(HeaderError::Short(Short { at, .. })) => seen.is_refusal_at(1, at),
        Err(HeaderError::Code(code)) => seen.is_refusal_of(2, code),
        Err(HeaderError::Size(at)) => seen.is_refusal_at(3, at),
        Err(HeaderError::Unknown(code)) => seen.is_refusal_of(4, code),
    }
}

pub fn header_written(case: Case<'_>) -> bool {
    let mut given = case.given();
    let seen = case.seen();
    let written = header::header_bytes(Header {
        file_length: Words(given.int()),
        version: given.int(),
        shape_type: given.int(),
        bbox: given.bounds(),
    });
    match written {
        Ok(bytes) => seen.bytes(&bytes).is_whole(),
        Err(UnknownKind(code)) => seen.is_refusal_of(4, code),
    }
}

pub fn record_header_read(case: Case<'_>) -> bool {
    let seen = case.seen();
    match entries::read_record_header(case.input) {
        Ok(h) => seen
            .byte(0)
            .int(h.record_number)
            .int(h.content_length.0)
            .is_whole(),
        Err(short) => seen.is_refusal_at(1, short.at),
    }
}

// The bytes of both; and the library reads the crate's entry as the numbers that it was written from.
pub fn entries_written(case: Case<'_>) -> bool {
    let mut given = case.given();
    let (a, b) = (given.int(), given.int());
    let record = RecordHeader {
        record_number: a,
        content_length: Words(b),
    };
    let entry = ShapeIndex {
        offset: Words(a),
        content_length: Words(b),
    };
    case.seen()
        .bytes(&entries::record_header_bytes(record))
        .bytes(&entries::index_entry_bytes(entry))
        .is_whole()
        && is_read_as(case.expected, entry)
}

fn is_read_as(expected: &[u8], entry: ShapeIndex) -> bool {
    expected
        .get(8..)
        .is_some_and(|bytes| entries::read_index_entry(bytes) == Ok(entry))
}

pub fn part_counted(case: Case<'_>) -> bool {
    let mut given = case.given();
    let seen = case.seen();
    match multipart::part_count(given.int(), given.int()) {
        Some(n) => seen.byte(0).word(n).is_whole(),
        None => seen.byte(3).is_whole(),
    }
}

pub fn lesser_and_greater(case: Case<'_>) -> bool {
    let mut given = case.given();
    let (a, b) = (given.double(), given.double());
    case.seen()
        .double(boxes::f64_min(a, b))
        .double(boxes::f64_max(a, b))
        .is_whole()
}
