// Headers, record headers and index entries, read.
ghost use Rattle.std.specs.Prelude.{◌≡◌, Err};
ghost use Rattle.header.specs.Reading.{said, header_of};
ghost use Rattle.header.specs.Entries.{two_of, record_header, shape_index, said_record, said_entry};
ghost use Rattle.export.specs.Headers.{header_read, record_header_read, index_entry_read};
ghost use Rattle.export.specs.Refusals.{refusal_of};

use crate::refusals;
use crate::refusals::Refusal;
use format::shapes::Short;
use header::entries::{RecordHeader, ShapeIndex};
use header::{Header, HeaderError};

#[repr(C)]
#[derive(Clone, Copy)]
pub struct HeaderRead {
    pub refusal: Refusal,
    pub header: Header,
}

#[repr(C)]
#[derive(Clone, Copy)]
pub struct RecordHeaderRead {
    pub refusal: Refusal,
    pub header: RecordHeader,
}

#[repr(C)]
#[derive(Clone, Copy)]
pub struct IndexEntryRead {
    pub refusal: Refusal,
    pub entry: ShapeIndex,
}

impl From<HeaderError> for Refusal {
    ghost from_gives = { λ e r. r ≡ refusal_of (said (Err e)) };

    fn from(e: HeaderError) -> Refusal {
        match e {
            HeaderError::Short(short) => Refusal::from(short),
            HeaderError::Code(code) => Refusal::with_codes(refusals::CODE, code, 0),
            HeaderError::Size(at) => Refusal::with_numbers(refusals::SIZE, at, 0),
            HeaderError::Unknown(code) => Refusal::with_codes(refusals::UNKNOWN, code, 0),
        }
    }
}

// C needs a struct with a name for each call, so each answer has its own conversion. What is not answered is zeros.
impl From<Result<Header, HeaderError>> for HeaderRead {
    ghost from_gives = { λ a r. r ≡ header_read (said a) };

    fn from(a: Result<Header, HeaderError>) -> HeaderRead {
        match a {
            Ok(header) => HeaderRead {
                refusal: Refusal::NONE,
                header,
            },
            Err(e) => HeaderRead {
                refusal: Refusal::from(e),
                header: Header::default(),
            },
        }
    }
}

impl From<Result<RecordHeader, Short>> for RecordHeaderRead {
    ghost from_gives = { λ a r. r ≡ record_header_read (said_record a) };

    fn from(a: Result<RecordHeader, Short>) -> RecordHeaderRead {
        match a {
            Ok(header) => RecordHeaderRead {
                refusal: Refusal::NONE,
                header,
            },
            Err(e) => RecordHeaderRead {
                refusal: Refusal::from(e),
                header: RecordHeader::default(),
            },
        }
    }
}

impl From<Result<ShapeIndex, Short>> for IndexEntryRead {
    ghost from_gives = { λ a r. r ≡ index_entry_read (said_entry a) };

    fn from(a: Result<ShapeIndex, Short>) -> IndexEntryRead {
        match a {
            Ok(entry) => IndexEntryRead {
                refusal: Refusal::NONE,
                entry,
            },
            Err(e) => IndexEntryRead {
                refusal: Refusal::from(e),
                entry: ShapeIndex::default(),
            },
        }
    }
}

pub fn mbenaruul_read_header(bytes: &[u8]) -> HeaderRead
    ensures { result ≡ header_read (header_of bytes.now) }
{
    HeaderRead::from(header::read_header(bytes))
}

pub fn mbenaruul_read_record_header(bytes: &[u8]) -> RecordHeaderRead
    ensures { result ≡ record_header_read (two_of record_header bytes.now) }
{
    RecordHeaderRead::from(header::entries::read_record_header(bytes))
}

pub fn mbenaruul_read_index_entry(bytes: &[u8]) -> IndexEntryRead
    ensures { result ≡ index_entry_read (two_of shape_index bytes.now) }
{
    IndexEntryRead::from(header::entries::read_index_entry(bytes))
}
