// A record's header and an index entry: two i32 each, the high byte first.
ghost use Rattle.std.specs.Prelude.{◌≡◌, ◌++◌};
ghost use Rattle.format.specs.Numbers.{i32_be};
ghost use Rattle.header.specs.Entries.{two_of, record_header, shape_index, said_record, said_entry, record_header_bytes, index_entry_bytes};

use fields::checked;
use format::shapes::Short;
use format::units::Words;

// In front of each record: its number from 1, and how long its content is.
#[repr(C)]
#[derive(Clone, Copy, Debug, Default, PartialEq, Eq)]
pub struct RecordHeader {
    pub record_number: i32,
    pub content_length: Words,
}

// In the .shx: where the record starts, and how long its content is.
#[repr(C)]
#[derive(Clone, Copy, Debug, Default, PartialEq, Eq)]
pub struct ShapeIndex {
    pub offset: Words,
    pub content_length: Words,
}

pub fn read_record_header(s: &[u8]) -> Result<RecordHeader, Short>
    ensures { said_record result ≡ two_of record_header s.now }
{
    Ok(RecordHeader {
        record_number: checked::be_i32(s, 0)?,
        content_length: Words(checked::be_i32(s, 4)?),
    })
}

pub fn read_index_entry(s: &[u8]) -> Result<ShapeIndex, Short>
    ensures { said_entry result ≡ two_of shape_index s.now }
{
    Ok(ShapeIndex {
        offset: Words(checked::be_i32(s, 0)?),
        content_length: Words(checked::be_i32(s, 4)?),
    })
}

fn two_bytes(a: i32, b: i32) -> [u8; 8]
    ensures { result ≡ i32_be a ++ i32_be b }
{
    let mut out = [0u8; 8];
    fields::put_be_i32(&mut out, 0, a);
    fields::put_be_i32(&mut out, 4, b);
    out
}

pub fn record_header_bytes(h: RecordHeader) -> [u8; 8]
    ensures { result ≡ record_header_bytes h }
{
    two_bytes(h.record_number, h.content_length.0)
}

pub fn index_entry_bytes(e: ShapeIndex) -> [u8; 8]
    ensures { result ≡ index_entry_bytes e }
{
    two_bytes(e.offset.0, e.content_length.0)
}
