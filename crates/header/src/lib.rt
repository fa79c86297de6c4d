// The header of a .shp or .shx file: 100 bytes, read and written.
#![tactic(auto)]

ghost use Rattle.std.specs.Prelude.{◌≡◌};
ghost use Rattle.header.specs.declared.HeaderError.TheVariants.{Short, Unknown};
ghost use Rattle.header.specs.Reading.{said, header_of};
ghost use Rattle.header.specs.Writing.{bytes_of, WritesHeader};

use bbox::BBoxZ;
use fields::checked;
use format::kinds::UnknownKind;
use format::shapes::Short;
use format::units::Words;

pub mod bbox;
pub mod entries;

#[repr(C)]
#[derive(Clone, Copy, Default)]
pub struct Header {
    pub file_length: Words,
    pub version: i32,
    pub shape_type: i32,
    pub bbox: BBoxZ,
}

// Why there is no header: the field that the bytes end inside, the code of another file, the place of a negative length, or a kind's code that the
// table does not have.
#[derive(Clone, Copy, Debug, PartialEq, Eq)]
pub enum HeaderError {
    Short(Short),
    Code(i32),
    Size(usize),
    Unknown(i32),
}

impl From<Short> for HeaderError {
    ghost from_gives = { λ e r. r ≡ Short e };

    fn from(e: Short) -> HeaderError {
        HeaderError::Short(e)
    }
}

impl From<UnknownKind> for HeaderError {
    ghost from_gives = { λ e r. r ≡ Unknown e.0 };

    fn from(e: UnknownKind) -> HeaderError {
        HeaderError::Unknown(e.0)
    }
}

// The code that a header begins with.
const FILE_CODE: i32 = 9994;

pub fn read_header(s: &[u8]) -> Result<Header, HeaderError>
    ensures { said result ≡ header_of s.now }
{
    let code = checked::be_i32(s, 0)?;
    if code != FILE_CODE {
        return Err(HeaderError::Code(code));
    }
    // twenty bytes that nothing uses are one field
    checked::whole(s, 4, 20)?;
    let words = checked::be_i32(s, 24)?;
    if words < 0 {
        return Err(HeaderError::Size(24));
    }
    let version = checked::le_i32(s, 28)?;
    let shape_type = checked::le_i32(s, 32)?;
    format::kinds::find_kind(shape_type)?;
    let bbox = bbox::read_box(s, 36)?;
    Ok(Header {
        file_length: Words(words),
        version,
        shape_type,
        bbox,
    })
}

// The bytes of a header of any kind.
fn whole_bytes(h: Header) -> [u8; 100]
    ensures { result ≡ bytes_of h }
{
    let mut out = [0u8; 100];
    fields::put_be_i32(&mut out, 0, FILE_CODE);
    fields::put_be_i32(&mut out, 24, h.file_length.0);
    fields::put_le_i32(&mut out, 28, h.version);
    fields::put_le_i32(&mut out, 32, h.shape_type);
    bbox::put_box(&mut out, 36, h.bbox);
    out
}

pub fn header_bytes(h: Header) -> Result<[u8; 100], UnknownKind>
    ensures { WritesHeader h result }
{
    format::kinds::find_kind(h.shape_type)?;
    Ok(whole_bytes(h))
}
