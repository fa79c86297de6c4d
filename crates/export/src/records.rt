// A record read from its content, into lent stores.
ghost use Rattle.std.specs.Prelude.{◌≡◌, Err};
ghost use Rattle.record.specs.Reading.{null_shape, said_record};
ghost use Rattle.export.specs.Records.{shape_read, record_read, Reads};
ghost use Rattle.export.specs.Refusals.{not_refused, refusal_of};

use crate::refusals;
use crate::refusals::Refusal;
use format::units::Bytes;
use multipart::Body;
use record::{Point, Record, RecordError};

// As C reads it: the form is 0 for Null, 1 for a point, 2 for a shape with parts and 3 for a multipoint; has_m is 1 where one of the last two has m.
#[repr(C)]
#[derive(Clone, Copy)]
pub struct RecordRead {
    pub refusal: Refusal,
    pub code: i32,
    pub form: u32,
    pub has_m: u32,
    pub point: Point,
    pub body: Body,
}

impl From<RecordError> for Refusal {
    ghost from_gives = { λ e r. r ≡ refusal_of (said_record (Err e)) };

    fn from(e: RecordError) -> Refusal {
        match e {
            RecordError::Short(short) => Refusal::from(short),
            RecordError::Size(at) => Refusal::with_numbers(refusals::SIZE, at, 0),
            RecordError::Unknown(code) => Refusal::with_codes(refusals::UNKNOWN, code, 0),
            RecordError::Mismatch { wanted, found } => Refusal::with_codes(
                refusals::MISMATCH,
                wanted,
                found,
            ),
            RecordError::Room { parts, points } => Refusal::with_numbers(
                refusals::ROOM,
                parts,
                points,
            ),
            RecordError::NotTaken(code) => Refusal::with_codes(refusals::NOT_TAKEN, code, 0),
        }
    }
}

// A Null record has no values, and neither has a refusal.
fn no_shape(refusal: Refusal) -> RecordRead
    ensures { result ≡ shape_read refusal null_shape }
{
    RecordRead {
        refusal,
        code: 0,
        form: 0,
        has_m: 0,
        point: Point::default(),
        body: Body::default(),
    }
}

impl From<Result<Record, RecordError>> for RecordRead {
    ghost from_gives = { λ a r. r ≡ record_read (said_record a) };

    fn from(a: Result<Record, RecordError>) -> RecordRead {
        match a {
            Ok(Record::Null) => no_shape(Refusal::NONE),
            Ok(Record::Point(code, point)) => RecordRead {
                code,
                form: 1,
                point,
                ..no_shape(Refusal::NONE)
            },
            Ok(Record::Multipoint(code, m, body)) => RecordRead {
                code,
                form: 3,
                has_m: u32::from(m),
                body,
                ..no_shape(Refusal::NONE)
            },
            Ok(Record::Parts(code, m, body)) => RecordRead {
                code,
                form: 2,
                has_m: u32::from(m),
                body,
                ..no_shape(Refusal::NONE)
            },
            Err(e) => no_shape(Refusal::from(e)),
        }
    }
}

// Any kind that is taken.
pub fn mbenaruul_read_record(
    content: &[u8],
    size: i64,
    counts: &mut [u32],
    x: &mut [f64],
    y: &mut [f64],
    z: &mut [f64],
    m: &mut [f64],
) -> RecordRead
    ensures { Reads None size content.now counts.old x.old y.old z.old m.old result counts.new x.new y.new z.new m.new }
{
    RecordRead::from(record::read_record(content, Bytes(size), None, counts, x, y, z, m))
}

// One kind only.
pub fn mbenaruul_read_record_of(
    wanted: i32,
    content: &[u8],
    size: i64,
    counts: &mut [u32],
    x: &mut [f64],
    y: &mut [f64],
    z: &mut [f64],
    m: &mut [f64],
) -> RecordRead
    ensures { Reads (Some wanted) size content.now counts.old x.old y.old z.old m.old result counts.new x.new y.new z.new m.new }
{
    RecordRead::from(record::read_record(content, Bytes(size), Some(wanted), counts, x, y, z, m))
}
