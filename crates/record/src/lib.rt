// Reading a record: dispatch by kind, Null, points, and bodies of several points, as a multipoint or in parts.
#![tactic(auto)]

ghost use Rattle.std.specs.Prelude.{◌≡◌, drop};
ghost use Rattle.format.specs.Lengths.{form_of};
ghost use Rattle.record.specs.Reading.{by_form, ReadsRecord};
ghost use Rattle.record.specs.Steps.{Begins, of_kind, Reads};
ghost use Rattle.record.specs.declared.RecordError.TheVariants.{Short, Unknown};

use content::Content;
use format::kinds::UnknownKind;
use format::lengths::KindError;
use format::shapes::Short;
use format::units::Bytes;
use multipart::Body;

mod content;
mod front;
mod points;
mod several;
mod sizes;

// A point of one of the three point kinds; 0 for a z or m that its kind does not have. (A struct of C's, so no `Option`.)
#[repr(C)]
#[derive(Clone, Copy, Default)]
pub struct Point {
    pub x: f64,
    pub y: f64,
    pub z: f64,
    pub m: f64,
}

// What was read, with the kind's code; for several points also whether they have m.
#[derive(Clone, Copy)]
pub enum Record {
    Null,
    Point(i32, Point),
    Multipoint(i32, bool, Body),
    Parts(i32, bool, Body),
}

// Why nothing was read. Offsets are counted from the content's first byte.
#[derive(Clone, Copy, Debug, PartialEq, Eq)]
pub enum RecordError {
    Short(Short),
    Size(usize),
    Unknown(i32),
    Mismatch { wanted: i32, found: i32 },
    Room { parts: usize, points: usize },
    NotTaken(i32),
}

impl From<Short> for RecordError {
    ghost from_gives = { λ e r. r ≡ Short e };

    fn from(e: Short) -> RecordError {
        RecordError::Short(e)
    }
}

impl From<UnknownKind> for RecordError {
    ghost from_gives = { λ e r. r ≡ Unknown e.0 };

    fn from(e: UnknownKind) -> RecordError {
        RecordError::Unknown(e.0)
    }
}

impl From<KindError> for RecordError {
    ghost from_gives = { λ e r. r ≡ of_kind e };

    fn from(e: KindError) -> RecordError {
        match e {
            KindError::Unknown(code) => RecordError::Unknown(code),
            KindError::NotTaken(code) => RecordError::NotTaken(code),
        }
    }
}

// The shape of a taken kind.
fn read_shape(
    s: &[u8],
    content: Content,
    counts: &mut [u32],
    xs: &mut [f64],
    ys: &mut [f64],
    zs: &mut [f64],
    ms: &mut [f64],
) -> Result<Record, RecordError>
    requires { Begins s.now content.size content }
    ensures { Reads (by_form (form_of content.kind) content.kind content.size s.now) content.kind (drop 4 s.now) counts.old xs.old ys.old zs.old ms.old result counts.new xs.new ys.new zs.new ms.new }
{
    if content.kind.code == 0 {
        return Ok(Record::Null);
    }
    if format::lengths::has_several(content.kind) {
        return several::read_several(content, &s[4..], counts, xs, ys, zs, ms);
    }
    let point = points::read_point(s, content)?;
    Ok(Record::Point(content.code, point))
}

// The shape of a record, from its content and the size that its header gives. A typed read wants one kind.
// The stores stay five parameters: in a struct of five `&mut` each contract has a clause for the name of each, and is longer.
pub fn read_record(
    s: &[u8],
    size: Bytes,
    wanted: Option<i32>,
    counts: &mut [u32],
    xs: &mut [f64],
    ys: &mut [f64],
    zs: &mut [f64],
    ms: &mut [f64],
) -> Result<Record, RecordError>
    ensures { ReadsRecord wanted size s.now counts.old xs.old ys.old zs.old ms.old result counts.new xs.new ys.new zs.new ms.new }
{
    let content = front::judge_front(s, size, wanted)?;
    read_shape(s, content, counts, xs, ys, zs, ms)
}
