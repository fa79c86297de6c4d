// Bodies of several points, in parts or as a multipoint: part arithmetic and the body reader.
#![tactic(auto)]

ghost use Rattle.std.specs.Prelude.{◌≡◌};
ghost use Rattle.format.specs.declared.shapes.Short.{Short};
ghost use Rattle.multipart.specs.declared.CountsError.{CountsError};
ghost use Rattle.multipart.specs.declared.CountsError.TheVariants as CountsErrorIs;
ghost use Rattle.multipart.specs.declared.BodyError.TheVariants as BodyErrorIs;
ghost use Rattle.multipart.specs.Answers.{said_part, part_of, said_counts, counts_of, of_counts, ReadsBody};

use fields::checked;
use format::shapes::{Layout, Short};

mod judge;
mod store;

#[repr(C)]
#[derive(Clone, Copy, Default)]
pub struct BBox {
    pub xmin: f64,
    pub ymin: f64,
    pub xmax: f64,
    pub ymax: f64,
}

#[repr(C)]
#[derive(Clone, Copy, Default)]
pub struct Range {
    pub low: f64,
    pub high: f64,
}

// What a body holds beside what goes into the stores. (A struct of C's: a range that the layout lacks is zeros, and no `Option`.)
#[repr(C)]
#[derive(Clone, Copy, Default)]
pub struct Body {
    pub bbox: BBox,
    pub z_range: Range,
    pub m_range: Range,
    pub parts: usize,
    pub points: usize,
}

// How many parts there are, and how many points the body says it has.
#[derive(Clone, Copy, Debug, PartialEq, Eq)]
pub struct Counts {
    pub parts: u32,
    pub points: u32,
}

// Why the counts are not read: the bytes end inside a field, or a number at a place is refused.
#[derive(Clone, Copy, Debug, PartialEq, Eq)]
pub enum CountsError {
    Short(Short),
    Size(usize),
}

// Why a body is not read: also where a store is too small for these parts and points.
#[derive(Clone, Copy, Debug, PartialEq, Eq)]
pub enum BodyError {
    Short(Short),
    Size(usize),
    Room { parts: usize, points: usize },
}

impl From<Short> for CountsError {
    ghost from_gives = { λ e r. r ≡ CountsErrorIs.Short e };

    fn from(e: Short) -> CountsError {
        CountsError::Short(e)
    }
}

impl From<CountsError> for BodyError {
    ghost from_gives = { λ e r. r ≡ of_counts e };

    fn from(e: CountsError) -> BodyError {
        match e {
            CountsError::Short(short) => BodyError::Short(short),
            CountsError::Size(at) => BodyError::Size(at),
        }
    }
}

// The points of a part, from its start and its end.
pub fn part_count(start: i32, end: i32) -> Option<u32>
    ensures { said_part result ≡ part_of start end }
{
    // (not by `checked_sub` and `try_from`: a body of many parts asks here for each part, and these take several tests where one does)
    let count = i64::from(end) - i64::from(start);
    if count < 0 || i64::from(i32::MAX) < count {
        return None;
    }
    Some(count as u32)
}

// How many parts and points the body says it has, which stand behind the box: a multipoint has only points.
pub fn read_counts(s: &[u8], parts: bool) -> Result<Counts, CountsError>
    ensures { said_counts result ≡ counts_of parts s.now }
{
    // the box
    checked::fields_end(s, 0, 8, 4)?;
    // the number of parts, or else of points
    let first = checked::le_i32(s, 32)?;
    if !parts {
        let points = judge::not_negative(first, 32)?;
        return Ok(Counts { parts: 0, points });
    }
    let second = checked::le_i32(s, 36)?;
    let parts = judge::not_negative(first, 32)?;
    let points = judge::not_negative(second, 36)?;
    Ok(Counts { parts, points })
}

// A body with this layout: what it holds, and its values in the stores.
// The C interface lends the stores apart, and a struct of five `&mut` needs a clause for each of its ghost names in every contract.
pub fn read_body(
    s: &[u8],
    layout: Layout,
    counts: &mut [u32],
    xs: &mut [f64],
    ys: &mut [f64],
    zs: &mut [f64],
    ms: &mut [f64],
) -> Result<Body, BodyError>
    ensures { ReadsBody layout.parts layout.z layout.m s.now counts.old xs.old ys.old zs.old ms.old result counts.new xs.new ys.new zs.new ms.new }
{
    let said = read_counts(s, layout.parts)?;
    let points = judge::judge_rest(s, layout, said)?;
    let parts = said.parts as usize;
    if !store::has_room(layout, parts, points, counts, xs, ys, zs, ms) {
        return Err(BodyError::Room { parts, points });
    }
    Ok(store::store_body(s, layout, said, points, counts, xs, ys, zs, ms))
}
