// The length of a shape's content in words, for the kinds that are taken: the fixed words and the words for each point, as sums of what a content holds.
ghost use Rattle.std.specs.Prelude.{◌≡◌, ◌+◌, ◌≤◌, pos};
ghost use Rattle.format.specs.Lengths.{one_point, is_multipoint, has_several, given, several_form, formula, said_content, content_of, formula_words, said_counted, counted};
ghost use Rattle.format.specs.Units.{same_int};
ghost use Rattle.format.specs.declared.lengths.KindError.TheVariants.{Unknown};

use crate::kinds::{Kind, UnknownKind, find_kind};
use crate::units::Words;

// A content's words: the fixed ones, 2 for each part, and so many for each point.
#[derive(Clone, Copy, Debug, PartialEq, Eq)]
pub struct Formula {
    pub fixed: u16,
    pub point: u16,
}

// The formulas of a kind, without m and with m.
#[derive(Clone, Copy, Debug, PartialEq, Eq)]
pub struct Lengths {
    pub without: Formula,
    pub with: Formula,
}

// Why a code has no formulas: the table does not have it, or its kind is not taken.
#[derive(Clone, Copy, Debug, PartialEq, Eq)]
pub enum KindError {
    Unknown(i32),
    NotTaken(i32),
}

impl From<UnknownKind> for KindError {
    ghost from_gives = { λ e r. r ≡ Unknown e.0 };

    fn from(e: UnknownKind) -> KindError {
        KindError::Unknown(e.0)
    }
}

// 8, 18 and 28 are multipoints.
fn is_multipoint(k: Kind) -> bool
    ensures { result ≡ is_multipoint k }
{
    matches!(k.code, 8 | 18 | 28)
}

// Whether a kind has several points, in parts or as a multipoint.
pub fn has_several(k: Kind) -> bool
    ensures { result ≡ has_several k }
{
    k.parts || is_multipoint(k)
}

// ---- the pieces of a content, in words of two bytes

// the kind's own field, an i32
const KIND_FIELD: u16 = 2;

// how many parts there are, an i32
const PARTS_COUNT: u16 = 2;

// how many points there are, an i32
const POINTS_COUNT: u16 = 2;

// a double, of eight bytes
const DOUBLE: u16 = 4;

// the box: Xmin, Ymin, Xmax, Ymax
const BOX: u16 = 4 * DOUBLE;

// the range of z or of m: its least and its greatest value
const RANGE: u16 = 2 * DOUBLE;

// ---- and their sums

// So many words where the flag is set. (One `if` for each type of number, here, in boxes and in writer: a generic one would need a law for each zero.)
fn given(flag: bool, words: u16) -> u16
    ensures { (result ≡ given flag words) × (result ≤ words) }
{
    if flag { words } else { 0 }
}

// One point's doubles: x and y; z and m where the flags are set.
fn point_doubles(z: bool, m: bool) -> u16
    ensures { (result ≡ 8 + given z 4 + given m 4) × (result ≤ 16) }
{
    2 * DOUBLE + given(z, DOUBLE) + given(m, DOUBLE)
}

// Null: the kind's field alone.
const OF_NULL: Formula = Formula {
    fixed: KIND_FIELD,
    point: 0,
};

// A point: the kind's field and its doubles.
fn of_point(z: bool, m: bool) -> Formula
    ensures { result ≡ formula one_point z m }
{
    Formula {
        fixed: KIND_FIELD + point_doubles(z, m),
        point: 0,
    }
}

// Several points, in parts or as a multipoint: the kind's field, the box, the counts, the ranges of z and m; and each point's doubles.
fn of_several(in_parts: bool, z: bool, m: bool) -> Formula
    ensures { result ≡ formula (several_form in_parts) z m }
{
    let counts = given(in_parts, PARTS_COUNT) + POINTS_COUNT;
    let ranges = given(z, RANGE) + given(m, RANGE);
    Formula {
        fixed: KIND_FIELD + BOX + counts + ranges,
        point: point_doubles(z, m),
    }
}

// The formulas of the kind with this code. Null and a point have one; several points may lack the m of their kind.
pub fn lengths_of(code: i32) -> Result<Lengths, KindError>
    ensures { said_content result ≡ content_of code }
{
    let k = find_kind(code)?;
    // a multipatch
    if k.code == 31 {
        return Err(KindError::NotTaken(code));
    }
    if k.code == 0 {
        return Ok(Lengths {
            without: OF_NULL,
            with: OF_NULL,
        });
    }
    if has_several(k) {
        return Ok(Lengths {
            without: of_several(k.parts, k.z, false),
            with: of_several(k.parts, k.z, k.m),
        });
    }
    let point = of_point(k.z, k.m);
    Ok(Lengths {
        without: point,
        with: point,
    })
}

// The words of a content with p parts and n points, where an i32 holds them.
pub fn content_words(f: Formula, p: u32, n: u32) -> Option<Words>
    ensures { said_counted result ≡ counted f p n }
{
    let words = u64::from(f.fixed) + 2 * u64::from(p) + u64::from(f.point) * u64::from(n);
    Some(Words(i32::try_from(words).ok()?))
}

// Whether a content with p parts and n points has so many words.
pub fn comes_to(f: Formula, p: u32, n: u32, words: Words) -> bool
    ensures { result ≡ same_int words.0 (pos (formula_words f p n)) }
{
    match content_words(f, p, n) {
        Some(w) => w.0 == words.0,
        None => false,
    }
}
