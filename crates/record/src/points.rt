// Points: the size is the kind's, and X, Y, Z if any and M if any are each a field.
ghost use Rattle.std.specs.Prelude.{◌≡◌, cond, ◌+◌, ◌*◌, ◌≤◌, length};
ghost use Rattle.std.proofs.Math.Option.{some};
ghost use Rattle.format.specs.Lengths.{one_point, form_of};
ghost use Rattle.record.specs.Reading.{point_in, doubles_of, point_of};
ghost use Rattle.record.specs.Steps.{Begins, double_if, said_point};

use crate::content::Content;
use crate::{Point, RecordError, sizes};
use format::kinds::Kind;
use multipart::Counts;

const ONE_POINT: Counts = Counts {
    parts: 0,
    points: 1,
};

// How many doubles a point has: X, Y, and Z and M where its kind has them.
fn doubles_of(k: Kind) -> usize
    ensures { result ≡ doubles_of k }
{
    2 + usize::from(k.z) + usize::from(k.m)
}

// The place of M, behind Z if that is there.
fn m_at(z: bool) -> usize
    ensures { result ≡ cond z 28 20 }
{
    if z { 28 } else { 20 }
}

// The double at a place, or 0 where the flag is not set.
fn double_if(s: &[u8], flag: bool, at: usize) -> f64
    requires { at + cond flag 8 0 ≤ length s.now }
    ensures { result ≡ double_if flag at s.now }
{
    if flag { fields::le_f64_at(s, at) } else { 0.0 }
}

// A point whose doubles are all there.
fn point_at(s: &[u8], k: Kind) -> Point
    requires { 4 + 8 * doubles_of k ≤ length s.now }
    ensures { result ≡ point_in k s.now }
{
    Point {
        x: fields::le_f64_at(s, 4),
        y: fields::le_f64_at(s, 12),
        z: double_if(s, k.z, 20),
        m: double_if(s, k.m, m_at(k.z)),
    }
}

pub(crate) fn read_point(s: &[u8], content: Content) -> Result<Point, RecordError>
    requires begins { Begins s.now content.size content }
    requires of_points { form_of content.kind ≡ some one_point }
    ensures { said_point content.code result ≡ point_of content.kind content.size s.now }
{
    if !sizes::has_words(content.size, content.lengths.with, ONE_POINT) {
        return Err(RecordError::Size(0));
    }
    fields::checked::fields_end(s, 4, 8, doubles_of(content.kind))?;
    Ok(point_at(s, content.kind))
}
