// What is judged before the first byte is stored: whether the tables agree, whether an i32 holds the counts, and whether there is room.
ghost use Rattle.std.specs.Prelude.{◌≡◌, cond, ◌&&◌, ◌<◌, ◌^◌, eqb, ltb, length};
ghost use Rattle.format.specs.Shapes.{sum};
ghost use Rattle.layouts.specs.Answers.{said_layout};
ghost use Rattle.layouts.specs.Lent.{lent_agree, layout_of_lent};
ghost use Rattle.layouts.specs.Steps.{measure_size, front_size};

use crate::LayoutError;
use format::shapes::{Layout, Tables, sums_to};

// Whether the part counts are those of n points; a multipoint has none.
fn counted(parts: bool, counts: &[u32], n: usize) -> bool
    ensures { result ≡ cond parts (eqb n (sum counts.now)) (eqb (length counts.now) 0) }
{
    if parts {
        sums_to(counts, n)
    } else {
        counts.is_empty()
    }
}

// Whether z or m holds a value for each of n points, or none where the layout lacks it.
fn holds(flag: bool, values: &[f64], n: usize) -> bool
    ensures { result ≡ eqb (length values.now) (cond flag n 0) }
{
    values.len() == if flag { n } else { 0 }
}

// Whether the tables agree on the number of points. (The writer asks this by a kind, of which points and Null are two more cases.)
fn agree(layout: Layout, t: &Tables) -> bool
    ensures { result ≡ lent_agree layout t.now }
{
    let n = t.xs.len();
    // the lengths first: the sum is the one test that goes through a table
    t.ys.len() == n
        && holds(layout.z, t.zs, n)
        && holds(layout.m, t.ms, n)
        && counted(layout.parts, t.counts, n)
}

// Whether an i32 holds both counts.
fn held(p: usize, n: usize) -> bool
    ensures { result ≡ ltb p (2 ^ 31) && ltb n (2 ^ 31) }
{
    i32::try_from(p).is_ok() && i32::try_from(n).is_ok()
}

// The bytes of a range and n values, where the layout has them.
pub(crate) fn measure_size(flag: bool, n: usize) -> usize
    requires { n < 2 ^ 60 }
    ensures { result ≡ measure_size flag n }
{
    if flag { 16 + 8 * n } else { 0 }
}

// The bytes in front of the points: box, counts and the starts of p parts.
pub(crate) fn front_size(parts: bool, p: usize) -> usize
    requires { p < 2 ^ 61 }
    ensures { result ≡ front_size parts p }
{
    if parts { 40 + 4 * p } else { 36 }
}

// How many bytes the body takes, where they are to be written.
pub(crate) fn judge_body(layout: Layout, t: &Tables, room: usize) -> Result<usize, LayoutError>
    ensures { said_layout result ≡ layout_of_lent layout t.now room }
{
    if !agree(layout, t) {
        return Err(LayoutError::Tables);
    }
    let p = t.counts.len();
    let n = t.xs.len();
    if !held(p, n) {
        return Err(LayoutError::Long);
    }
    let size = front_size(layout.parts, p)
        + 16 * n
        + measure_size(layout.z, n)
        + measure_size(layout.m, n);
    if room < size {
        return Err(LayoutError::Room(size));
    }
    Ok(size)
}
