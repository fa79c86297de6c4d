// What a body that was judged puts into the lent stores, each from its front on.
ghost use Rattle.std.specs.Prelude.{◌≡◌, cond, [], map, ◌+◌, ◌*◌, ◌≤◌, ◌<◌, ◌^◌, ◌-ℤ◌, pos, length};
ghost use Rattle.std.proofs.lemmas.List.Edits.{sets};
ghost use Rattle.format.specs.Numbers.{le_i32, doubles_at};
ghost use Rattle.multipart.specs.Body.{raised, range_at, no_range, has_room};
ghost use Rattle.multipart.specs.Parts.{count_of, starts_at};
ghost use Rattle.multipart.specs.Walks.{end_of, end_after, differences_of, body_at, Ready, Stores};

use crate::{BBox, Body, Counts, Range, judge};
use format::shapes::Layout;

// A part's count of points; none, where the part is refused.
fn count_at(s: &[u8], start: usize, follow: usize, n: i32) -> u32
    requires { start + 4 + 4 * follow ≤ length s.now }
    ensures { result ≡ count_of (end_of (starts_at follow (start + 4) s.now) n -ℤ le_i32 start s.now) }
{
    judge::part_at(s, start, follow, n).unwrap_or(0)
}

// One count for each part, where the flag is set: a multipoint has none.
fn store_counts(s: &[u8], parts: bool, said: Counts, counts: &mut [u32])
    requires { (cond parts (40 + 4 * said.parts) 0 ≤ length s.now) × (said.points < 2 ^ 31) × (said.parts ≤ length counts.old) }
    ensures { counts.new ≡ sets counts.old 0 (cond parts (map count_of (differences_of said.parts (pos said.points) s.now)) []) }
{
    if parts {
        let p = said.parts as usize;
        for (i, count) in counts[..p].iter_mut().enumerate() {
            *count = count_at(s, 40 + 4 * i, p - i - 1, said.points as i32);
        }
    }
}

// The x and the y of so many points, whose pairs stand from a place on: from the first pair on, whatever the starts are.
// By index: after a zip of the two stores' `iter_mut` a proof knows nothing of what they hold.
fn store_pairs(s: &[u8], at: usize, points: usize, xs: &mut [f64], ys: &mut [f64])
    requires { (at + 16 * points ≤ length s.now) × (points ≤ length xs.old) × (points ≤ length ys.old) }
    ensures { (xs.new ≡ sets xs.old 0 (doubles_at 16 points at s.now)) × (ys.new ≡ sets ys.old 0 (doubles_at 16 points (at + 8) s.now)) }
{
    for i in 0..points {
        let x = fields::le_f64_at(s, at + 16 * i);
        let y = fields::le_f64_at(s, at + 8 + 16 * i);
        xs[i] = x;
        ys[i] = y;
    }
}

// The n values behind a range, where the flag is set.
fn store_z(s: &[u8], z: bool, n: usize, at: usize, zs: &mut [f64])
    requires { (end_after z n at ≤ length s.now) × (cond z n 0 ≤ length zs.old) }
    ensures { zs.new ≡ sets zs.old 0 (cond z (doubles_at 8 n (at + 16) s.now) []) }
{
    if z {
        fields::read_doubles(s, at + 16, &mut zs[..n]);
    }
}

// The larger of an m value and -10e38; that, for a NaN. By the bits, since a processor's own maximum may make a zero of the smallest doubles.
fn raise(x: f64) -> f64
    ensures { result ≡ raised x }
{
    if fields::below(-10e38, x) { x } else { -10e38 }
}

// The n values behind a range, raised, where the flag is set. (Not by a call of `store_z`: its flag would be asked twice.)
fn store_m(s: &[u8], m: bool, n: usize, at: usize, ms: &mut [f64])
    requires { (end_after m n at ≤ length s.now) × (cond m n 0 ≤ length ms.old) }
    ensures { ms.new ≡ sets ms.old 0 (cond m (map raised (doubles_at 8 n (at + 16) s.now)) []) }
{
    if m {
        let values = &mut ms[..n];
        fields::read_doubles(s, at + 16, values);
        for value in values {
            *value = raise(*value);
        }
    }
}

// The range at a place; zeros, where the flag is not set.
fn range_at(s: &[u8], flag: bool, at: usize) -> Range
    requires { at + cond flag 16 0 ≤ length s.now }
    ensures { result ≡ cond flag (range_at at s.now) no_range }
{
    if flag {
        Range {
            low: fields::le_f64_at(s, at),
            high: fields::le_f64_at(s, at + 8),
        }
    } else {
        Range::default()
    }
}

// Whether the stores hold p parts and n points; z and m only where they are used. (No `Tables` is made of them: reading lends them as `&mut`.)
pub(crate) fn has_room(
    layout: Layout,
    p: usize,
    n: usize,
    counts: &[u32],
    xs: &[f64],
    ys: &[f64],
    zs: &[f64],
    ms: &[f64],
) -> bool
    ensures { result ≡ has_room layout.z layout.m p n (length counts.now) (length xs.now) (length ys.now) (length zs.now) (length ms.now) }
{
    p <= counts.len()
        && n <= xs.len()
        && n <= ys.len()
        && (!layout.z || n <= zs.len())
        && (!layout.m || n <= ms.len())
}

// What a body with these counts holds beside the values; its pairs end at a place.
fn body_at(s: &[u8], layout: Layout, parts: usize, points: usize, end: usize) -> Body
    requires { (32 ≤ length s.now) × (end_after layout.m points (end_after layout.z points end) ≤ length s.now) }
    ensures { result ≡ body_at layout.z layout.m parts points end s.now }
{
    let m_at = judge::end_after(layout.z, points, end);
    Body {
        bbox: BBox {
            xmin: fields::le_f64_at(s, 0),
            ymin: fields::le_f64_at(s, 8),
            xmax: fields::le_f64_at(s, 16),
            ymax: fields::le_f64_at(s, 24),
        },
        z_range: range_at(s, layout.z, end),
        m_range: range_at(s, layout.m, m_at),
        parts,
        points,
    }
}

// All values of a body that says these counts and has these points, into stores that have room for them.
pub(crate) fn store_body(
    s: &[u8],
    layout: Layout,
    said: Counts,
    points: usize,
    counts: &mut [u32],
    xs: &mut [f64],
    ys: &mut [f64],
    zs: &mut [f64],
    ms: &mut [f64],
) -> Body
    requires { Ready layout.parts layout.z layout.m s.now said points (length counts.old) (length xs.old) (length ys.old) (length zs.old) (length ms.old) }
    ensures { Stores layout.parts layout.z layout.m s.now counts.old xs.old ys.old zs.old ms.old result counts.new xs.new ys.new zs.new ms.new }
{
    let p = said.parts as usize;
    let at = judge::pairs_at(layout.parts, p);
    let end = at + 16 * points;
    store_counts(s, layout.parts, said, counts);
    store_pairs(s, at, points, xs, ys);
    store_z(s, layout.z, points, end, zs);
    let m_at = judge::end_after(layout.z, points, end);
    store_m(s, layout.m, points, m_at, ms);
    body_at(s, layout, p, points, end)
}
