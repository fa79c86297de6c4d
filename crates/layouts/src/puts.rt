// A body's bytes go in from the front of the output: box, counts, starts, pairs, z and m. Internal: a caller shows that they fit.
ghost use Rattle.std.specs.Prelude.{◌≡◌, true, ◌+◌, ◌*◌, ◌≤◌, ◌<◌, ◌^◌, length};
ghost use Rattle.std.proofs.lemmas.List.Edits.{sets};
ghost use Rattle.format.specs.Encoding.{measure_bytes, shape_bytes};
ghost use Rattle.format.specs.Shapes.{sum};
ghost use Rattle.layouts.specs.Lent.{lent_shape};
ghost use Rattle.layouts.specs.Steps.{measure_size, starts_bytes, counts_bytes, front_bytes, front_size, pairs_bytes, PlacedLent};
ghost use Rattle.layouts.specs.Tables.{measure_of};

use crate::judge::{front_size, measure_size};
use format::shapes::{Layout, Tables};
use header::bbox::BBoxZ;

// Where each part starts: the number of the points before it.
fn put_starts(out: &mut [u8], at: usize, counts: &[u32])
    requires { (at + 4 * length counts.now ≤ length out.old) × (sum counts.now < 2 ^ 31) }
    ensures { out.new ≡ sets out.old at (starts_bytes 0 counts.now) }
{
    let mut start = 0;
    for (i, count) in counts.iter().enumerate() {
        fields::put_le(out, at + 4 * i, start, 4);
        start += u64::from(*count);
    }
}

// The counts and starts; of a multipoint n alone. (`u64` has no `From<usize>`: the casts stay.)
fn put_counts(out: &mut [u8], parts: bool, counts: &[u32], n: usize)
    requires { (front_size parts (length counts.now) ≤ length out.old) × (parts ≡ true → sum counts.now < 2 ^ 31) }
    ensures { out.new ≡ sets out.old 32 (counts_bytes parts counts.now n) }
{
    if parts {
        fields::put_le(out, 32, counts.len() as u64, 4);
        fields::put_le(out, 36, n as u64, 4);
        put_starts(out, 40, counts);
    } else {
        fields::put_le(out, 32, n as u64, 4);
    }
}

// What every layout has in front: box, counts and starts.
fn put_front(out: &mut [u8], parts: bool, bbox: BBoxZ, counts: &[u32], n: usize)
    requires { (front_size parts (length counts.now) ≤ length out.old) × (parts ≡ true → sum counts.now < 2 ^ 31) }
    ensures { out.new ≡ sets out.old 0 (front_bytes parts bbox counts.now n) }
{
    let corners = [bbox.xmin, bbox.ymin, bbox.xmax, bbox.ymax];
    fields::write_doubles(out, 0, &corners);
    put_counts(out, parts, counts, n);
}

// The pairs: x and y of each point in turn.
fn put_pairs(out: &mut [u8], at: usize, xs: &[f64], ys: &[f64])
    requires { (length ys.now ≡ length xs.now) × (at + 16 * length xs.now ≤ length out.old) }
    ensures { out.new ≡ sets out.old at (pairs_bytes xs.now ys.now) }
{
    for (i, (x, y)) in xs.iter().zip(ys).enumerate() {
        fields::put_le_f64(out, at + 16 * i, *x);
        fields::put_le_f64(out, at + 16 * i + 8, *y);
    }
}

// A range and its values, where the layout has them.
fn put_measure(out: &mut [u8], at: usize, flag: bool, low: f64, high: f64, values: &[f64])
    requires { at + measure_size flag (length values.now) ≤ length out.old }
    ensures { out.new ≡ sets out.old at (measure_bytes (measure_of flag low high values.now)) }
{
    if flag {
        let range = [low, high];
        let values_at = at + 16;
        fields::write_doubles(out, at, &range);
        fields::write_doubles(out, values_at, values);
    }
}

// All of a body, field after field.
pub(crate) fn put_body(out: &mut [u8], layout: Layout, bbox: BBoxZ, t: &Tables)
    requires { PlacedLent layout t.now (length out.old) }
    ensures { out.new ≡ sets out.old 0 (shape_bytes (lent_shape layout bbox t.now)) }
{
    let n = t.xs.len();
    let pairs_at = front_size(layout.parts, t.counts.len());
    let z_at = pairs_at + 16 * n;
    let m_at = z_at + measure_size(layout.z, n);
    put_front(out, layout.parts, bbox, t.counts, n);
    put_pairs(out, pairs_at, t.xs, t.ys);
    put_measure(out, z_at, layout.z, bbox.zmin, bbox.zmax, t.zs);
    put_measure(out, m_at, layout.m, bbox.mmin, bbox.mmax, t.ms);
}
