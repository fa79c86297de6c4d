// The header's box: how it grows with each record, and what it is in the end.
#![tactic(auto)]

ghost use Rattle.std.specs.Prelude.{◌≡◌, cond, get_or};
ghost use Rattle.boxes.specs.Boxes.{least, greatest, grown, start_box, zero_double, flat, with_ranges, point_box, untouched, settled};

use format::kinds::Kind;
use format::shapes::Tables;
use header::bbox::BBoxZ;

// The lesser of the two: b where neither is below the other. Two functions, as document 01 names them, and no `f64::min`, which goes by the
// processor's mode.
pub fn f64_min(a: f64, b: f64) -> f64
    ensures { result ≡ least a b }
{
    if fields::below(a, b) { a } else { b }
}

pub fn f64_max(a: f64, b: f64) -> f64
    ensures { result ≡ greatest a b }
{
    if fields::below(b, a) { a } else { b }
}

// The held box grown by a record's own: the record's value first, the held one second.
pub fn grow(own: BBoxZ, held: BBoxZ) -> BBoxZ
    ensures { result ≡ grown own held }
{
    BBoxZ {
        xmin: f64_min(own.xmin, held.xmin),
        ymin: f64_min(own.ymin, held.ymin),
        xmax: f64_max(own.xmax, held.xmax),
        ymax: f64_max(own.ymax, held.ymax),
        zmin: f64_min(own.zmin, held.zmin),
        zmax: f64_max(own.zmax, held.zmax),
        mmin: f64_min(own.mmin, held.mmin),
        mmax: f64_max(own.mmax, held.mmax),
    }
}

// What the first record finds: each min the largest finite double, each max the smallest.
pub fn start_box() -> BBoxZ
    ensures { result ≡ start_box }
{
    BBoxZ {
        xmin: f64::MAX,
        ymin: f64::MAX,
        xmax: f64::MIN,
        ymax: f64::MIN,
        zmin: f64::MAX,
        zmax: f64::MIN,
        mmin: f64::MAX,
        mmax: f64::MIN,
    }
}

// The value where the flag is set, else 0. (As `given` in format, of another type.)
fn where_set(flag: bool, x: f64) -> f64
    ensures { result ≡ cond flag x zero_double }
{
    if flag { x } else { 0.0 }
}

// The box with its z and its m where they are set, else 0.
fn with_ranges(b: BBoxZ, z: bool, m: bool) -> BBoxZ
    ensures { result ≡ with_ranges b z m }
{
    BBoxZ {
        zmin: where_set(z, b.zmin),
        zmax: where_set(z, b.zmax),
        mmin: where_set(m, b.mmin),
        mmax: where_set(m, b.mmax),
        ..b
    }
}

// A kind without z or m gives 0 for it.
pub fn flat_box(k: Kind, b: BBoxZ) -> BBoxZ
    ensures { result ≡ flat k b }
{
    with_ranges(b, k.z, k.m)
}

fn first_or_zero(s: &[f64]) -> f64
    ensures { result ≡ get_or s.now 0 zero_double }
{
    s.first().copied().unwrap_or(0.0)
}

// A point's own values as a box.
pub fn point_box(t: &Tables) -> BBoxZ
    ensures { result ≡ point_box t.now.xs.now t.now.ys.now t.now.zs.now t.now.ms.now }
{
    let x = first_or_zero(t.xs);
    let y = first_or_zero(t.ys);
    let z = first_or_zero(t.zs);
    let m = first_or_zero(t.ms);
    BBoxZ {
        xmin: x,
        ymin: y,
        xmax: x,
        ymax: y,
        zmin: z,
        zmax: z,
        mmin: m,
        mmax: m,
    }
}

// Whether a range is still at its start values.
fn at_start(low: f64, high: f64) -> bool
    ensures { result ≡ untouched low high }
{
    fields::same(high, f64::MIN) && fields::same(low, f64::MAX)
}

// In the end: 0 for a z or m range still at its start values.
pub fn settle(b: BBoxZ) -> BBoxZ
    ensures { result ≡ settled b }
{
    let z = !at_start(b.zmin, b.zmax);
    let m = !at_start(b.mmin, b.mmax);
    with_ranges(b, z, m)
}
