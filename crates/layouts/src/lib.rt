// The bytes of bodies of several points; with parts also one function for each layout: x and y; with m; with z and m.
#![tactic(auto)]

ghost use Rattle.std.specs.Prelude.{true, false, []};
ghost use Rattle.layouts.specs.Answers.{WritesBody};
ghost use Rattle.layouts.specs.Lent.{WritesLent};

use format::shapes::{Layout, Tables};
use header::bbox::BBoxZ;

mod judge;
mod puts;

// The layouts with parts: x and y; with m; with z and m.
const XY: Layout = Layout {
    parts: true,
    z: false,
    m: false,
};

const XYM: Layout = Layout {
    parts: true,
    z: false,
    m: true,
};

const XYZM: Layout = Layout {
    parts: true,
    z: true,
    m: true,
};

// Why no byte is stored: the tables disagree, a count leaves i32, or so many bytes are needed.
#[derive(Clone, Copy, Debug, PartialEq, Eq)]
pub enum LayoutError {
    Tables,
    Long,
    Room(usize),
}

// A body in a layout, in parts or as a multipoint, and how many bytes it has: all is judged before the first byte is stored.
pub fn write_body(
    out: &mut [u8],
    layout: Layout,
    bbox: BBoxZ,
    t: &Tables,
) -> Result<usize, LayoutError>
    ensures { WritesLent layout bbox t.now out.old result out.new }
{
    let size = judge::judge_body(layout, t, out.len())?;
    puts::put_body(out, layout, bbox, t);
    Ok(size)
}

// One function for each layout with parts, over stores of their own: document 01 asks for these.
pub fn write_point_shape(
    out: &mut [u8],
    bbox: BBoxZ,
    counts: &[u32],
    xs: &[f64],
    ys: &[f64],
) -> Result<usize, LayoutError>
    ensures { WritesBody true false false bbox counts.now xs.now ys.now [] [] out.old result out.new }
{
    let t = Tables {
        counts,
        xs,
        ys,
        zs: &[],
        ms: &[],
    };
    write_body(out, XY, bbox, &t)
}

pub fn write_point_m_shape(
    out: &mut [u8],
    bbox: BBoxZ,
    counts: &[u32],
    xs: &[f64],
    ys: &[f64],
    ms: &[f64],
) -> Result<usize, LayoutError>
    ensures { WritesBody true false true bbox counts.now xs.now ys.now [] ms.now out.old result out.new }
{
    let t = Tables {
        counts,
        xs,
        ys,
        zs: &[],
        ms,
    };
    write_body(out, XYM, bbox, &t)
}

pub fn write_point_z_shape(
    out: &mut [u8],
    bbox: BBoxZ,
    counts: &[u32],
    xs: &[f64],
    ys: &[f64],
    zs: &[f64],
    ms: &[f64],
) -> Result<usize, LayoutError>
    ensures { WritesBody true true true bbox counts.now xs.now ys.now zs.now ms.now out.old result out.new }
{
    let t = Tables {
        counts,
        xs,
        ys,
        zs,
        ms,
    };
    write_body(out, XYZM, bbox, &t)
}
