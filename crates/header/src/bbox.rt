// The header's box: eight doubles, one value.
ghost use Rattle.std.specs.Prelude.{◌≡◌, ◌+◌, ◌≤◌, length};
ghost use Rattle.std.proofs.lemmas.List.Edits.{sets};
ghost use Rattle.format.specs.Numbers.{f64s_le};
ghost use Rattle.header.specs.Box.{box_at, box_list, ReadsBox};

use fields::checked;
use format::shapes::Short;

#[repr(C)]
#[derive(Clone, Copy, Default)]
pub struct BBoxZ {
    pub xmin: f64,
    pub ymin: f64,
    pub xmax: f64,
    pub ymax: f64,
    pub zmin: f64,
    pub zmax: f64,
    pub mmin: f64,
    pub mmax: f64,
}

// The box from a place on.
fn box_at(s: &[u8], at: usize) -> BBoxZ
    requires { at + 64 ≤ length s.now }
    ensures { result ≡ box_at at s.now }
{
    let mut doubles = [0.0; 8];
    fields::read_doubles(s, at, &mut doubles);
    let [xmin, ymin, xmax, ymax, zmin, zmax, mmin, mmax] = doubles;
    BBoxZ {
        xmin,
        ymin,
        xmax,
        ymax,
        zmin,
        zmax,
        mmin,
        mmax,
    }
}

// The same of bytes that may end inside it: then the double that is cut is named.
pub(crate) fn read_box(s: &[u8], at: usize) -> Result<BBoxZ, Short>
    requires { at ≤ length s.now }
    ensures { ReadsBox at s.now result }
{
    checked::fields_end(s, at, 8, 8)?;
    Ok(box_at(s, at))
}

// The box goes in at a place.
pub(crate) fn put_box(out: &mut [u8], at: usize, b: BBoxZ)
    requires { at + 64 ≤ length out.old }
    ensures { out.new ≡ sets out.old at (f64s_le (box_list b)) }
{
    let a = [
        b.xmin, b.ymin, b.xmax, b.ymax, b.zmin, b.zmax, b.mmin, b.mmax,
    ];
    fields::write_doubles(out, at, &a);
}
