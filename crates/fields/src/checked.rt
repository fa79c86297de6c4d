// Fields that the bytes may end inside: read where they are whole, and else named by their place and by how many of their bytes are there.
ghost use Rattle.std.specs.Prelude.{◌<◌, ◌≤◌, length};
ghost use Rattle.format.specs.Numbers.{be_i32, le_i32};
ghost use Rattle.fields.specs.Checked.{Reads, FieldsEnd};

use format::shapes::Short;

// Nothing is read: the field of so many bytes is whole.
pub fn whole(s: &[u8], at: usize, width: usize) -> Result<(), Short>
    requires { 0 < width }
    ensures { Reads width at s.now tt result }
{
    let present = s.len().saturating_sub(at);
    if present < width {
        return Err(Short { at, present });
    }
    Ok(())
}

// Where n fields of a width end, from a place on; or the one of them that the bytes end inside.
pub fn fields_end(s: &[u8], at: usize, width: usize, n: usize) -> Result<usize, Short>
    requires { (at ≤ length s.now) × (0 < width) }
    ensures { FieldsEnd width n at (length s.now) result }
{
    let rest = s.len() - at;
    if rest / width < n {
        return Err(Short {
            at: at + rest / width * width,
            present: rest % width,
        });
    }
    Ok(at + width * n)
}

// (A function for each byte order, as in the root.)
pub fn be_i32(s: &[u8], at: usize) -> Result<i32, Short>
    ensures { Reads 4 at s.now (be_i32 at s.now) result }
{
    whole(s, at, 4)?;
    Ok(crate::be_i32_at(s, at))
}

pub fn le_i32(s: &[u8], at: usize) -> Result<i32, Short>
    ensures { Reads 4 at s.now (le_i32 at s.now) result }
{
    whole(s, at, 4)?;
    Ok(crate::le_i32_at(s, at))
}
