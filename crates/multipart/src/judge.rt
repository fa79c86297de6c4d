// The first walk over a body: which field is cut or wrong, and how many points are read. It stores nothing.
ghost use Rattle.std.specs.Prelude.{◌≡◌, ◌+◌, ◌*◌, ◌≤◌, ◌<◌, ◌^◌, pos, length};
ghost use Rattle.format.specs.Numbers.{le_i32};
ghost use Rattle.fields.specs.Checked.{FieldsEnd};
ghost use Rattle.multipart.specs.Answers.{said_part, part_of};
ghost use Rattle.multipart.specs.Body.{number_at};
ghost use Rattle.multipart.specs.Parts.{starts_at};
ghost use Rattle.multipart.specs.Walks.{NotNegative, end_of, end_after, Counted, PartsWalk, MeasureWalk, PairsWalk, RestWalk};

use crate::{Counts, CountsError, part_count};
use fields::checked::fields_end;
use format::shapes::{Layout, Short};

// A count, which stands at a place.
pub(crate) fn not_negative(n: i32, at: usize) -> Result<u32, CountsError>
    ensures { NotNegative n at result }
{
    u32::try_from(n).map_err(|_| CountsError::Size(at))
}

// Where the number of points stands: behind that of the parts, if there are any.
pub(crate) fn number_at(parts: bool) -> usize
    ensures { result ≡ number_at parts }
{
    if parts { 36 } else { 32 }
}

// Where the pairs stand, behind p starts.
pub(crate) fn pairs_at(parts: bool, p: usize) -> usize
    requires { number_at parts + 4 + 4 * p < 2 ^ 64 }
    ensures { result ≡ number_at parts + 4 + 4 * p }
{
    number_at(parts) + 4 + 4 * p
}

// The points of the part whose start stands at a place: so many starts follow it, and the last part ends at n.
pub(crate) fn part_at(s: &[u8], start: usize, follow: usize, n: i32) -> Option<u32>
    requires { start + 4 + 4 * follow ≤ length s.now }
    ensures { said_part result ≡ part_of (le_i32 start s.now) (end_of (starts_at follow (start + 4) s.now) n) }
{
    let from = fields::le_i32_at(s, start);
    if 0 < follow {
        let to = fields::le_i32_at(s, start + 4);
        part_count(from, to)
    } else {
        part_count(from, n)
    }
}

// The parts in turn, whose starts stand from 40 on: how many points they have. The pairs of a part stand where those of the part before it end.
// (Not inlined: within the reading of a whole record the loop lacks registers, and loads the bytes' address twice for each part.)
#[inline(never)]
fn judge_parts(s: &[u8], said: Counts) -> Result<usize, CountsError>
    requires { (40 + 4 * said.parts ≤ length s.now) × (said.points < 2 ^ 31) }
    ensures { PartsWalk said.parts (pos said.points) s.now result }
{
    // a cast that widens: no `From<u32>` is there for `usize`
    let p = said.parts as usize;
    let mut at = 40 + 4 * p;
    let mut points = 0;
    for i in 0..p {
        let start = 40 + 4 * i;
        let Some(count) = part_at(s, start, p - i - 1, said.points as i32) else {
            return Err(CountsError::Size(start));
        };
        let count = count as usize;
        at = fields_end(s, at, 8, 2 * count)?;
        points += count;
    }
    Ok(points)
}

// Where a range and n values from a place on end; at that place, where the flag is not set. (Flag, number and place go along in four functions; each call
// has another place, so a struct of the three would be made anew each time.)
pub(crate) fn end_after(flag: bool, n: usize, at: usize) -> usize
    requires { end_after flag n at < 2 ^ 64 }
    ensures { result ≡ end_after flag n at }
{
    if flag { at + 16 + 8 * n } else { at }
}

// A range and n values from a place on, where the flag is set: the place after them.
fn judge_measure(s: &[u8], flag: bool, n: usize, at: usize) -> Result<usize, CountsError>
    requires { (at ≤ length s.now) × (n ≤ length s.now) }
    ensures { MeasureWalk flag n at s.now result }
{
    if flag {
        Ok(fields_end(s, at, 8, 2 + n)?)
    } else {
        Ok(at)
    }
}

// Where the starts of so many parts end, which stand from 40 on.
fn starts_end(s: &[u8], parts: usize) -> Result<usize, Short>
    requires { 40 ≤ length s.now }
    ensures { FieldsEnd 4 parts 40 (length s.now) result }
{
    fields_end(s, 40, 4, parts)
}

// The pairs, behind the starts of parts, or those of a multipoint: how many points are read.
fn judge_pairs(s: &[u8], parts: bool, said: Counts) -> Result<usize, CountsError>
    requires { Counted parts s.now said }
    ensures { PairsWalk parts s.now result }
{
    if parts {
        starts_end(s, said.parts as usize)?;
        judge_parts(s, said)
    } else {
        let points = said.points as usize;
        fields_end(s, 36, 8, 2 * points)?;
        Ok(points)
    }
}

// All that follows the counts: how many points are read.
pub(crate) fn judge_rest(s: &[u8], layout: Layout, said: Counts) -> Result<usize, CountsError>
    requires { Counted layout.parts s.now said }
    ensures { RestWalk layout.parts layout.z layout.m s.now result }
{
    let points = judge_pairs(s, layout.parts, said)?;
    let z_at = pairs_at(layout.parts, said.parts as usize) + 16 * points;
    let m_at = judge_measure(s, layout.z, points, z_at)?;
    judge_measure(s, layout.m, points, m_at)?;
    Ok(points)
}
