// What is judged before the first byte is written: state and kind, the tables, the lengths, the room.
ghost use Rattle.std.specs.Prelude.{◌≡◌, true, cond, eqb, nat_abs, length};
ghost use Rattle.format.specs.Lengths.{formula};
ghost use Rattle.format.specs.Shapes.{sum};
ghost use Rattle.header.specs.declared.bbox.BBoxZ.{BBoxZ};
ghost use Rattle.writer.specs.Adding.{lent_tables};
ghost use Rattle.writer.specs.Judging.{form_by, OfCode, JudgesKind, has_points, tables_lent, length_judged, record_bytes_of, Whole, room_judged, JudgesShape, Judges};
ghost use Rattle.writer.specs.State.{state_fine};

use crate::states::{look_up, state_fine, words_after};
use crate::{AddError, State};
use format::kinds::Kind;
use format::lengths::{Formula, content_words, has_several};
use format::shapes::{Tables, sums_to};
use format::units::{Bytes, Words};

// How long both buffers are, and where in the first the record goes.
#[derive(Clone, Copy)]
pub(crate) struct Space {
    pub out: usize,
    pub start: usize,
    pub entry: usize,
}

// What passed: the kind, the content's words, the file's words with the record, and the record's bytes.
#[derive(Clone, Copy)]
pub(crate) struct Judged {
    pub kind: Kind,
    pub content: Words,
    pub after: Words,
    pub size: Bytes,
}

// The state, the kind's code, and both together: 3, 4, 9, 5.
fn judge_kind(state: State, code: i32) -> Result<(Kind, Formula), AddError>
    ensures { JudgesKind state code result }
{
    if !state_fine(state) {
        return Err(AddError::Size);
    }
    let (kind, formula) = look_up(code)?;
    let held = state.kind;
    if held == 0 {
        // a fresh state gets its kind from the record, and Null gives none
        if kind.code == 0 {
            return Err(AddError::NotTaken(code));
        }
    } else if kind.code != 0 && held != code {
        // Null may stand among the records of every kind
        return Err(AddError::Mismatch { held, found: code });
    }
    Ok((kind, formula))
}

// Whether a shape of this kind, with these counts, has n points: without parts no counts are lent, and a Null has none, a point kind one, and a multipoint any number.
fn has_points(k: Kind, counts: &[u32], n: usize) -> bool
    ensures { result ≡ has_points k counts.now n }
{
    if k.parts {
        return sums_to(counts, n);
    }
    if !counts.is_empty() {
        return false;
    }
    has_several(k) || n == usize::from(k.code != 0)
}

// The number where the flag is set, else 0. (As `given` in format, of another type.)
fn where_set(flag: bool, n: usize) -> usize
    ensures { result ≡ cond flag n 0 }
{
    if flag { n } else { 0 }
}

// The tables agree in length: 10. How many points they have.
fn judge_tables(k: Kind, t: &Tables) -> Result<usize, AddError>
    ensures { result ≡ tables_lent k t.now }
{
    let n = t.xs.len();
    let agree = has_points(k, t.counts, n)
        && t.ys.len() == n
        && t.zs.len() == where_set(k.z, n)
        && t.ms.len() == where_set(k.m, n);
    if agree { Ok(n) } else { Err(AddError::Tables) }
}

// The content's words, and the file's with the record, where an i32 holds the counts and the file's words.
fn judge_length(words: Words, f: Formula, parts: usize, points: usize) -> Option<(Words, Words)>
    ensures { result ≡ length_judged words f parts points }
{
    let parts = i32::try_from(parts).ok()?.cast_unsigned();
    let points = i32::try_from(points).ok()?.cast_unsigned();
    let content = content_words(f, parts, points)?;
    let after = words_after(words, content)?;
    Some((content, after))
}

// A record's bytes: its header takes 8.
fn record_bytes(content: Words) -> Bytes
    ensures { result ≡ record_bytes_of content }
{
    let bytes = Bytes::from(content);
    Bytes(8 + bytes.0)
}

// A record's bytes as a length of memory: a buffer, and a place in it, may be more than `Bytes` holds.
pub(crate) fn in_memory(size: Bytes) -> usize
    requires { Whole size }
    ensures { result ≡ nat_abs size.0 }
{
    size.0 as usize
}

// The record's buffer first, then the entry's: 6. What a buffer needs is at most the largest usize.
fn judge_room(size: Bytes, space: Space) -> Result<(), AddError>
    requires { Whole size }
    ensures { result ≡ room_judged (nat_abs size.0) space.out space.start space.entry }
{
    let bytes = in_memory(size);
    if space.out < space.start || space.out - space.start < bytes {
        return Err(AddError::Room(space.start.saturating_add(bytes)));
    }
    if space.entry < 8 {
        return Err(AddError::Room(8));
    }
    Ok(())
}

// A shape of a kind that was judged: 10, 7, 6. (The code goes along beside its kind, as the caller gave it: an i32, which is written.)
fn judge_shape(
    state: State,
    code: i32,
    kind: Kind,
    f: Formula,
    t: &Tables,
    space: Space,
) -> Result<Judged, AddError>
    requires state_value { state_fine state ≡ true }
    requires of_code { OfCode code kind }
    requires f_value { f ≡ formula (form_by kind) kind.z kind.m }
    ensures { (b : BBoxZ) → JudgesShape state (lent_tables code b t.now) space.out space.start space.entry result }
{
    let points = judge_tables(kind, t)?;
    let lengths = judge_length(state.words, f, t.counts.len(), points);
    let (content, after) = lengths.ok_or(AddError::Long)?;
    let size = record_bytes(content);
    judge_room(size, space)?;
    Ok(Judged {
        kind,
        content,
        after,
        size,
    })
}

// All that is judged, in document 01's order.
pub(crate) fn judge(state: State, code: i32, t: &Tables, space: Space) -> Result<Judged, AddError>
    ensures { (b : BBoxZ) → Judges state (lent_tables code b t.now) space.out space.start space.entry result }
{
    let (kind, formula) = judge_kind(state, code)?;
    judge_shape(state, code, kind, formula, t, space)
}
