// A record that was judged: its bytes at the front of a lent output, its index entry, and the next state.
ghost use Rattle.std.specs.Prelude.{◌≡◌, ◌++◌, ◌+◌, ◌*◌, ◌^◌, ◌≤◌, ◌<◌, pos, length};
ghost use Rattle.std.proofs.lemmas.List.Edits.{sets};
ghost use Rattle.std.specs.Int.{w32};
ghost use Rattle.std.proofs.Common.{of_z};
ghost use Rattle.format.specs.Encoding.{shape_bytes, record_bytes, two_big};
ghost use Rattle.format.specs.Numbers.{f64s_le};
ghost use Rattle.writer.specs.Adding.{held_box};
ghost use Rattle.writer.specs.Judging.{natural_of, words_of, kind_by, next_by, ReadyLent, shape_lent, words_lent, own_lent, box_lent};

use crate::State;
use crate::judge::Judged;
use crate::states::natural;
use format::kinds::Kind;
use format::lengths::has_several;
use format::shapes::{Layout, Tables};
use format::units::Words;
use header::bbox::BBoxZ;

// Two numbers at the front: a record's header is its number and its content, an index entry where the record starts and its content. (By `header`
// it would be no plainer: `entry[..8].copy_from_slice(&index_entry_bytes(ShapeIndex { offset, content_length }))`, and the like for the other.)
pub(crate) fn put_two(out: &mut [u8], first: i32, content: Words)
    requires { 8 ≤ length out.old }
    ensures { out.new ≡ sets out.old 0 (two_big (of_z w32 first) (of_z w32 content.0)) }
{
    fields::put_be_i32(out, 0, first);
    fields::put_be_i32(out, 4, content.0);
}

// A point's x, y, and z and m where there are any.
fn put_point(out: &mut [u8], t: &Tables)
    requires { (length t.now.xs.now ≡ 1) × (length t.now.ys.now ≡ 1) × (16 + 8 * length t.now.zs.now + 8 * length t.now.ms.now ≤ length out.old) }
    ensures { out.new ≡ sets out.old 0 (f64s_le t.now.xs.now ++ (f64s_le t.now.ys.now ++ (f64s_le t.now.zs.now ++ f64s_le t.now.ms.now))) }
{
    fields::write_doubles(out, 0, t.xs);
    fields::write_doubles(out, 8, t.ys);
    fields::write_doubles(out, 16, t.zs);
    fields::write_doubles(out, 16 + 8 * t.zs.len(), t.ms);
}

// What follows the kind's field, by the kind's flags.
fn put_body(out: &mut [u8], k: Kind, bbox: BBoxZ, t: &Tables)
    requires { ReadyLent k t.now (length out.old) }
    ensures { out.new ≡ sets out.old 0 (shape_bytes (shape_lent k bbox t.now)) }
{
    if has_several(k) {
        let layout = Layout {
            parts: k.parts,
            z: k.z,
            m: k.m,
        };
        // tables that were judged are not refused
        let _ = layouts::write_body(out, layout, bbox, t);
        return;
    }
    // a Null's content is its kind alone
    if k.code == 0 {
        return;
    }
    put_point(out, t);
}

// The whole record at the front of the output.
pub(crate) fn put_record(
    out: &mut [u8],
    number: i32,
    code: i32,
    judged: Judged,
    bbox: BBoxZ,
    t: &Tables,
)
    requires ready { ReadyLent judged.kind t.now (length out.old) }
    requires xs_in_bounds { 8 + 2 * words_lent judged.kind t.now ≤ length out.old }
    requires code_value { code ≡ pos judged.kind.code }
    requires content_value { judged.content ≡ words_of (words_lent judged.kind t.now) }
    ensures { out.new ≡ sets out.old 0 (record_bytes judged.kind (of_z w32 number) (shape_lent judged.kind bbox t.now)) }
{
    put_two(out, number, judged.content);
    fields::put_le_i32(out, 8, code);
    put_body(&mut out[12..], judged.kind, bbox, t);
}

// The box that a record other than Null gives to the header.
fn own_box(k: Kind, bbox: BBoxZ, t: &Tables) -> BBoxZ
    ensures { result ≡ own_lent k bbox t.now }
{
    let own = if has_several(k) {
        bbox
    } else {
        boxes::point_box(t)
    };
    boxes::flat_box(k, own)
}

// The box that it finds.
fn held_box(state: State) -> BBoxZ
    ensures { result ≡ held_box state }
{
    if state.kind == 0 {
        boxes::start_box()
    } else {
        state.bbox
    }
}

// The file's kind behind the record: Null leaves the one that it finds.
pub(crate) fn next_kind(state: State, code: i32) -> i32
    ensures { result ≡ kind_by state code }
{
    if code != 0 { code } else { state.kind }
}

// The header's box behind the record: Null leaves the one that it finds.
pub(crate) fn next_box(state: State, code: i32, k: Kind, bbox: BBoxZ, t: &Tables) -> BBoxZ
    ensures { result ≡ box_lent state code k bbox t.now }
{
    if code == 0 {
        return state.bbox;
    }
    let own = own_box(k, bbox, t);
    boxes::grow(own, held_box(state))
}

// The points of the file with these more.
pub(crate) fn next_points(state: State, more: usize) -> u32
    requires { state.points + more < 2 ^ 31 }
    ensures { result ≡ state.points + more }
{
    state.points + more as u32
}

// The state behind the record with this number, with which the file has so many words and points.
pub(crate) fn next_state(number: i32, after: Words, kind: i32, points: u32, bounds: BBoxZ) -> State
    requires { natural_of number + 1 < 2 ^ 31 }
    ensures { result ≡ next_by number after kind points bounds }
{
    let next = natural(number) + 1;
    State {
        words: after,
        number: next as i32,
        kind,
        points,
        bbox: bounds,
    }
}
