// Writing a pair record by record: the state, adding a record, finishing.
#![tactic(auto)]

ghost use Rattle.std.specs.Prelude.{◌≡◌};
ghost use Rattle.writer.specs.Adding.{lent_tables, Adds, adding, kind_refused};
ghost use Rattle.writer.specs.Finishing.{Finishes};

use format::kinds::UnknownKind;
use format::lengths::KindError;
use format::shapes::Tables;
use format::units::Words;
use header::Header;
use header::bbox::BBoxZ;
use judge::Space;

mod judge;
mod record;
pub mod states;

// The words written so far, the next record's number, the kind's code, the points written so far and the header's box. (A plain struct for C, as
// `mbenaruul_add_record` takes it: a fresh state has kind 0, and no `Option`.)
#[repr(C)]
#[derive(Clone, Copy)]
pub struct State {
    pub words: Words,
    pub number: i32,
    pub kind: i32,
    pub points: u32,
    pub bbox: BBoxZ,
}

// Why a record is not added: no writer state, the kind's code, the kind beside the file's, the tables, a count that leaves i32, or the bytes that a buffer has to have.
#[derive(Clone, Copy, Debug, PartialEq, Eq)]
pub enum AddError {
    Size,
    Unknown(i32),
    NotTaken(i32),
    Mismatch { held: i32, found: i32 },
    Tables,
    Long,
    Room(usize),
}

impl From<KindError> for AddError {
    ghost from_gives = { λ e r. r ≡ kind_refused e };

    fn from(e: KindError) -> AddError {
        match e {
            KindError::Unknown(code) => AddError::Unknown(code),
            KindError::NotTaken(code) => AddError::NotTaken(code),
        }
    }
}

// How many bytes the record took, or why it was refused; and the state after the call: a refusal returns the one that it was given, as `Adds` promises.
#[derive(Clone, Copy)]
pub struct Adding {
    pub answer: Result<usize, AddError>,
    pub state: State,
}

// The value is no writer state.
#[derive(Clone, Copy, Debug, PartialEq, Eq)]
pub struct NoState;

// A state's kind is in the table. (There is nothing to promise: `NoState` has one value.)
impl From<UnknownKind> for NoState {
    fn from(_e: UnknownKind) -> NoState {
        NoState
    }
}

// The headers of both files.
#[derive(Clone, Copy)]
pub struct Headers {
    pub shp: [u8; 100],
    pub shx: [u8; 100],
}

// Both headers of the files that the state has come to; the state stays as it is.
pub fn finish(s: State) -> Result<Headers, NoState>
    ensures { Finishes s result }
{
    if !states::state_fine(s) {
        return Err(NoState);
    }
    let shp = Header {
        file_length: s.words,
        version: 1000,
        shape_type: s.kind,
        bbox: boxes::settle(s.bbox),
    };
    let shx = Header {
        file_length: states::index_words(s.number),
        ..shp
    };
    Ok(Headers {
        shp: header::header_bytes(shp)?,
        shx: header::header_bytes(shx)?,
    })
}

// The record goes into the output from `start` on, and its index entry into the first 8 bytes of `entry`. All is judged before the first byte.
pub fn add_record(
    state: State,
    code: i32,
    bbox: BBoxZ,
    t: &Tables,
    out: &mut [u8],
    start: usize,
    entry: &mut [u8],
) -> Adding
    ensures { Adds state (lent_tables code bbox t.now) out.old start entry.old result out.new entry.new }
{
    let space = Space {
        out: out.len(),
        start,
        entry: entry.len(),
    };
    match judge::judge(state, code, t, space) {
        Err(refusal) => Adding {
            answer: Err(refusal),
            state,
        },
        Ok(judged) => {
            let kind = record::next_kind(state, code);
            let points = record::next_points(state, t.xs.len());
            let bounds = record::next_box(state, code, judged.kind, bbox, t);
            record::put_record(&mut out[start..], state.number, code, judged, bbox, t);
            record::put_two(entry, state.words.0, judged.content);
            Adding {
                answer: Ok(judge::in_memory(judged.size)),
                state: record::next_state(state.number, judged.after, kind, points, bounds),
            }
        }
    }
}

// The same over a state that is lent, and advanced by the call; a refusal leaves it as it is.
pub fn write_shape(
    state: &mut State,
    code: i32,
    bbox: BBoxZ,
    t: &Tables,
    out: &mut [u8],
    start: usize,
    entry: &mut [u8],
) -> Result<usize, AddError>
    ensures { Adds state.old (lent_tables code bbox t.now) out.old start entry.old (adding result state.new) out.new entry.new }
{
    let added = add_record(*state, code, bbox, t, out, start, entry);
    *state = added.state;
    added.answer
}
