// Writing a pair record by record: the caller keeps the state between the calls.
ghost use Rattle.std.specs.Prelude.{◌≡◌, Err};
ghost use Rattle.writer.specs.Adding.{lent, said_add};
ghost use Rattle.writer.specs.Finishing.{said_finish};
ghost use Rattle.writer.specs.State.{fresh};
ghost use Rattle.export.specs.Refusals.{refusal_of};
ghost use Rattle.export.specs.Writing.{written, added, added_with, AddsRecord, headers_finished, finished};

use crate::refusals;
use crate::refusals::Refusal;
use format::shapes::Tables;
use header::bbox::BBoxZ;
use writer::{AddError, Adding, Headers, NoState, State};

// How many bytes the record took, and the state for the next one; a refusal returns the state that it was given.
#[repr(C)]
#[derive(Clone, Copy)]
pub struct Added {
    pub refusal: Refusal,
    pub bytes: usize,
    pub state: State,
}

// How many bytes the record took, where the state is lent.
#[repr(C)]
#[derive(Clone, Copy)]
pub struct Written {
    pub refusal: Refusal,
    pub bytes: usize,
}

// Both headers; zeros, where there was no writer state.
#[repr(C)]
#[derive(Clone, Copy)]
pub struct Finished {
    pub refusal: Refusal,
    pub shp: [u8; 100],
    pub shx: [u8; 100],
}

impl From<AddError> for Refusal {
    ghost from_gives = { λ e r. r ≡ refusal_of (said_add (Err e)) };

    fn from(e: AddError) -> Refusal {
        match e {
            AddError::Size => Refusal::with_numbers(refusals::SIZE, 0, 0),
            AddError::Unknown(code) => Refusal::with_codes(refusals::UNKNOWN, code, 0),
            AddError::NotTaken(code) => Refusal::with_codes(refusals::NOT_TAKEN, code, 0),
            AddError::Mismatch { held, found } => Refusal::with_codes(
                refusals::MISMATCH,
                held,
                found,
            ),
            AddError::Tables => Refusal::with_numbers(refusals::TABLES, 0, 0),
            AddError::Long => Refusal::with_numbers(refusals::LONG, 0, 0),
            AddError::Room(bytes) => Refusal::with_numbers(refusals::ROOM, bytes, 0),
        }
    }
}

impl From<NoState> for Refusal {
    ghost from_gives = { λ e r. r ≡ refusal_of (said_finish (Err e)) };

    fn from(_e: NoState) -> Refusal {
        Refusal::with_numbers(refusals::SIZE, 0, 0)
    }
}

impl From<Result<usize, AddError>> for Written {
    ghost from_gives = { λ a w. w ≡ written (said_add a) };

    fn from(a: Result<usize, AddError>) -> Written {
        match a {
            Ok(bytes) => Written {
                refusal: Refusal::NONE,
                bytes,
            },
            Err(e) => Written {
                refusal: Refusal::from(e),
                bytes: 0,
            },
        }
    }
}

impl From<Adding> for Added {
    ghost from_gives = { λ a r. r ≡ added (said_add a.answer) a.state };

    fn from(a: Adding) -> Added {
        let written = Written::from(a.answer);
        Added {
            refusal: written.refusal,
            bytes: written.bytes,
            state: a.state,
        }
    }
}

impl From<Result<Headers, NoState>> for Finished {
    ghost from_gives = { λ a r. r ≡ headers_finished (said_finish a) };

    fn from(a: Result<Headers, NoState>) -> Finished {
        match a {
            Ok(headers) => {
                let shp = headers.shp;
                let shx = headers.shx;
                Finished {
                    refusal: Refusal::NONE,
                    shp,
                    shx,
                }
            }
            Err(e) => Finished {
                refusal: Refusal::from(e),
                shp: [0; 100],
                shx: [0; 100],
            },
        }
    }
}

pub fn mbenaruul_new() -> State
    ensures { result ≡ fresh }
{
    State::new()
}

// C lends each table apart.
pub fn mbenaruul_add_record(
    state: State,
    code: i32,
    bbox: BBoxZ,
    counts: &[u32],
    x: &[f64],
    y: &[f64],
    z: &[f64],
    m: &[f64],
    out: &mut [u8],
    start: usize,
    entry: &mut [u8],
) -> Added
    ensures { AddsRecord state (lent code bbox counts.now x.now y.now z.now m.now) out.old start entry.old result out.new entry.new }
{
    let tables = Tables {
        counts,
        xs: x,
        ys: y,
        zs: z,
        ms: m,
    };
    Added::from(writer::add_record(state, code, bbox, &tables, out, start, entry))
}

// The same over a state that is lent, and advanced by the call; a refusal leaves it as it is.
pub fn mbenaruul_write_shape(
    state: &mut State,
    code: i32,
    bbox: BBoxZ,
    counts: &[u32],
    x: &[f64],
    y: &[f64],
    z: &[f64],
    m: &[f64],
    out: &mut [u8],
    start: usize,
    entry: &mut [u8],
) -> Written
    ensures { AddsRecord state.old (lent code bbox counts.now x.now y.now z.now m.now) out.old start entry.old (added_with result state.new) out.new entry.new }
{
    let tables = Tables {
        counts,
        xs: x,
        ys: y,
        zs: z,
        ms: m,
    };
    Written::from(writer::write_shape(state, code, bbox, &tables, out, start, entry))
}

pub fn mbenaruul_finish(state: State) -> Finished
    ensures { result ≡ finished state }
{
    Finished::from(writer::finish(state))
}
