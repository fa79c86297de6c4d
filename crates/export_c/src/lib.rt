// The exported symbols of libexport.a: each calls the function of its own name in `export`, and states that function's clauses again.
// include/mbenaruul.h declares them.
#![tactic(auto)]

ghost use Rattle.std.specs.Prelude.{◌≡◌};
ghost use Rattle.header.specs.Reading.{header_of};
ghost use Rattle.header.specs.Entries.{two_of, record_header, shape_index};
ghost use Rattle.rings.specs.Answers.{closed_of, turning_of};
ghost use Rattle.writer.specs.Adding.{lent};
ghost use Rattle.writer.specs.State.{fresh};
ghost use Rattle.export.specs.Headers.{header_read, record_header_read, index_entry_read};
ghost use Rattle.export.specs.Pairs.{ChecksPair};
ghost use Rattle.export.specs.Records.{Reads};
ghost use Rattle.export.specs.Runs.{closed_told, turning_told, ClosesRun};
ghost use Rattle.export.specs.Writing.{added_with, AddsRecord, finished};

use export::headers::{HeaderRead, IndexEntryRead, RecordHeaderRead};
use export::pairs::PairChecked;
use export::records::RecordRead;
use export::runs::Told;
use export::writing::{Added, Finished, Written};
use export::{headers, pairs, records, runs, writing};
use header::bbox::BBoxZ;
use writer::State;

#[unsafe(no_mangle)]
pub extern "C" fn mbenaruul_read_header(bytes: &[u8]) -> HeaderRead
    ensures { result ≡ header_read (header_of bytes.now) }
{
    headers::mbenaruul_read_header(bytes)
}

#[unsafe(no_mangle)]
pub extern "C" fn mbenaruul_read_record_header(bytes: &[u8]) -> RecordHeaderRead
    ensures { result ≡ record_header_read (two_of record_header bytes.now) }
{
    headers::mbenaruul_read_record_header(bytes)
}

#[unsafe(no_mangle)]
pub extern "C" fn mbenaruul_read_index_entry(bytes: &[u8]) -> IndexEntryRead
    ensures { result ≡ index_entry_read (two_of shape_index bytes.now) }
{
    headers::mbenaruul_read_index_entry(bytes)
}

// Any kind that is taken.
#[unsafe(no_mangle)]
pub extern "C" fn mbenaruul_read_record(
    content: &[u8],
    size: i64,
    counts: &mut [u32],
    x: &mut [f64],
    y: &mut [f64],
    z: &mut [f64],
    m: &mut [f64],
) -> RecordRead
    ensures { Reads None size content.now counts.old x.old y.old z.old m.old result counts.new x.new y.new z.new m.new }
{
    records::mbenaruul_read_record(content, size, counts, x, y, z, m)
}

// One kind only.
#[unsafe(no_mangle)]
pub extern "C" fn mbenaruul_read_record_of(
    wanted: i32,
    content: &[u8],
    size: i64,
    counts: &mut [u32],
    x: &mut [f64],
    y: &mut [f64],
    z: &mut [f64],
    m: &mut [f64],
) -> RecordRead
    ensures { Reads (Some wanted) size content.now counts.old x.old y.old z.old m.old result counts.new x.new y.new z.new m.new }
{
    records::mbenaruul_read_record_of(wanted, content, size, counts, x, y, z, m)
}

#[unsafe(no_mangle)]
pub extern "C" fn mbenaruul_is_part_closed(x: &[f64], y: &[f64], n: usize) -> Told
    ensures { result ≡ closed_told (closed_of x.now y.now n) }
{
    runs::mbenaruul_is_part_closed(x, y, n)
}

#[unsafe(no_mangle)]
pub extern "C" fn mbenaruul_ring_type_from_points_ordering(x: &[f64], y: &[f64], n: usize) -> Told
    ensures { result ≡ turning_told (turning_of x.now y.now n) }
{
    runs::mbenaruul_ring_type_from_points_ordering(x, y, n)
}

#[unsafe(no_mangle)]
pub extern "C" fn mbenaruul_close_points_if_not_already(
    x: &mut [f64],
    y: &mut [f64],
    n: usize,
) -> Told
    ensures { ClosesRun x.old y.old n result x.new y.new }
{
    runs::mbenaruul_close_points_if_not_already(x, y, n)
}

#[unsafe(no_mangle)]
pub extern "C" fn mbenaruul_check_pair(shp: &[u8], shx: &[u8]) -> PairChecked
    ensures { ChecksPair shp.now shx.now result }
{
    pairs::mbenaruul_check_pair(shp, shx)
}

#[unsafe(no_mangle)]
pub extern "C" fn mbenaruul_new() -> State
    ensures { result ≡ fresh }
{
    writing::mbenaruul_new()
}

#[unsafe(no_mangle)]
pub extern "C" fn mbenaruul_add_record(
    state: State,
    code: i32,
    bbox: BBoxZ,
    counts: &[u32],
    x: &[f64],
    y: &[f64],
    z: &[f64],
    m: &[f64],
    out: &mut [u8],
    start: usize,
    entry: &mut [u8],
) -> Added
    ensures { AddsRecord state (lent code bbox counts.now x.now y.now z.now m.now) out.old start entry.old result out.new entry.new }
{
    writing::mbenaruul_add_record(state, code, bbox, counts, x, y, z, m, out, start, entry)
}

// The same over a state that is lent, and advanced by the call; a refusal leaves it as it is.
#[unsafe(no_mangle)]
pub extern "C" fn mbenaruul_write_shape(
    state: &mut State,
    code: i32,
    bbox: BBoxZ,
    counts: &[u32],
    x: &[f64],
    y: &[f64],
    z: &[f64],
    m: &[f64],
    out: &mut [u8],
    start: usize,
    entry: &mut [u8],
) -> Written
    ensures { AddsRecord state.old (lent code bbox counts.now x.now y.now z.now m.now) out.old start entry.old (added_with result state.new) out.new entry.new }
{
    writing::mbenaruul_write_shape(state, code, bbox, counts, x, y, z, m, out, start, entry)
}

#[unsafe(no_mangle)]
pub extern "C" fn mbenaruul_finish(state: State) -> Finished
    ensures { result ≡ finished state }
{
    writing::mbenaruul_finish(state)
}
