// Parts 8 and 9: bodies, and whole files but for bytes 36 to 99 of their headers, written into outputs with room behind them and into ones that
// they fill. All bytes behind what is written stay.
use crate::cases::Case;
use crate::given::Given;
use crate::seen::Seen;
use crate::stores::{Filler, Stores, first, first_mut, is_left};
use format::shapes::{Layout, Tables};
use header::bbox::BBoxZ;
use layouts::LayoutError;
use writer::State;

fn write(
    layout: Layout,
    bounds: BBoxZ,
    tables: &Tables<'_>,
    out: &mut [u8],
) -> Result<usize, LayoutError> {
    let Tables {
        counts,
        xs,
        ys,
        zs,
        ms,
    } = *tables;
    match (layout.parts, layout.z, layout.m) {
        (true, false, false) => layouts::write_point_shape(out, bounds, counts, xs, ys),
        (true, false, true) => layouts::write_point_m_shape(out, bounds, counts, xs, ys, ms),
        (true, true, true) => layouts::write_point_z_shape(out, bounds, counts, xs, ys, zs, ms),
        _ => {
            let multipoint = Layout {
                parts: false,
                ..layout
            };
            layouts::write_body(out, multipoint, bounds, tables)
        }
    }
}

// With room for so many bytes more than are expected, the first bytes of the output are those, and the rest is as it was.
fn body_into(
    case: Case<'_>,
    more: usize,
    bounds: BBoxZ,
    tables: &Tables<'_>,
    out: &mut [u8],
) -> bool {
    let Some(out) = first_mut(out, case.expected.len().saturating_add(more)) else {
        return false;
    };
    out.fill(u8::FILLER);
    let Ok(n) = write(case.layout(), bounds, tables, out) else {
        return false;
    };
    case.seen().bytes(first(out, n)).is_whole() && is_left(out, n)
}

pub fn body_written(case: Case<'_>, stores: &mut Stores, out: &mut [u8]) -> bool {
    let mut given = case.given();
    let Some(shape) = given.shape(stores) else {
        return false;
    };
    let tables = stores.tables(shape.sizes);
    given.is_at_end()
        && body_into(case, 5, shape.bounds, &tables, out)
        && body_into(case, 0, shape.bounds, &tables, out)
}

// The writer's state, how many bytes of records were written, and what was seen of the entries.
#[derive(Clone, Copy)]
struct Progress<'a> {
    state: State,
    written: usize,
    entries: Seen<'a>,
}

impl<'a> Progress<'a> {
    fn new(entries: &'a [u8]) -> Self {
        Progress {
            state: State::new(),
            written: 0,
            entries: Seen::new(entries),
        }
    }

    // After a record of a shape, with so many bytes lent for its index entry; none, where it is refused or writes behind its entry.
    fn add(
        self,
        code: i32,
        room: usize,
        bounds: BBoxZ,
        tables: &Tables<'_>,
        out: &mut [u8],
    ) -> Option<Self> {
        let mut entry = [u8::FILLER; 13];
        let lent = &mut entry[..room.min(13)];
        let added = writer::add_record(self.state, code, bounds, tables, out, self.written, lent);
        match added.answer {
            Ok(size) if is_left(&entry, 8) => Some(Progress {
                state: added.state,
                written: self.written.saturating_add(size),
                entries: self.entries.bytes(first(&entry, 8)),
            }),
            _ => None,
        }
    }

    fn is_finished(self, rest: &[u8], out: &[u8]) -> bool {
        let Ok(headers) = writer::finish(self.state) else {
            return false;
        };
        let seen = Seen::new(rest)
            .bytes(first(&headers.shp, 36))
            .bytes(first(out, self.written))
            .bytes(first(&headers.shx, 36));
        self.entries.is_whole() && seen.is_whole() && is_left(out, self.written)
    }
}

// What goes into files and what is expected of them: the first 36 bytes of the .shp, its records and the first 36 bytes of the .shx; and all entries.
#[derive(Clone, Copy)]
struct Files<'a> {
    given: Given<'a>,
    rest: &'a [u8],
    entries: &'a [u8],
}

impl<'a> Files<'a> {
    // The expected entries stand behind the rest.
    fn new(case: Case<'a>) -> Option<Self> {
        let entries = 8 * Given::starting_at(case.input, 4).count();
        let at = case.expected.len().checked_sub(entries)?;
        let (rest, entries) = case.expected.split_at(at);
        Some(Files {
            given: case.given(),
            rest,
            entries,
        })
    }

    // All shapes that are given in turn, and nothing behind them.
    fn add_all(self, room: usize, stores: &mut Stores, out: &mut [u8]) -> Option<Progress<'a>> {
        let mut given = self.given;
        let code = given.int();
        let shapes = given.count();
        let mut progress = Progress::new(self.entries);
        for _ in 0..shapes {
            let shape = given.shape(stores)?;
            let tables = stores.tables(shape.sizes);
            progress = progress.add(code, room, shape.bounds, &tables, out)?;
        }
        given.is_at_end().then_some(progress)
    }

    // With room for so many bytes more than are written.
    fn are_written(self, more: usize, stores: &mut Stores, out: &mut [u8]) -> bool {
        let Some(records) = self.rest.len().checked_sub(72) else {
            return false;
        };
        let Some(out) = first_mut(out, records.saturating_add(more)) else {
            return false;
        };
        out.fill(u8::FILLER);
        let Some(progress) = self.add_all(more.saturating_add(8), stores, out) else {
            return false;
        };
        progress.is_finished(self.rest, out)
    }
}

pub fn files_written(case: Case<'_>, stores: &mut Stores, out: &mut [u8]) -> bool {
    let Some(files) = Files::new(case) else {
        return false;
    };
    files.are_written(5, stores, out) && files.are_written(0, stores, out)
}
