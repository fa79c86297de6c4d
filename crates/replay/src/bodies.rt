// Part 6: a body, in parts or as a multipoint, is read into stores with room behind it, and again into stores that it fills. All entries behind it
// stay, and a refusal stores nothing.
use crate::cases::Case;
use crate::given::Given;
use crate::seen::Seen;
use crate::stores::{Filler, Lent, Sizes, Stores, first, is_left};
use format::shapes::{Layout, Short, Tables};
use multipart::{BBox, Body, BodyError};

// What a body holds beside what goes into the stores.
fn head(seen: Seen<'_>, body: Body) -> Seen<'_> {
    let BBox {
        xmin,
        ymin,
        xmax,
        ymax,
    } = body.bbox;
    seen.byte(0)
        .doubles(&[xmin, ymin, xmax, ymax])
        .doubles(&[body.z_range.low, body.z_range.high])
        .doubles(&[body.m_range.low, body.m_range.high])
        .count(body.parts)
        .count(body.points)
}

// All entries from these places on are as they were filled.
fn are_left(tables: &Tables<'_>, sizes: Sizes) -> bool {
    is_left(tables.counts, sizes.counts)
        && is_left(tables.xs, sizes.xs)
        && is_left(tables.ys, sizes.ys)
        && is_left(tables.zs, sizes.zs)
        && is_left(tables.ms, sizes.ms)
}

// So many values of each store after the head, and the rest as it was.
fn is_stored(seen: Seen<'_>, body: Body, sizes: Sizes, tables: &Tables<'_>) -> bool {
    head(seen, body)
        .words(first(tables.counts, sizes.counts))
        .doubles(first(tables.xs, sizes.xs))
        .doubles(first(tables.ys, sizes.ys))
        .doubles(first(tables.zs, sizes.zs))
        .doubles(first(tables.ms, sizes.ms))
        .is_whole()
        && are_left(tables, sizes)
}

// The refusal that is expected, and nothing stored.
fn is_refused(seen: Seen<'_>, which: u8, place: usize, tables: &Tables<'_>) -> bool {
    seen.is_refusal_at(which, place) && are_left(tables, Sizes::default())
}

// An answer with the stores as they are after the call.
fn is_answer(case: Case<'_>, answer: Result<Body, BodyError>, tables: &Tables<'_>) -> bool {
    let seen = case.seen();
    match answer {
        Ok(body) => {
            let sizes = Sizes::of_body(case.layout(), body.parts, body.points);
            is_stored(seen, body, sizes, tables)
        }
        Err(BodyError::Short(Short { at, .. })) => is_refused(seen, 1, at, tables),
        Err(BodyError::Size(at)) => is_refused(seen, 3, at, tables),
        Err(BodyError::Room { .. }) => false,
    }
}

// The body is read into so many entries of each store.
fn read_into(case: Case<'_>, sizes: Sizes, stores: &mut Stores) -> bool {
    let Some(
        Lent {
            counts,
            xs,
            ys,
            zs,
            ms,
        },
    ) = stores.lend(sizes)
    else {
        return false;
    };
    counts.fill(u32::FILLER);
    xs.fill(f64::FILLER);
    ys.fill(f64::FILLER);
    zs.fill(f64::FILLER);
    ms.fill(f64::FILLER);
    let answer = multipart::read_body(case.input, case.layout(), counts, xs, ys, zs, ms);
    let tables = Tables {
        counts,
        xs,
        ys,
        zs,
        ms,
    };
    is_answer(case, answer, &tables)
}

// The expected answer says how many parts and points there are; it is shorter where the body is refused.
pub fn body_read(case: Case<'_>, stores: &mut Stores) -> bool {
    let parts = Given::starting_at(case.expected, 65).count();
    let points = Given::starting_at(case.expected, 69).count();
    let roomy = Sizes {
        counts: parts + 2,
        xs: points + 2,
        ys: points + 2,
        zs: points + 2,
        ms: points + 2,
    };
    let filled = Sizes::of_body(case.layout(), parts, points);
    read_into(case, roomy, stores) && read_into(case, filled, stores)
}
