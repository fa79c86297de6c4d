// Part 7: a run of points is judged for closed and turning and then closed, in stores with room behind it and in ones that it fills.
ghost use Rattle.std.specs.Prelude.{◌*◌, ◌≤◌, length};

use crate::cases::Case;
use crate::given::Given;
use crate::seen::Seen;
use crate::stores::{self, Filler, Stores, first, is_left};
use rings::{RingType, TooFew};

// What a case has for an answer: 1 or 0, or the refusal's number.
fn closed(xs: &[f64], ys: &[f64], n: usize) -> u8 {
    match rings::is_part_closed(xs, ys, n) {
        Ok(closed) => u8::from(closed),
        Err(TooFew) => 10,
    }
}

fn inner(xs: &[f64], ys: &[f64], n: usize) -> u8 {
    match rings::ring_type_from_points_ordering(xs, ys, n) {
        Ok(RingType::OuterRing) => 0,
        Ok(RingType::InnerRing) => 1,
        Err(TooFew) => 10,
    }
}

// The closed run of k points, and the rest of both stores as it was.
fn is_stored(seen: Seen<'_>, k: usize, xs: &[f64], ys: &[f64]) -> bool {
    seen.count(k)
        .doubles(first(xs, k))
        .doubles(first(ys, k))
        .is_whole()
        && is_left(xs, k)
        && is_left(ys, k)
}

// The n points of the input, all x before all y, at the front of both stores.
fn lay(input: &[u8], n: usize, xs: &mut [f64], ys: &mut [f64])
    requires { (16 * n ≤ length input.now) × (n ≤ length xs.old) × (n ≤ length ys.old) }
{
    xs.fill(f64::FILLER);
    ys.fill(f64::FILLER);
    fields::read_doubles(input, 0, &mut xs[..n]);
    fields::read_doubles(input, 8 * n, &mut ys[..n]);
}

fn run(case: Case<'_>, xs: &mut [f64], ys: &mut [f64]) -> bool {
    let n = case.input.len() / 16;
    if xs.len() < n || ys.len() < n {
        return false;
    }
    lay(case.input, n, xs, ys);
    let seen = case.seen().byte(closed(xs, ys, n)).byte(inner(xs, ys, n));
    rings::close_points_if_not_already(xs, ys, n).is_ok_and(|k| is_stored(seen, k, xs, ys))
}

fn run_into(case: Case<'_>, room: usize, stores: &mut Stores) -> bool {
    let Some(xs) = stores::first_mut(&mut stores.xs, room) else {
        return false;
    };
    let Some(ys) = stores::first_mut(&mut stores.ys, room) else {
        return false;
    };
    run(case, xs, ys)
}

// The input is whole points, an x and a y for each; the expected answer says how many the closed run has.
pub fn ring(case: Case<'_>, stores: &mut Stores) -> bool {
    let k = Given::starting_at(case.expected, 2).count();
    case.input.len() % 16 == 0 && run_into(case, k + 2, stores) && run_into(case, k, stores)
}
