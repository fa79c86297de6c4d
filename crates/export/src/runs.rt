// Runs of points, the first n of a store of x and of one of y: whether one is closed, which way it turns, and closing it.
ghost use Rattle.std.specs.Prelude.{◌≡◌, Err};
ghost use Rattle.rings.specs.Answers.{said_closed, said_turning, said_closing, closed_of, turning_of};
ghost use Rattle.export.specs.Refusals.{not_refused, refusal_of};
ghost use Rattle.export.specs.Runs.{told, closed_told, turning_told, closing_told, ClosesRun};

use crate::refusals;
use crate::refusals::Refusal;
use rings::{CloseError, RingType, TooFew};

// What is told of a run, as a number: C reads it.
#[repr(C)]
#[derive(Clone, Copy)]
pub struct Told {
    pub refusal: Refusal,
    pub value: usize,
}

impl From<TooFew> for Refusal {
    ghost from_gives = { λ e r. r ≡ refusal_of (said_closed (Err e)) };

    fn from(_few: TooFew) -> Refusal {
        Refusal::with_numbers(refusals::TABLES, 0, 0)
    }
}

impl From<CloseError> for Refusal {
    ghost from_gives = { λ e r. r ≡ refusal_of (said_closing (Err e)) };

    fn from(e: CloseError) -> Refusal {
        match e {
            CloseError::Tables => Refusal::with_numbers(refusals::TABLES, 0, 0),
            CloseError::Room(points) => Refusal::with_numbers(refusals::ROOM, 0, points),
        }
    }
}

impl Told {
    // (Inlined always: the compiler would else copy the zeros over the stack.)
    #[inline(always)]
    fn given(value: usize) -> Told
        ensures { result ≡ told not_refused value }
    {
        Told {
            refusal: Refusal::NONE,
            value,
        }
    }

    fn refused(refusal: Refusal) -> Told
        ensures { result ≡ told refusal 0 }
    {
        Told { refusal, value: 0 }
    }
}

// 1 for closed.
impl From<Result<bool, TooFew>> for Told {
    ghost from_gives = { λ a t. t ≡ closed_told (said_closed a) };

    fn from(a: Result<bool, TooFew>) -> Told {
        match a {
            Ok(closed) => Told::given(usize::from(closed)),
            Err(e) => Told::refused(Refusal::from(e)),
        }
    }
}

// 1 for an inner ring.
impl From<Result<RingType, TooFew>> for Told {
    ghost from_gives = { λ a t. t ≡ turning_told (said_turning a) };

    fn from(a: Result<RingType, TooFew>) -> Told {
        match a {
            Ok(RingType::OuterRing) => Told::given(0),
            Ok(RingType::InnerRing) => Told::given(1),
            Err(e) => Told::refused(Refusal::from(e)),
        }
    }
}

// The points of the closed run.
impl From<Result<usize, CloseError>> for Told {
    ghost from_gives = { λ a t. t ≡ closing_told (said_closing a) };

    fn from(a: Result<usize, CloseError>) -> Told {
        match a {
            Ok(points) => Told::given(points),
            Err(e) => Told::refused(Refusal::from(e)),
        }
    }
}

pub fn mbenaruul_is_part_closed(x: &[f64], y: &[f64], n: usize) -> Told
    ensures { result ≡ closed_told (closed_of x.now y.now n) }
{
    Told::from(rings::is_part_closed(x, y, n))
}

pub fn mbenaruul_ring_type_from_points_ordering(x: &[f64], y: &[f64], n: usize) -> Told
    ensures { result ≡ turning_told (turning_of x.now y.now n) }
{
    Told::from(rings::ring_type_from_points_ordering(x, y, n))
}

pub fn mbenaruul_close_points_if_not_already(x: &mut [f64], y: &mut [f64], n: usize) -> Told
    ensures { ClosesRun x.old y.old n result x.new y.new }
{
    Told::from(rings::close_points_if_not_already(x, y, n))
}
