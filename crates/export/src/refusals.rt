// A refusal as C has it: document 01's number, and its values. What a refusal does not have is 0, and so is all where none is.
ghost use Rattle.std.specs.Prelude.{◌≡◌, [], ◌∷◌, pos};
ghost use Rattle.export.specs.Refusals.{refusal};

use format::shapes::Short;

// The numbers are what crosses to C, so they are no enum.
pub(crate) const SHORT: u32 = 1;

pub(crate) const CODE: u32 = 2;

pub(crate) const SIZE: u32 = 3;

pub(crate) const UNKNOWN: u32 = 4;

pub(crate) const MISMATCH: u32 = 5;

pub(crate) const ROOM: u32 = 6;

pub(crate) const LONG: u32 = 7;

pub(crate) const FAULT: u32 = 8;

pub(crate) const NOT_TAKEN: u32 = 9;

pub(crate) const TABLES: u32 = 10;

#[repr(C)]
#[derive(Clone, Copy)]
pub struct Refusal {
    pub number: u32,
    pub first: u64,
    pub second: u64,
}

impl Refusal {
    pub(crate) const NONE: Refusal = Refusal {
        number: 0,
        first: 0,
        second: 0,
    };

    // An offset, how many bytes, or both; how many parts and points; 0, where document 01 returns 0.
    pub(crate) fn with_numbers(number: u32, first: usize, second: usize) -> Refusal
        ensures { result ≡ refusal number (pos first ∷ pos second ∷ []) }
    {
        Refusal {
            number,
            first: first as u64,
            second: second as u64,
        }
    }

    // A code crosses as its 32 bits.
    pub(crate) fn with_codes(number: u32, first: i32, second: i32) -> Refusal
        ensures { result ≡ refusal number (first ∷ second ∷ []) }
    {
        Refusal {
            number,
            first: fields::unsigned(first),
            second: fields::unsigned(second),
        }
    }
}

impl From<Short> for Refusal {
    ghost from_gives = { λ e r. r ≡ refusal 1 (pos e.at ∷ pos e.present ∷ []) };

    fn from(e: Short) -> Refusal {
        Refusal::with_numbers(SHORT, e.at, e.present)
    }
}
