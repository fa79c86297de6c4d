// The stream of cases: blocks, each a length (u32, at most the buffer's) and whole cases, up to a block of length 0.
ghost use Rattle.std.specs.Prelude.{◌≤◌, length};

use crate::answers;
use crate::cases::{Case, Cases};
use crate::stores::Stores;
use std::fmt;
use std::io::Read;

pub const MEBIBYTE: usize = 1048576;

// How many cases there were, how many were wrong, and the number of the first wrong one; and whether the stream did not have its form.
#[derive(Clone, Copy, Default)]
pub struct Tally {
    pub cases: u64,
    pub wrong: u64,
    pub first: Option<u64>,
    pub broken: bool,
}

impl Tally {
    // One case more.
    fn counted(self, same: bool) -> Self {
        let cases = self.cases.wrapping_add(1);
        if same {
            return Tally { cases, ..self };
        }
        Tally {
            cases,
            wrong: self.wrong.wrapping_add(1),
            first: self.first.or(Some(cases)),
            ..self
        }
    }

    fn broken(self) -> Self {
        Tally {
            broken: true,
            ..self
        }
    }
}

impl fmt::Display for Tally {
    fn fmt<W: fmt::Write>(&self, f: &mut fmt::Formatter<W>) -> fmt::Result {
        let (cases, wrong) = (self.cases, self.wrong);
        let first = self.first.unwrap_or(0);
        let broken = u8::from(self.broken);
        write!(
            f,
            "cases={cases} wrong={wrong} first={first} broken={broken}"
        )
    }
}

// The cases of a block are run and counted. What does not have a case's form is none.
fn tally_block(block: &[u8], before: Tally, stores: &mut Stores, out: &mut [u8]) -> Tally {
    let mut tally = before;
    for bytes in (Cases { rest: block }) {
        tally = match Case::parse(bytes) {
            Some(case) => tally.counted(answers::is_same(case, stores, out)),
            None => tally.broken(),
        };
    }
    tally
}

// Reads until the buffer is full, the input ends or a read fails, and says how many bytes there are at its front. (`read_exact` would not say how many;
// the one of `report` hands a read that fails on, and here it is an end.)
fn read_full(input: &mut impl Read, buffer: &mut [u8]) -> usize
    ensures { result ≤ length buffer.new }
{
    let mut done = 0;
    while done < buffer.len() {
        let n = input.read(&mut buffer[done..]).unwrap_or(0);
        if n == 0 {
            break;
        }
        done += n;
    }
    done
}

// The length of the next block, unless the input ends.
fn next_length(input: &mut impl Read) -> Option<usize> {
    let mut four = [0; 4];
    if read_full(input, &mut four) < 4 {
        return None;
    }
    Some(u32::from_le_bytes(four) as usize)
}

// Block after block, up to one of length 0 or until the stream is broken.
pub fn run(
    input: &mut impl Read,
    buffer: &mut [u8; MEBIBYTE],
    stores: &mut Stores,
    out: &mut [u8; MEBIBYTE],
) -> Tally {
    let buffer = &mut buffer[..];
    let mut tally = Tally::default();
    // the input ends it: a loop has to have a bound
    for _ in 0..u64::MAX {
        // where the input ends in a length the stream is broken, and what may still come behind that end (as on a terminal) is run as its last block
        let length = next_length(input).unwrap_or(usize::MAX);
        let room = length.min(buffer.len());
        let came = read_full(input, &mut buffer[..room]);
        if came < length {
            tally = tally.broken();
        }
        tally = tally_block(&buffer[..came], tally, stores, out);
        if length == 0 || tally.broken {
            break;
        }
    }
    tally
}
