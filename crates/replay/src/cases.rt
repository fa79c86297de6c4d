// A block of the stream is cut into its cases. rust/differential/cases.rs says what a case is.
ghost use Rattle.std.specs.Prelude.{length};
ghost use Rattle.std.specs.Iterator.{at_most};

use crate::given::Given;
use crate::seen::Seen;
use format::shapes::Layout;

// Which call of the library a case is of.
#[derive(Clone, Copy)]
pub enum Part {
    HeaderRead,
    HeaderWritten,
    RecordHeaderRead,
    EntriesWritten,
    PartCounted,
    BodyRead,
    Ring,
    BodyWritten,
    FilesWritten,
    LesserAndGreater,
}

// A number that no part has.
#[derive(Clone, Copy)]
pub struct UnknownPart(pub u8);

impl TryFrom<u8> for Part {
    type Error = UnknownPart;

    fn try_from(number: u8) -> Result<Part, UnknownPart> {
        Ok(match number {
            1 => Part::HeaderRead,
            2 => Part::HeaderWritten,
            3 => Part::RecordHeaderRead,
            4 => Part::EntriesWritten,
            5 => Part::PartCounted,
            6 => Part::BodyRead,
            7 => Part::Ring,
            8 => Part::BodyWritten,
            9 => Part::FilesWritten,
            10 => Part::LesserAndGreater,
            _ => return Err(UnknownPart(number)),
        })
    }
}

// The number of a case's part, what goes into the call and what is to come out of it.
#[derive(Clone, Copy)]
pub struct Case<'a> {
    pub part: u8,
    pub flags: u8,
    pub input: &'a [u8],
    pub expected: &'a [u8],
}

impl<'a> Case<'a> {
    // A whole case is its length, part, flags, two bytes of nothing, the input's length, the input, the expected answer.
    pub fn parse(bytes: &'a [u8]) -> Option<Case<'a>> {
        let (head, rest) = bytes.split_first_chunk::<12>()?;
        let [a, b, c, d, part, flags, _, _, i, j, k, l] = *head;
        if u32::from_le_bytes([a, b, c, d]) as usize != bytes.len() - 4 {
            return None;
        }
        let (input, expected) = rest.split_at_checked(u32::from_le_bytes([i, j, k, l]) as usize)?;
        Some(Case {
            part,
            flags,
            input,
            expected,
        })
    }

    pub fn given(self) -> Given<'a> {
        Given::new(self.input)
    }

    pub fn seen(self) -> Seen<'a> {
        Seen::new(self.expected)
    }

    // The flags are 1 for z, 2 for m, 4 for a multipoint.
    pub fn layout(self) -> Layout {
        Layout {
            parts: self.flags < 4,
            z: self.flags & 1 != 0,
            m: self.flags & 2 != 0,
        }
    }
}

// The bytes of each case of a block.
#[derive(Drop)]
pub struct Cases<'a> {
    pub rest: &'a [u8],
}

impl<'a> Iterator for Cases<'a> {
    type Item = &'a [u8];

    ghost remaining = { λ s. at_most (length s.rest.now) };

    // A case begins with the length of what follows; where that does not fit, all that is left is one.
    fn next(&mut self) -> Option<&'a [u8]> {
        let rest = self.rest;
        if rest.is_empty() {
            return None;
        }
        let (case, after) = rest
            .split_first_chunk()
            .and_then(|(four, _)| rest.split_at_checked(4 + u32::from_le_bytes(*four) as usize))
            .unwrap_or(rest.split_at(rest.len()));
        self.rest = after;
        Some(case)
    }
}
