// What comes out of a call is held to the expected bytes as it comes. A cursor goes along by value; nothing is asked of a caller.
use header::bbox::BBoxZ;

// What was not yet seen of the expected bytes; none, once something was not the same.
#[derive(Clone, Copy)]
pub struct Seen<'a> {
    rest: Option<&'a [u8]>,
}

impl<'a> Seen<'a> {
    pub fn new(expected: &'a [u8]) -> Self {
        Seen {
            rest: Some(expected),
        }
    }

    // All of the expected bytes were seen, and all was the same.
    pub fn is_whole(self) -> bool {
        self.rest.is_some_and(|rest| rest.is_empty())
    }

    pub fn bytes(self, found: &[u8]) -> Self {
        Seen {
            rest: self.rest.and_then(|rest| rest.strip_prefix(found)),
        }
    }

    pub fn byte(self, found: u8) -> Self {
        self.bytes(&[found])
    }

    pub fn word(self, found: u32) -> Self {
        self.bytes(&found.to_le_bytes())
    }

    pub fn int(self, found: i32) -> Self {
        self.bytes(&found.to_le_bytes())
    }

    pub fn long(self, found: u64) -> Self {
        self.bytes(&found.to_le_bytes())
    }

    // A number of entries, which the expected bytes have as a word.
    pub fn count(self, found: usize) -> Self {
        match u32::try_from(found) {
            Ok(word) => self.word(word),
            Err(_) => Seen { rest: None },
        }
    }

    pub fn double(self, found: f64) -> Self {
        self.long(fields::bits(found))
    }

    pub fn words(self, found: &[u32]) -> Self {
        found.iter().fold(self, |seen, n| seen.word(*n))
    }

    pub fn doubles(self, found: &[f64]) -> Self {
        found.iter().fold(self, |seen, x| seen.double(*x))
    }

    pub fn bounds(self, b: BBoxZ) -> Self {
        self.doubles(&[
            b.xmin, b.ymin, b.xmax, b.ymax, b.zmin, b.zmax, b.mmin, b.mmax,
        ])
    }

    // A refusal's number and its value, as a case has them, and nothing more. (The numbers are bytes of a case, and not taken from `export`, which is tested by them.)
    pub fn is_refusal(self, which: u8, value: u64) -> bool {
        self.byte(which).long(value).is_whole()
    }

    pub fn is_refusal_at(self, which: u8, place: usize) -> bool {
        self.is_refusal(which, place as u64)
    }

    pub fn is_refusal_of(self, which: u8, code: i32) -> bool {
        self.is_refusal(which, u64::from(code.cast_unsigned()))
    }
}
