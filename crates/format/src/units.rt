// Lengths in 16-bit words, as a file's own fields have them, and lengths in bytes: two types, and one conversion each way.
ghost use Rattle.std.specs.Prelude.{◌≡◌};
ghost use Rattle.format.specs.Units.{in_bytes, said_words, in_words};

// A length in 16-bit words.
#[repr(C)]
#[derive(Clone, Copy, Debug, Default, PartialEq, Eq)]
pub struct Words(pub i32);

// A length in bytes.
#[derive(Clone, Copy, Debug, PartialEq, Eq)]
pub struct Bytes(pub i64);

// A length in bytes that is none in words: it is odd, or an i32 does not hold its half.
#[derive(Clone, Copy, Debug, PartialEq, Eq)]
pub struct NotWords;

impl From<Words> for Bytes {
    ghost from_gives = { λ w b. b ≡ in_bytes w };

    fn from(w: Words) -> Bytes {
        let wide = i64::from(w.0);
        Bytes(wide + wide)
    }
}

impl TryFrom<Bytes> for Words {
    type Error = NotWords;

    ghost try_from_gives = { λ b r. said_words r ≡ in_words b };

    fn try_from(b: Bytes) -> Result<Words, NotWords> {
        let Ok(half) = i32::try_from(b.0 >> 1) else {
            return Err(NotWords);
        };
        // an odd number is not twice its half
        if Bytes::from(Words(half)) != b {
            return Err(NotWords);
        }
        Ok(Words(half))
    }
}
