// What the rules are made of: numbers at a place of the bytes, runs of bytes and of doubles, the end of a part. Internal: a caller shows
// that what is read lies within the bytes.
ghost use Rattle.std.specs.Prelude.{◌≡◌, ◌&&◌, ◌+◌, ◌*◌, ◌-◌, ◌/◌, ◌^◌, ◌≤◌, ◌<◌, eqb, nat_abs, length};
ghost use Rattle.format.specs.Numbers.{finite};
ghost use Rattle.format.specs.WellFormed.{same_number};
ghost use Rattle.rules.specs.Rules.{big_at, little_at, double_at, held, finites, end_of, ring_closed};
ghost use Rattle.pair.specs.Plans.{Word, Field, Whole};

use format::units::{Bytes, Words};

// The bits of an i32 field, high byte first. (A function for each byte order, as in `fields`.)
pub(crate) fn big(s: &[u8], at: usize) -> usize
    requires { at + 4 ≤ length s.now }
    ensures { Word (big_at at s.now) result }
{
    fields::be_number(s, at, 4) as usize
}

// The same, low byte first.
pub(crate) fn little(s: &[u8], at: usize) -> usize
    requires { at + 4 ≤ length s.now }
    ensures { Word (little_at at s.now) result }
{
    fields::le_number(s, at, 4) as usize
}

// A length or an offset in words, as an i32 field has it, high byte first.
pub(crate) fn words_at(s: &[u8], at: usize) -> Words
    requires { at + 4 ≤ length s.now }
    ensures { Field (big_at at s.now) result }
{
    Words(fields::signed(fields::be_number(s, at, 4)))
}

// Words that are not negative, as a number. (A type of such words would ask for the same fact at each field that is read, where the rule before tells it.)
pub(crate) fn count(words: Words) -> usize
    requires { Whole words }
    ensures { result ≡ nat_abs words.0 }
{
    words.0 as usize
}

// The doubles of so many words behind the first `front` of them.
pub(crate) fn doubles_behind(words: Words, front: usize) -> usize
    requires { (Whole words) × (front ≤ nat_abs words.0) }
    ensures { result ≡ (nat_abs words.0 - front) / 4 }
{
    (count(words) - front) / 4
}

// Words in bytes.
pub(crate) fn in_bytes(words: Words) -> usize
    requires { Whole words }
    ensures { result ≡ 2 * nat_abs words.0 }
{
    Bytes::from(words).0 as usize
}

// The field at a place is a length in words, of so many bytes. (By its bits, half of the bytes: those of a negative one are 2^31 or more, the half of 2^32 or more.)
pub(crate) fn names_bytes(s: &[u8], at: usize, bytes: usize) -> bool
    requires { at + 4 ≤ length s.now }
    ensures { result ≡ (held (big_at at s.now) && eqb (2 * big_at at s.now) bytes) }
{
    big(s, at) == bytes / 2 && bytes % 2 == 0 && bytes < 0x1_0000_0000
}

// The double at a place is no NaN and no infinity: the bits of its exponent are not all ones.
pub(crate) fn is_finite(s: &[u8], at: usize) -> bool
    requires { at + 8 ≤ length s.now }
    ensures { result ≡ finite (double_at at s.now) }
{
    let bits = fields::le_number(s, at, 8);
    bits % 0x8000_0000_0000_0000 / 0x10_0000_0000_0000 != 2047
}

// And so are n doubles from a place on.
pub(crate) fn all_finite(s: &[u8], at: usize, n: usize) -> bool
    requires { at + 8 * n ≤ length s.now }
    ensures { result ≡ finites n at s.now }
{
    for i in 0..n {
        if !is_finite(s, at + 8 * i) {
            return false;
        }
    }
    true
}

// Where a part of p ends, by its number from 0 on: at the next one's start, or the last one at n. The starts stand at byte 52.
pub(crate) fn end_of(s: &[u8], part: usize, p: usize, n: usize) -> usize
    requires { (part < p) × (52 + 4 * p ≤ length s.now) × (n < 2 ^ 32) }
    ensures { Word (end_of (p - (part + 1)) (56 + 4 * part) s.now n) result }
{
    if part + 1 == p {
        n
    } else {
        little(s, 56 + 4 * part)
    }
}

// The doubles at two places are equal as IEEE numbers.
fn same_at(s: &[u8], a: usize, b: usize) -> bool
    requires { (a + 8 ≤ length s.now) × (b + 8 ≤ length s.now) }
    ensures { result ≡ same_number (double_at a s.now) (double_at b s.now) }
{
    fields::same_number(fields::le_number(s, a, 8), fields::le_number(s, b, 8))
}

// The points from a place on: the ring from point `from` to the one before `end` is closed, its numbers compared as IEEE numbers.
pub(crate) fn closed(s: &[u8], pairs: usize, from: usize, end: usize) -> bool
    requires { (from < end) × (pairs + 16 * end ≤ length s.now) }
    ensures { result ≡ ring_closed pairs from end s.now }
{
    let a = pairs + 16 * from;
    let b = pairs + 16 * (end - 1);
    same_at(s, a, b) && same_at(s, a + 8, b + 8)
}
