// Numbers in slices of bytes, read and written. Internal: a caller shows that the field lies within the bytes, or reads it by `checked`.
#![tactic(auto)]

ghost use Rattle.std.specs.Prelude.{◌≡◌, ◌+◌, ◌*◌, ◌^◌, ◌≤◌, ◌<◌, length};
ghost use Rattle.std.proofs.lemmas.List.Edits.{sets};
ghost use Rattle.std.specs.Float.{binary64};
ghost use Rattle.std.specs.Float.Ieee.{of_bits, to_bits, lt, eq};
ghost use Rattle.std.specs.Int.{w32};
ghost use Rattle.std.proofs.Common.{to_z, of_z};
ghost use Rattle.format.specs.Bytes.{le, be, le_bytes, be_bytes, field};
ghost use Rattle.format.specs.Numbers.{be_i32, le_i32, le_f64, doubles_at, i32_be, i32_le, f64_le, f64s_le};
ghost use Rattle.format.specs.WellFormed.{same_number};

pub mod checked;

// The weight of a double's sign, and the bits of an infinity without one: what is above them is a NaN's.
const SIGN: u64 = 0x8000_0000_0000_0000;

const INFINITY: u64 = 0x7ff0_0000_0000_0000;

// A slice and a place stay two parameters: a cursor would still ask at each call that its field's width is left, which is no plainer.
// The two byte orders stay two functions: one with a flag would choose at each call which way to go, which is no plainer.

// The number of the k bytes from at on, low byte first.
pub fn le_number(s: &[u8], at: usize, k: usize) -> u64
    requires { (k ≤ 8) × (at + k ≤ length s.now) }
    ensures { (result ≡ le (field k at s.now)) × (result < 2 ^ (8 * k)) }
{
    s[at..at + k]
        .iter()
        .rev()
        .fold(0, |n, b| (n << 8) | u64::from(*b))
}

// The number of the k bytes from at on, high byte first.
pub fn be_number(s: &[u8], at: usize, k: usize) -> u64
    requires { (k ≤ 8) × (at + k ≤ length s.now) }
    ensures { (result ≡ be (field k at s.now)) × (result < 2 ^ (8 * k)) }
{
    s[at..at + k]
        .iter()
        .fold(0, |n, b| (n << 8) | u64::from(*b))
}

// The k low bytes of x go in at a place, low byte first. (By number: `to_le_bytes` has eight of them, and k is 4 or 8.)
pub fn put_le(out: &mut [u8], at: usize, x: u64, k: usize)
    requires { at + k ≤ length out.old }
    ensures { out.new ≡ sets out.old at (le_bytes k x) }
{
    let mut v = x;
    for i in 0..k {
        out[at + i] = (v % 256) as u8;
        v /= 256;
    }
}

// The same, high byte first.
pub fn put_be(out: &mut [u8], at: usize, x: u64, k: usize)
    requires { at + k ≤ length out.old }
    ensures { out.new ≡ sets out.old at (be_bytes k x) }
{
    let mut v = x;
    for i in (0..k).rev() {
        out[at + i] = (v % 256) as u8;
        v /= 256;
    }
}

// The signed number whose bits these are.
pub fn signed(n: u64) -> i32
    requires { n < 2 ^ 32 }
    ensures { result ≡ to_z w32 n }
{
    (n as u32).cast_signed()
}

// The bits of a signed number.
pub fn unsigned(z: i32) -> u64
    ensures { (result ≡ of_z w32 z) × (result < 2 ^ 32) }
{
    u64::from(z.cast_unsigned())
}

// The double whose bits these are; any NaN's bits give a NaN.
pub fn double(n: u64) -> f64
    ensures { result ≡ of_bits binary64 n }
{
    if INFINITY < n % SIGN {
        f64::NAN
    } else {
        f64::from_bits(n)
    }
}

// The bits of a double: 0x7ff8_0000_0000_0000 for a NaN.
pub fn bits(x: f64) -> u64
    ensures { result ≡ to_bits binary64 x }
{
    if x.is_nan() {
        0x7ff8_0000_0000_0000
    } else {
        f64::to_bits(x)
    }
}

// Doubles are compared by their bits. A comparison of doubles hangs on the processor's mode: where the calling program has denormals taken
// for zeros, 2^-1074 equals 0; and of `if x < y { x } else { y }` the compiler makes the processor's minimum, which there gives 0 for 2^-1074.

// Two doubles are equal as IEEE numbers: two zeros, or equal bits that are no NaN's.
pub fn same_number(a: u64, b: u64) -> bool
    ensures { result ≡ same_number a b }
{
    let rest = a % SIGN;
    if INFINITY < rest {
        return false;
    }
    if rest == 0 {
        return b % SIGN == 0;
    }
    a == b
}

// The first is below the second as IEEE numbers: by their signs, and by the numbers behind those.
fn below_number(a: u64, b: u64) -> bool
    ensures { result ≡ lt (of_bits binary64 a) (of_bits binary64 b) }
{
    let p = a % SIGN;
    let q = b % SIGN;
    if INFINITY < p || INFINITY < q {
        return false;
    }
    match (a < SIGN, b < SIGN) {
        (true, true) => p < q,
        (true, false) => false,
        (false, true) => 0 < p + q,
        (false, false) => q < p,
    }
}

// The two of doubles that are not in bits.
pub fn same(x: f64, y: f64) -> bool
    ensures { result ≡ eq x y }
{
    same_number(bits(x), bits(y))
}

pub fn below(x: f64, y: f64) -> bool
    ensures { result ≡ lt x y }
{
    below_number(bits(x), bits(y))
}

// A field that is whole.
pub fn be_i32_at(s: &[u8], at: usize) -> i32
    requires { at + 4 ≤ length s.now }
    ensures { result ≡ be_i32 at s.now }
{
    signed(be_number(s, at, 4))
}

pub fn le_i32_at(s: &[u8], at: usize) -> i32
    requires { at + 4 ≤ length s.now }
    ensures { result ≡ le_i32 at s.now }
{
    signed(le_number(s, at, 4))
}

pub fn le_f64_at(s: &[u8], at: usize) -> f64
    requires { at + 8 ≤ length s.now }
    ensures { result ≡ le_f64 at s.now }
{
    double(le_number(s, at, 8))
}

// The bytes of a number go in at a place.
pub fn put_be_i32(out: &mut [u8], at: usize, z: i32)
    requires { at + 4 ≤ length out.old }
    ensures { out.new ≡ sets out.old at (i32_be z) }
{
    put_be(out, at, unsigned(z), 4);
}

pub fn put_le_i32(out: &mut [u8], at: usize, z: i32)
    requires { at + 4 ≤ length out.old }
    ensures { out.new ≡ sets out.old at (i32_le z) }
{
    put_le(out, at, unsigned(z), 4);
}

pub fn put_le_f64(out: &mut [u8], at: usize, x: f64)
    requires { at + 8 ≤ length out.old }
    ensures { out.new ≡ sets out.old at (f64_le x) }
{
    put_le(out, at, bits(x), 8);
}

// As many doubles as out has, from a place on.
pub fn read_doubles(s: &[u8], at: usize, out: &mut [f64])
    requires { at + 8 * length out.old ≤ length s.now }
    ensures { out.new ≡ doubles_at 8 (length out.old) at s.now }
{
    for (i, x) in out.iter_mut().enumerate() {
        *x = le_f64_at(s, at + 8 * i);
    }
}

pub fn write_doubles(out: &mut [u8], at: usize, xs: &[f64])
    requires { at + 8 * length xs.now ≤ length out.old }
    ensures { out.new ≡ sets out.old at (f64s_le xs.now) }
{
    for (i, x) in xs.iter().enumerate() {
        put_le_f64(out, at + 8 * i, *x);
    }
}
