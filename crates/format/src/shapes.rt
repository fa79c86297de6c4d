// What a caller lends of a shape of several points, and which of it a body has.
ghost use Rattle.std.specs.Prelude.{◌≡◌, eqb};
ghost use Rattle.format.specs.Shapes.{sum};

// What of several points a body has: the starts of parts, z, m.
#[derive(Clone, Copy, Debug, PartialEq, Eq)]
pub struct Layout {
    pub parts: bool,
    pub z: bool,
    pub m: bool,
}

// The tables of a shape that is to be written: how many points each part has, and the values of all points, kept apart.
#[derive(Clone, Copy)]
pub struct Tables<'a> {
    pub counts: &'a [u32],
    pub xs: &'a [f64],
    pub ys: &'a [f64],
    pub zs: &'a [f64],
    pub ms: &'a [f64],
}

// Whether the counts of the parts sum to n. The sum stops where it would pass n. (`usize` has no `From<u32>`: the cast stays.)
pub fn sums_to(counts: &[u32], n: usize) -> bool
    ensures { result ≡ eqb n (sum counts.now) }
{
    let mut left = n;
    for &count in counts {
        let Some(rest) = left.checked_sub(count as usize) else {
            return false;
        };
        left = rest;
    }
    left == 0
}

// The bytes end inside a field: where it stands, and how many of its bytes are there.
#[derive(Clone, Copy, Debug, PartialEq, Eq)]
pub struct Short {
    pub at: usize,
    pub present: usize,
}
