// Rings: whether a run of points is closed, closing it, and which way it turns. A run of n points is the first n of a store of x and of one of y,
// which the C interface lends apart.
#![tactic(auto)]

ghost use Rattle.std.specs.Prelude.{◌≡◌, ◌≤◌, length, OnOk};
ghost use Rattle.rings.specs.Answers.{said_closed, said_turning, closed_of, turning_of, Closing};
ghost use Rattle.rings.specs.declared.CloseError.TheVariants.{Tables};

// The run ends past one of its stores.
#[derive(Clone, Copy, Debug, PartialEq, Eq)]
pub struct TooFew;

#[derive(Clone, Copy, Debug, PartialEq, Eq)]
pub enum RingType {
    OuterRing,
    InnerRing,
}

// `Tables`: the run ends past one of its stores. `Room`: a store does not hold the closed run, which has so many points.
#[derive(Clone, Copy, Debug, PartialEq, Eq)]
pub enum CloseError {
    Tables,
    Room(usize),
}

impl From<TooFew> for CloseError {
    ghost from_gives = { λ _ e. e ≡ Tables };

    fn from(_few: TooFew) -> CloseError {
        CloseError::Tables
    }
}

// There is a first point, and it equals the last. (Turning begins with the same two tests: a function of them would be as long as they are.)
pub fn is_part_closed(xs: &[f64], ys: &[f64], n: usize) -> Result<bool, TooFew>
    ensures answered { said_closed result ≡ closed_of xs.now ys.now n }
    ensures within { OnOk result ((n ≤ length xs.now) × (n ≤ length ys.now)) }
{
    if xs.len() < n {
        return Err(TooFew);
    }
    if ys.len() < n {
        return Err(TooFew);
    }
    // (answered in branches, as its callers go on in branches)
    if n != 0 && fields::same(xs[0], xs[n - 1]) && fields::same(ys[0], ys[n - 1]) {
        return Ok(true);
    }
    Ok(false)
}

// Where the run has a point and is not closed, its first point is appended: how many points the closed run has.
pub fn close_points_if_not_already(
    xs: &mut [f64],
    ys: &mut [f64],
    n: usize,
) -> Result<usize, CloseError>
    ensures { Closing xs.old ys.old n result xs.new ys.new }
{
    if is_part_closed(xs, ys, n)? || n == 0 {
        return Ok(n);
    }
    if xs.len() == n {
        return Err(CloseError::Room(n + 1));
    }
    if ys.len() == n {
        return Err(CloseError::Room(n + 1));
    }
    xs[n] = xs[0];
    ys[n] = ys[0];
    Ok(n + 1)
}

// Over neighbouring points the sum of (x1 - x0) * (y1 + y0), halved: inner where that is below 0.
pub fn ring_type_from_points_ordering(xs: &[f64], ys: &[f64], n: usize) -> Result<RingType, TooFew>
    ensures { said_turning result ≡ turning_of xs.now ys.now n }
{
    if xs.len() < n {
        return Err(TooFew);
    }
    if ys.len() < n {
        return Err(TooFew);
    }
    let mut sum = 0.0;
    // by number, since each turn has neighbours in both stores
    for i in 1..n {
        sum += (xs[i] - xs[i - 1]) * (ys[i] + ys[i - 1]);
    }
    if sum / 2.0 < 0.0 {
        Ok(RingType::InnerRing)
    } else {
        Ok(RingType::OuterRing)
    }
}
