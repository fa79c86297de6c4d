// The bytes of a case's input are read in turn. Nothing is asked of a caller: a number that the bytes do not hold is 0, and so are all after it.
ghost use Rattle.std.specs.Prelude.{◌^◌, ◌<◌};

use crate::stores::{Sizes, Stores};
use header::bbox::BBoxZ;

// What was not yet read; none, once the bytes did not hold what was to be read.
#[derive(Clone, Copy)]
pub struct Given<'a> {
    rest: Option<&'a [u8]>,
}

// A shape's box, and how many entries its tables have at the front of each store.
#[derive(Clone, Copy)]
pub struct Shape {
    pub bounds: BBoxZ,
    pub sizes: Sizes,
}

// A number as the bytes have it, low byte first.
trait Number: Copy {
    fn take(given: &mut Given<'_>) -> Option<Self>;
}

impl Number for u32 {
    fn take(given: &mut Given<'_>) -> Option<u32> {
        Some(u32::from_le_bytes(*given.chunk()?))
    }
}

impl Number for i32 {
    fn take(given: &mut Given<'_>) -> Option<i32> {
        Some(i32::from_le_bytes(*given.chunk()?))
    }
}

impl Number for f64 {
    fn take(given: &mut Given<'_>) -> Option<f64> {
        let bits = u64::from_le_bytes(*given.chunk()?);
        Some(fields::double(bits))
    }
}

impl<'a> Given<'a> {
    pub fn new(bytes: &'a [u8]) -> Self {
        Given { rest: Some(bytes) }
    }

    // The bytes from a place on.
    pub fn starting_at(bytes: &'a [u8], place: usize) -> Self {
        Given {
            rest: bytes.get(place..),
        }
    }

    pub fn is_at_end(self) -> bool {
        self.rest.is_some_and(|rest| rest.is_empty())
    }

    fn chunk<const N: usize>(&mut self) -> Option<&'a [u8; N]> {
        let (chunk, rest) = self.rest.take()?.split_first_chunk()?;
        self.rest = Some(rest);
        Some(chunk)
    }

    pub fn int(&mut self) -> i32 {
        i32::take(self).unwrap_or(0)
    }

    pub fn count(&mut self) -> usize
        ensures { result < 2 ^ 32 }
    {
        u32::take(self).unwrap_or(0) as usize
    }

    pub fn double(&mut self) -> f64 {
        f64::take(self).unwrap_or(0.0)
    }

    pub fn bounds(&mut self) -> BBoxZ {
        let mut values = [0.0; 8];
        if let Some(bytes) = self.chunk::<64>() {
            fields::read_doubles(bytes, 0, &mut values);
        }
        let [xmin, ymin, xmax, ymax, zmin, zmax, mmin, mmax] = values;
        BBoxZ {
            xmin,
            ymin,
            xmax,
            ymax,
            zmin,
            zmax,
            mmin,
            mmax,
        }
    }

    // A number of values, and they, into the front of a store.
    fn values<T: Number>(&mut self, store: &mut [T]) -> Option<usize> {
        let n = u32::take(self)? as usize;
        for entry in store.get_mut(..n)? {
            *entry = T::take(self)?;
        }
        Some(n)
    }

    // The box, then the part counts, x, y, z and m, each with its number of entries in front; none, where the bytes end or a store has no room.
    pub fn shape(&mut self, stores: &mut Stores) -> Option<Shape> {
        Some(Shape {
            bounds: self.bounds(),
            sizes: Sizes {
                counts: self.values(&mut stores.counts)?,
                xs: self.values(&mut stores.xs)?,
                ys: self.values(&mut stores.ys)?,
                zs: self.values(&mut stores.zs)?,
                ms: self.values(&mut stores.ms)?,
            },
        })
    }
}
