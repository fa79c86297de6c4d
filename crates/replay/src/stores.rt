// The stores that are lent to calls. They are filled with a fixed value before a call, and after it all entries behind the answer must still have it.
// Nothing is asked of a caller.
use format::shapes::{Layout, Tables};

pub const ROOM: usize = 65536;

#[derive(Drop)]
pub struct Stores {
    pub counts: [u32; ROOM],
    pub xs: [f64; ROOM],
    pub ys: [f64; ROOM],
    pub zs: [f64; ROOM],
    pub ms: [f64; ROOM],
}

// How many entries of each store.
#[derive(Clone, Copy, Default)]
pub struct Sizes {
    pub counts: usize,
    pub xs: usize,
    pub ys: usize,
    pub zs: usize,
    pub ms: usize,
}

impl Sizes {
    // What a body of so many parts and points takes.
    pub fn of_body(layout: Layout, parts: usize, points: usize) -> Self {
        Sizes {
            counts: parts,
            xs: points,
            ys: points,
            zs: if layout.z { points } else { 0 },
            ms: if layout.m { points } else { 0 },
        }
    }
}

// Entries at the front of each store, for a call that fills them.
#[derive(Drop)]
pub struct Lent<'a> {
    pub counts: &'a mut [u32],
    pub xs: &'a mut [f64],
    pub ys: &'a mut [f64],
    pub zs: &'a mut [f64],
    pub ms: &'a mut [f64],
}

pub fn first_mut<T>(store: &mut [T], n: usize) -> Option<&mut [T]> {
    store.get_mut(..n)
}

impl Stores {
    // The first entries of each store; none, where one has not so many.
    pub fn lend(&mut self, sizes: Sizes) -> Option<Lent<'_>> {
        let Stores {
            counts,
            xs,
            ys,
            zs,
            ms,
        } = self;
        Some(Lent {
            counts: first_mut(counts, sizes.counts)?,
            xs: first_mut(xs, sizes.xs)?,
            ys: first_mut(ys, sizes.ys)?,
            zs: first_mut(zs, sizes.zs)?,
            ms: first_mut(ms, sizes.ms)?,
        })
    }

    pub fn tables(&self, sizes: Sizes) -> Tables<'_> {
        Tables {
            counts: first(&self.counts, sizes.counts),
            xs: first(&self.xs, sizes.xs),
            ys: first(&self.ys, sizes.ys),
            zs: first(&self.zs, sizes.zs),
            ms: first(&self.ms, sizes.ms),
        }
    }
}

// What a store is filled with.
pub trait Filler: Copy + PartialEq {
    const FILLER: Self;
}

impl Filler for u32 {
    const FILLER: u32 = 77;
}

impl Filler for f64 {
    const FILLER: f64 = 0.25;
}

impl Filler for u8 {
    const FILLER: u8 = 0xaa;
}

// All entries from a place on are as they were filled.
pub fn is_left<T: Filler>(store: &[T], from: usize) -> bool {
    store.iter().skip(from).all(|entry| *entry == T::FILLER)
}

// The first n entries; none, where there are not so many.
pub fn first<T>(store: &[T], n: usize) -> &[T] {
    store.get(..n).unwrap_or(&[])
}
