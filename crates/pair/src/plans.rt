// What a kind settles for each record of it: the kind that a .shp names, and Null, each looked up once for the file.
ghost use Rattle.std.specs.Prelude.{◌≡◌, true, cond, ◌&&◌, ◌||◌, ◌+◌, ◌*◌, ◌≤◌, leb, eqb, length};
ghost use Rattle.format.specs.Kinds.{kind_at};
ghost use Rattle.rules.specs.Rules.{little_at, taken_of};
ghost use Rattle.pair.specs.Plans.{Word, planned};

use crate::leaves::little;
use format::kinds::Kind;
use format::lengths::Lengths;

// The flags are those of the table of kinds; an enum of forms would be matched once more in each function that reads them.
#[derive(Clone, Copy)]
pub struct Plan {
    pub kind: Kind,
    // a record has a box and says how many points it has; it has parts; the points of one that does not say
    pub several: bool,
    pub parts: bool,
    pub points: usize,
    // the words in front of the points, beside the starts of parts
    pub front: usize,
    // the parts are rings; the points that a part has at least
    pub rings: bool,
    pub least: usize,
    pub lengths: Lengths,
}

// The parts of 5, 15 and 25 are rings.
fn has_rings(code: u32) -> bool
    ensures { result ≡ (eqb code 5 || eqb code 15 || eqb code 25) }
{
    matches!(code, 5 | 15 | 25)
}

// A ring has at least 4 points, any other part 2.
fn least_points(rings: bool) -> usize
    ensures { result ≡ cond rings 4 2 }
{
    if rings { 4 } else { 2 }
}

// The points of a record that does not say how many: Null has none.
fn points_alone(code: u32) -> usize
    ensures { result ≡ cond (eqb code 0) 0 1 }
{
    if code == 0 { 0 } else { 1 }
}

// The words in front of the points, beside the starts: the kind's field; of several points the box and their number, of parts one count more.
fn front_words(several: bool, parts: bool) -> usize
    ensures { result ≡ cond parts 22 (cond several 20 2) }
{
    if parts {
        22
    } else if several {
        20
    } else {
        2
    }
}

// The plan of the kind with a code, where it is a taken one.
pub(crate) fn plan_of(code: i32) -> Option<Plan>
    ensures { result ≡ planned (taken_of (kind_at code)) }
{
    let kind = format::kinds::find_kind(code).ok()?;
    let lengths = format::lengths::lengths_of(code).ok()?;
    let several = format::lengths::has_several(kind);
    let rings = has_rings(kind.code);
    Some(Plan {
        kind,
        several,
        parts: kind.parts,
        points: points_alone(kind.code),
        front: front_words(several, kind.parts),
        rings,
        least: least_points(rings),
        lengths,
    })
}

impl Plan {
    // The plan of a record whose bytes these are: Null's where its kind's field is 0, else the file's.
    pub(crate) fn or_null(self, null: Plan, s: &[u8]) -> Plan
        requires { 12 ≤ length s.now }
        ensures { result ≡ cond (eqb (little_at 8 s.now) 0) null self }
    {
        if little(s, 8) == 0 { null } else { self }
    }

    // The counts of the record.
    pub(crate) fn parts_of(self, s: &[u8]) -> usize
        requires { self.parts ≡ true → 52 ≤ length s.now }
        ensures { Word (cond self.parts (little_at 44 s.now) 0) result }
    {
        if self.parts { little(s, 44) } else { 0 }
    }

    pub(crate) fn points_of(self, s: &[u8]) -> usize
        requires { (self.parts ≡ true → 52 ≤ length s.now) × (self.several ≡ true → 48 ≤ length s.now) }
        ensures { result ≡ cond self.parts (little_at 48 s.now) (cond self.several (little_at 44 s.now) self.points) }
    {
        if self.parts {
            little(s, 48)
        } else if self.several {
            little(s, 44)
        } else {
            self.points
        }
    }

    // There is a part, and the first one starts at point 0; of several points that are not in parts there is one.
    pub(crate) fn begins(self, s: &[u8], p: usize, n: usize) -> bool
        requires { self.parts ≡ true → 52 + 4 * p ≤ length s.now }
        ensures { result ≡ cond self.parts (leb 1 p && eqb (little_at 52 s.now) 0) (cond self.several (leb 1 n) true) }
    {
        if self.parts {
            1 <= p && little(s, 52) == 0
        } else {
            !self.several || 1 <= n
        }
    }

    // How many of p parts are rings.
    pub(crate) fn rings_of(self, p: usize) -> usize
        ensures { result ≡ cond self.rings p 0 }
    {
        if self.rings { p } else { 0 }
    }

    // The doubles of the box, where there is one.
    pub(crate) fn box_doubles(self) -> usize
        ensures { result ≡ cond self.several 4 0 }
    {
        if self.several { 4 } else { 0 }
    }
}
