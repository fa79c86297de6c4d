// The pair checker: a .shp and its .shx against the rules P1 to P17 of document 01, once over the bytes.
#![tactic(auto)]

ghost use Rattle.std.specs.Prelude.{◌≡◌, true, ◌≤◌, length, drop};
ghost use Rattle.rules.specs.Rules.{null_taken, verdict, walk_from, none_yet};
ghost use Rattle.pair.specs.Plans.{plan_for, taken_from};
ghost use Rattle.pair.specs.Verdicts.{said_verdict, Checks};

use plans::Plan;

mod heads;
mod leaves;
mod plans;

// What a pair that is one holds, as C has it.
#[repr(C)]
#[derive(Clone, Copy, Debug, Default, PartialEq, Eq)]
pub struct Totals {
    pub records: usize,
    pub parts: usize,
    pub points: usize,
}

// The rule that is broken first, by its number, and the record that breaks it, 0 for the headers. A number and no enum: P1 to P17 are
// document 01's own names, and the interface for C hands the number on.
#[derive(Clone, Copy, Debug, PartialEq, Eq)]
pub struct Fault {
    pub rule: usize,
    pub record: usize,
}

// The records behind the headers, by the file's plan and Null's. The first fault in record order, then rule order, ends the walk: loops in
// one another that are left by a label, a form that document 01 names, so that this function is the one long one.
fn walk(plan: Plan, null: Plan, shp: &[u8], shx: &[u8]) -> Result<Totals, Fault>
    requires { (plan ≡ plan_for (taken_from plan)) × (null ≡ plan_for null_taken) × (plan.rings ≡ true → plan.parts ≡ true) × (100 ≤ length shp.now) × (100 ≤ length shx.now) }
    ensures { said_verdict result ≡ walk_from (taken_from plan) (drop 100 shp.now) (drop 100 shx.now) 100 none_yet }
{
    let mut at = 100;
    let mut ix = 100;
    let mut totals = Totals::default();
    'walk: loop {
        let record = totals.records + 1;
        // P17: at the end of the .shp no index entry is left over
        if at >= shp.len() {
            if ix < shx.len() {
                break 'walk Err(Fault { rule: 17, record });
            }
            break 'walk Ok(totals);
        }
        // the bytes from the record on, and the index from its entry on
        let rest = &shp[at..];
        let index = &shx[ix..];
        // P9 to P12
        let words = match heads::check_head(plan, rest, index, at, record) {
            Ok(words) => words,
            Err(fault) => break 'walk Err(fault),
        };
        // P13, and all that follows, by the record's own kind
        let own = plan.or_null(null, rest);
        if !heads::sized(own, rest, words) {
            break 'walk Err(Fault { rule: 13, record });
        }
        let p = own.parts_of(rest);
        let n = own.points_of(rest);
        // P14: there is a part, the first one starts at point 0, and each has points enough; a multipoint has a point
        if !own.begins(rest, p, n) {
            break 'walk Err(Fault { rule: 14, record });
        }
        // (where the next part has to end at least is summed up behind the test: so the loop costs a record without parts next to nothing)
        let mut least_end = own.least;
        for part in 0..p {
            let end = leaves::end_of(rest, part, p, n);
            if end < least_end {
                break 'walk Err(Fault { rule: 14, record });
            }
            least_end = end + own.least;
        }
        // P15: the rings among them are closed
        let front = own.front + 2 * p;
        let pairs = 8 + 2 * front;
        let rings = own.rings_of(p);
        let mut from = 0;
        for ring in 0..rings {
            let end = leaves::end_of(rest, ring, rings, n);
            if !leaves::closed(rest, pairs, from, end) {
                break 'walk Err(Fault { rule: 15, record });
            }
            from = end;
        }
        // P16: the doubles of the box, and those from the points on
        for corner in 0..own.box_doubles() {
            if !leaves::is_finite(rest, 12 + 8 * corner) {
                break 'walk Err(Fault { rule: 16, record });
            }
        }
        for double in 0..leaves::doubles_behind(words, front) {
            if !leaves::is_finite(rest, pairs + 8 * double) {
                break 'walk Err(Fault { rule: 16, record });
            }
        }
        at += 8 + leaves::in_bytes(words);
        ix += 8;
        totals = Totals {
            records: record,
            parts: totals.parts + p,
            points: totals.points + n,
        };
    }
}

// The headers, and where they are fine the records.
fn judge(shp: &[u8], shx: &[u8]) -> Result<Totals, Fault>
    ensures { said_verdict result ≡ verdict shp.now shx.now }
{
    heads::check_front(shp, shx)?;
    let plan = plans::plan_of(fields::le_i32_at(shp, 32)).ok_or(Fault { rule: 4, record: 0 })?;
    heads::check_back(shp, shx)?;
    // Null is taken: this is no fault
    let null = plans::plan_of(0).ok_or(Fault { rule: 4, record: 0 })?;
    walk(plan, null, shp, shx)
}

// The verdict on a .shp and its .shx: by the rules, and by what that means of the shapes in the two files.
pub fn check_pair(shp: &[u8], shx: &[u8]) -> Result<Totals, Fault>
    ensures { Checks shp.now shx.now result }
{
    judge(shp, shx)
}
