// The rules P1 to P13, each of them a test, and the first that is broken: of the headers, and of a record's header, entry and kind.
ghost use Rattle.std.specs.Prelude.{◌≡◌, ◌||◌, ◌+◌, ◌*◌, ◌^◌, ◌≤◌, ◌<◌, pos, length};
ghost use Rattle.format.specs.Lengths.{formula_words};
ghost use Rattle.format.specs.Units.{same_int};
ghost use Rattle.rules.specs.Rules.{P3, P7, P8, P9, P10, P11, P12, P13, length_right, big_at};
ghost use Rattle.pair.specs.Plans.{Field, field_words, plan_for, taken_from};
ghost use Rattle.pair.specs.Verdicts.{front_fault, back_fault, head_fault, found};

use crate::Fault;
use crate::leaves::{big, in_bytes, little, names_bytes, words_at};
use crate::plans::Plan;
use format::kinds::Kind;
use format::lengths::Lengths;
use format::units::Words;

// ---- the headers (slices of at least 100 bytes, and no arrays: the rules speak of the whole file, so each would need a law of its first 100 bytes)

// P3: the code is 9994, the unused bytes are 0, the version is 1000.
fn starts_right(shp: &[u8]) -> bool
    requires { 100 ≤ length shp.now }
    ensures { result ≡ P3 shp.now }
{
    big(shp, 0) == 9994 && shp[4..24] == [0; 20] && little(shp, 28) == 1000
}

// A length field doubled is the byte count: P5 of the .shp.
fn length_right(s: &[u8]) -> bool
    requires { 100 ≤ length s.now }
    ensures { result ≡ length_right s.now }
{
    names_bytes(s, 24, s.len())
}

// P7: the .shx's header is the .shp's, but for the length field.
fn headers_agree(shp: &[u8], shx: &[u8]) -> bool
    requires { (100 ≤ length shp.now) × (100 ≤ length shx.now) }
    ensures { result ≡ P7 shp.now shx.now }
{
    shx[..24] == shp[..24] && shx[28..100] == shp[28..100]
}

// P8: the length of the .shx is right, and it has whole entries.
fn index_sized(shx: &[u8]) -> bool
    requires { 100 ≤ length shx.now }
    ensures { result ≡ P8 shx.now }
{
    length_right(shx) && (shx.len() - 100) % 8 == 0
}

// The first of P1 to P3 that the headers break.
#[tactic(auto, unfolding(crate::specs::Verdicts::front_fault))]
pub(crate) fn check_front(shp: &[u8], shx: &[u8]) -> Result<(), Fault>
    ensures { result ≡ found tt (front_fault shp.now shx.now) 0 }
{
    if shp.len() < 100 {
        return Err(Fault { rule: 1, record: 0 });
    }
    if shx.len() < 100 {
        return Err(Fault { rule: 2, record: 0 });
    }
    if !starts_right(shp) {
        return Err(Fault { rule: 3, record: 0 });
    }
    Ok(())
}

// And the first of P5 to P8.
#[tactic(auto, unfolding(crate::specs::Verdicts::back_fault))]
pub(crate) fn check_back(shp: &[u8], shx: &[u8]) -> Result<(), Fault>
    requires { (100 ≤ length shp.now) × (100 ≤ length shx.now) }
    ensures { result ≡ found tt (back_fault shp.now shx.now) 0 }
{
    if !length_right(shp) {
        return Err(Fault { rule: 5, record: 0 });
    }
    if !crate::leaves::all_finite(shp, 36, 8) {
        return Err(Fault { rule: 6, record: 0 });
    }
    if !headers_agree(shp, shx) {
        return Err(Fault { rule: 7, record: 0 });
    }
    if !index_sized(shx) {
        return Err(Fault { rule: 8, record: 0 });
    }
    Ok(())
}

// ---- a record: its bytes with all behind them, and the index from its entry on

// P9: eight bytes are there, and the number is k.
fn numbered(rest: &[u8], k: usize) -> bool
    ensures { result ≡ P9 rest.now k }
{
    rest.len() >= 8 && big(rest, 0) == k && k < 0x8000_0000
}

// P10: a content of at least 2 words lies in the file.
fn inside(rest: &[u8]) -> bool
    requires { 8 ≤ length rest.now }
    ensures { result ≡ P10 rest.now }
{
    let words = words_at(rest, 4);
    words.0 >= 2 && 8 + in_bytes(words) <= rest.len()
}

// P11: the entry is there, with this offset and length.
fn indexed(rest: &[u8], index: &[u8], at: usize) -> bool
    requires { 8 ≤ length rest.now }
    ensures { result ≡ P11 rest.now index.now at }
{
    index.len() >= 8 && names_bytes(index, 0, at) && words_at(index, 4).0 == words_at(rest, 4).0
}

// P12: the kind is the header's, or Null.
fn of_kind(kind: Kind, rest: &[u8]) -> bool
    requires { 12 ≤ length rest.now }
    ensures { result ≡ P12 kind rest.now }
{
    let code = little(rest, 8);
    code == kind.code as usize || code == 0
}

// One of the two formulas of a kind gives so many words.
fn measures(lengths: Lengths, p: usize, n: usize, words: Words) -> bool
    requires { (p < 2 ^ 31) × (n < 2 ^ 31) }
    ensures { result ≡ (same_int words.0 (pos (formula_words lengths.without p n)) || same_int words.0 (pos (formula_words lengths.with p n))) }
{
    let (p, n) = (p as u32, n as u32);
    format::lengths::comes_to(lengths.without, p, n, words)
        || format::lengths::comes_to(lengths.with, p, n, words)
}

// P13: the counts are not negative, and the length is one that they give. Too few words for the counts fit no formula.
pub(crate) fn sized(plan: Plan, rest: &[u8], words: Words) -> bool
    requires { (plan ≡ plan_for (taken_from plan)) × (8 + 2 * big_at 4 rest.now ≤ length rest.now) × (big_at 4 rest.now < 2 ^ 31) × Field (big_at 4 rest.now) words }
    ensures { result ≡ P13 (taken_from plan) rest.now }
{
    let lengths = plan.lengths;
    if !plan.several {
        return measures(lengths, 0, plan.points, words);
    }
    if words.0 < 20 {
        return false;
    }
    let count = little(rest, 44);
    if count >= 0x8000_0000 {
        return false;
    }
    if !plan.parts {
        return measures(lengths, 0, count, words);
    }
    if words.0 < 22 {
        return false;
    }
    let n = little(rest, 48);
    if n >= 0x8000_0000 {
        return false;
    }
    measures(lengths, count, n, words)
}

// The first of P9 to P12 that a record breaks; where it breaks none, the words of its content, which are read here once for all that follows.
#[tactic(auto, unfolding(crate::specs::Verdicts::head_fault))]
pub(crate) fn check_head(
    plan: Plan,
    rest: &[u8],
    index: &[u8],
    at: usize,
    k: usize,
) -> Result<Words, Fault>
    ensures { result ≡ found (field_words (big_at 4 rest.now)) (head_fault plan.kind rest.now index.now at k) k }
{
    if !numbered(rest, k) {
        return Err(Fault { rule: 9, record: k });
    }
    if !inside(rest) {
        return Err(Fault {
            rule: 10,
            record: k,
        });
    }
    if !indexed(rest, index, at) {
        return Err(Fault {
            rule: 11,
            record: k,
        });
    }
    if !of_kind(plan.kind, rest) {
        return Err(Fault {
            rule: 12,
            record: k,
        });
    }
    Ok(words_at(rest, 4))
}
