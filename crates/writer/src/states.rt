// The writer's state: the one to start from, and which values are writer states.
ghost use Rattle.std.specs.Prelude.{◌≡◌, ◌+◌, ◌*◌, ◌-◌, ◌^◌, ◌≤◌, ◌<◌};
ghost use Rattle.writer.specs.Judging.{natural_of, look_up, counts_fine, words_of, words_after};
ghost use Rattle.writer.specs.State.{fresh, state_fine};

use crate::State;
use format::kinds::{Kind, find_kind};
use format::lengths::{Formula, KindError, lengths_of};
use format::units::Words;
use header::bbox::BBoxZ;

impl State {
    // No record yet.
    pub fn new() -> Self
        ensures { result ≡ fresh }
    {
        State {
            words: Words(50),
            number: 1,
            kind: 0,
            points: 0,
            bbox: BBoxZ::default(),
        }
    }
}

// The number, or 0 for one below.
pub(crate) fn natural(z: i32) -> u64
    ensures { (result ≡ natural_of z) × (result < 2 ^ 31) }
{
    u64::try_from(z).unwrap_or(0)
}

// How many words a length is, or 0 for one below: but for the fields that are written, lengths are taken apart here alone.
fn count(words: Words) -> u64
    ensures { (result ≡ natural_of words.0) × (result < 2 ^ 31) }
{
    natural(words.0)
}

// The kind with a code, and the formula of its content with m, where it is taken.
pub(crate) fn look_up(code: i32) -> Result<(Kind, Formula), KindError>
    ensures { result ≡ look_up code }
{
    let kind = find_kind(code)?;
    let lengths = lengths_of(code)?;
    Ok((kind, lengths.with))
}

// Words at least 50, number at least 1, words for that many records and that many points, and of kind 0 only the start.
fn counts_fine(words: Words, number: i32, points: u32, first: bool) -> bool
    ensures { result ≡ counts_fine (natural_of words.0) (natural_of number) points first }
{
    let w = count(words);
    let n = natural(number);
    50 <= w
        && 1 <= n
        && 50 + 6 * (n - 1) <= w
        && u64::from(points) <= w
        && (!first || (w == 50 && n == 1))
}

// Whether the value is a writer state.
pub fn state_fine(s: State) -> bool
    ensures { result ≡ state_fine s }
{
    match look_up(s.kind) {
        Ok((kind, _)) => counts_fine(s.words, s.number, s.points, kind.code == 0),
        Err(_) => false,
    }
}

// The file's words with a record, whose header takes 4, where an i32 holds them.
pub(crate) fn words_after(words: Words, content: Words) -> Option<Words>
    ensures { result ≡ words_after words content }
{
    let after = count(words) + (4 + count(content));
    Some(Words(i32::try_from(after).ok()?))
}

// The words of the .shx: 50, and 4 for each record before the next number.
pub(crate) fn index_words(number: i32) -> Words
    requires { (1 ≤ natural_of number) × (50 + 4 * (natural_of number - 1) < 2 ^ 31) }
    ensures { result ≡ words_of (50 + 4 * (natural_of number - 1)) }
{
    Words((50 + 4 * (natural(number) - 1)) as i32)
}
