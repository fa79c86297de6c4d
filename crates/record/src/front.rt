// What is judged before a record's shape: the wanted kind, the kind's field, the size, and whether the kind is wanted and taken.
ghost use Rattle.std.specs.Prelude.{◌≡◌, IfOk};
ghost use Rattle.record.specs.Reading.{wanted_tests, mismatch_tests, found_tests, front_tests};
ghost use Rattle.record.specs.Steps.{Judges, Begins};

use crate::RecordError;
use crate::content::Content;
use format::units::Bytes;

// The wanted kind by itself: a known one, and one that a typed read takes.
fn judge_wanted(wanted: Option<i32>) -> Result<(), RecordError>
    ensures { Judges (wanted_tests wanted) result }
{
    let Some(code) = wanted else {
        return Ok(());
    };
    format::lengths::lengths_of(code)?;
    if code == 0 {
        return Err(RecordError::NotTaken(code));
    }
    Ok(())
}

// Whether the found kind is the wanted one.
fn judge_match(wanted: Option<i32>, found: i32) -> Result<(), RecordError>
    ensures { Judges (mismatch_tests wanted found) result }
{
    match wanted {
        Some(wanted) if wanted != found => Err(RecordError::Mismatch { wanted, found }),
        _ => Ok(()),
    }
}

// What follows the wanted kind.
fn judge_found(s: &[u8], size: Bytes, wanted: Option<i32>) -> Result<Content, RecordError>
    ensures tests { Judges (found_tests wanted size s.now) result }
    ensures begins { IfOk result (λ c. Begins s.now size c) }
{
    let code = fields::checked::le_i32(s, 0)?;
    let kind = format::kinds::find_kind(code)?;
    // size minus 4 is an i32
    if size.0 < -0x7fff_fffc || 0x8000_0003 < size.0 {
        return Err(RecordError::Size(0));
    }
    judge_match(wanted, code)?;
    let lengths = format::lengths::lengths_of(code)?;
    Ok(Content {
        code,
        kind,
        lengths,
        size,
    })
}

pub(crate) fn judge_front(
    s: &[u8],
    size: Bytes,
    wanted: Option<i32>,
) -> Result<Content, RecordError>
    ensures tests { Judges (front_tests wanted size s.now) result }
    ensures begins { IfOk result (λ c. Begins s.now size c) }
{
    judge_wanted(wanted)?;
    judge_found(s, size, wanted)
}
