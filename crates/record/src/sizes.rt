// Sizes in bytes against the table's formulas in words.
ghost use Rattle.std.specs.Prelude.{◌≡◌};
ghost use Rattle.std.proofs.Math.Option.{some};
ghost use Rattle.format.specs.Lengths.{several_form, form_of, formula_words};
ghost use Rattle.record.specs.Reading.{is_words};
ghost use Rattle.record.specs.Steps.{Held, Sizes};

use crate::content::Content;
use format::lengths::{Formula, comes_to};
use format::units::{Bytes, Words};
use multipart::Counts;

// Whether a size is what a formula comes to.
pub(crate) fn has_words(size: Bytes, f: Formula, counts: Counts) -> bool
    requires { Held size }
    ensures { result ≡ is_words size (formula_words f counts.parts counts.points) }
{
    let Counts { parts, points } = counts;
    Words::try_from(size).is_ok_and(|words| comes_to(f, parts, points, words))
}

// Whether the size of several points has m in it, with m only where the kind has m; none, where it is no size of theirs.
pub(crate) fn judge_m(content: Content, counts: Counts) -> Option<bool>
    requires { form_of content.kind ≡ some (several_form content.kind.parts) }
    ensures { Sizes content.kind content.size counts result }
{
    if has_words(content.size, content.lengths.with, counts) {
        return Some(content.kind.m);
    }
    has_words(content.size, content.lengths.without, counts).then_some(false)
}
