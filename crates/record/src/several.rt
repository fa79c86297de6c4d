// Bodies of several points behind the kind's field: offsets are counted from the content's first byte, 4 before the body's.
ghost use Rattle.std.specs.Prelude.{◌≡◌};
ghost use Rattle.std.proofs.Math.Option.{some};
ghost use Rattle.format.specs.Lengths.{several_form, form_of};
ghost use Rattle.record.specs.Steps.{Movable, behind, Reads, several_from};

use crate::content::Content;
use crate::{Record, RecordError, sizes};
use format::shapes::{Layout, Short};
use multipart::BodyError;

// What a body refuses, as its content does.
fn behind_kind(e: BodyError) -> RecordError
    requires { Movable e }
    ensures { result ≡ behind e }
{
    match e {
        BodyError::Short(Short { at, present }) => RecordError::Short(Short {
            at: 4 + at,
            present,
        }),
        BodyError::Size(at) => RecordError::Size(4 + at),
        BodyError::Room { parts, points } => RecordError::Room { parts, points },
    }
}

// A body, whose size settles whether it has m.
pub(crate) fn read_several(
    content: Content,
    b: &[u8],
    counts: &mut [u32],
    xs: &mut [f64],
    ys: &mut [f64],
    zs: &mut [f64],
    ms: &mut [f64],
) -> Result<Record, RecordError>
    requires { form_of content.kind ≡ some (several_form content.kind.parts) }
    ensures { Reads (several_from content.code content.kind content.size b.now) content.kind b.now counts.old xs.old ys.old zs.old ms.old result counts.new xs.new ys.new zs.new ms.new }
{
    let Content { code, kind, .. } = content;
    let said = multipart::read_counts(b, kind.parts)
        .map_err(BodyError::from)
        .map_err(behind_kind)?;
    let m = sizes::judge_m(content, said).ok_or(RecordError::Size(0))?;
    let layout = Layout {
        parts: kind.parts,
        z: kind.z,
        m,
    };
    let body = multipart::read_body(b, layout, counts, xs, ys, zs, ms).map_err(behind_kind)?;
    if kind.parts {
        return Ok(Record::Parts(code, m, body));
    }
    Ok(Record::Multipoint(code, m, body))
}
