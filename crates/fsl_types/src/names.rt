//! Names in the file.
ghost use Rattle.std.specs.Prelude.{◌≡◌};
ghost use Rattle.fsl_types.specs.Names.{text_at};

use fsl_base::Span;

/// The bytes of a span; a span that leaves the file has what is there.
pub fn text_at<'a>(bytes: &'a [u8], at: Span) -> &'a [u8]
    ensures { result.now ≡ text_at bytes.now at }
{
    let from = (at.from as usize).min(bytes.len());
    let to = (at.to as usize).min(bytes.len());
    if from < to {
        &bytes[from..to]
    } else {
        &bytes[..0]
    }
}
