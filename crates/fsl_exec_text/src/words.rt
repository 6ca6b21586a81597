//! The words for memory orders, kinds of locations and limits.
ghost use Rattle.std.specs.Prelude.{◌≡◌};
ghost use Rattle.fsl_exec_text.specs.Texts.{mode_word, kind_word, limit_word};

use fsl_core::{AllocKind, Mode};
use fsl_graph::LimitKind;

/// The word for the order of an access or fence.
pub(crate) fn mode_word(mode: Mode) -> &'static str
    ensures { result.now ≡ mode_word mode }
{
    match mode {
        Mode::Na => "na",
        Mode::Rlx => "rlx",
        Mode::Acq => "acq",
        Mode::Rel => "rel",
        Mode::AcqRel => "acqrel",
    }
}

/// The word for what a location was allocated for.
pub(crate) fn kind_word(kind: AllocKind) -> &'static str
    ensures { result.now ≡ kind_word kind }
{
    match kind {
        AllocKind::Na => "na",
        AllocKind::Acq => "acq",
        AllocKind::Rmw => "rmw",
    }
}

/// The word for a limit of the machine.
pub(crate) fn limit_word(kind: LimitKind) -> &'static str
    ensures { result.now ≡ limit_word kind }
{
    match kind {
        LimitKind::Locations => "locations",
        LimitKind::Messages => "messages",
        LimitKind::Threads => "threads",
    }
}
