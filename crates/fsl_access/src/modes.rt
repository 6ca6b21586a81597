//! Memory orders of accesses: where a read puts what it gains, and where a write takes what it gives away.
ghost use Rattle.std.specs.Prelude.{◌≡◌};
ghost use Rattle.fsl_core.specs.Modes.{acquires, releases};
ghost use Rattle.fsl_core.specs.logic.Accesses.{gaining, giving};

use fsl_core::{Mode, Rung};

/// Whether an access or fence of this order acquires.
pub fn acquires(mode: Mode) -> bool
    ensures { result ≡ acquires mode }
{
    match mode {
        Mode::Acq | Mode::AcqRel => true,
        Mode::Na | Mode::Rlx | Mode::Rel => false,
    }
}

/// Whether an access or fence of this order releases.
pub fn releases(mode: Mode) -> bool
    ensures { result ≡ releases mode }
{
    match mode {
        Mode::Rel | Mode::AcqRel => true,
        Mode::Na | Mode::Rlx | Mode::Acq => false,
    }
}

/// Where a read puts what it gains: a relaxed one sets it apart for an acquire fence.
pub fn gaining(mode: Mode) -> Rung
    ensures { result ≡ gaining mode }
{
    if acquires(mode) {
        Rung::Plain
    } else {
        Rung::Down
    }
}

/// Where a write takes what it gives away: a relaxed one takes what a release fence has set apart.
pub fn giving(mode: Mode) -> Rung
    ensures { result ≡ giving mode }
{
    if releases(mode) {
        Rung::Plain
    } else {
        Rung::Up
    }
}
