//! Whether assertions fit the invariants of a program: each use has as many arguments as there are parameters and
//! names a part that there is, and modalities stand where they may.
ghost use Rattle.std.specs.Prelude.{◌≡◌, ◌&&◌, Some, false, slice_get};
ghost use Rattle.std.specs.List.{list_all};
ghost use Rattle.fsl_core.specs.WellFormed.{inst_fits, inv_has_part, asrt_fits, proc_is_plain, inv_fits};

use crate::assertion::{Asrt, Inst};
use crate::declaration::{Inv, Proc};

/// Whether there is the invariant, with so many parameters.
pub(crate) fn inst_fits(invs: &[Inv], inst: &Inst) -> bool
    ensures { result ≡ inst_fits invs.now inst.now }
{
    match invs.get(inst.inv as usize) {
        Some(inv) => inv.params as usize == inst.args.len(),
        None => false,
    }
}

/// Whether the invariant has a part of this number.
fn has_part(invs: &[Inv], inst: &Inst, part: u32) -> bool
    ensures { result ≡ inv_has_part part (slice_get invs.now inst.now.inv) }
{
    match invs.get(inst.inv as usize) {
        Some(inv) => (part as usize) < inv.parts.len(),
        None => false,
    }
}

/// Whether an assertion fits, where modalities may stand or not.
pub(crate) fn asrt_fits(invs: &[Inv], asrt: &Asrt, modal: bool) -> bool
    ensures { result ≡ asrt_fits invs.now asrt.now modal }
{
    match asrt {
        Asrt::Rel { inst, .. } => inst_fits(invs, inst),
        Asrt::Acq { inst, part, .. } => inst_fits(invs, inst) && has_part(invs, inst, *part),
        Asrt::RmwAcq { inst, .. } => inst_fits(invs, inst),
        Asrt::Choice { yes, no, .. } => {
            asrt_fits(invs, yes.get(), modal) && asrt_fits(invs, no.get(), modal)
        }
        Asrt::Up { a } => modal && asrt_fits(invs, a.get(), false),
        Asrt::Down { a } => modal && asrt_fits(invs, a.get(), false),
        Asrt::Both { parts } => {
            for part in parts.as_slice() {
                if !asrt_fits(invs, part, modal) {
                    return false;
                }
            }
            true
        }
        _ => true,
    }
}

/// Whether the contract of a procedure is without modalities.
pub(crate) fn is_plain(invs: &[Inv], proc: &Proc) -> bool
    ensures { result ≡ proc_is_plain invs.now (Some proc.now) }
{
    asrt_fits(invs, &proc.pre, false) && asrt_fits(invs, &proc.post, false)
}

/// Whether the parts of an invariant fit.
pub(crate) fn inv_fits(invs: &[Inv], inv: &Inv) -> bool
    ensures { result ≡ inv_fits invs.now inv.now }
{
    for part in inv.parts.as_slice() {
        if !asrt_fits(invs, part, false) {
            return false;
        }
    }
    true
}
