//! The rules of names and types, each by its kind of fault: what breaks it, and which fault of several is named.
//! They are defined in `specs/Faults.antt`.
ghost use Rattle.std.specs.Prelude.{◌≡◌, [], ◌∷◌, ◌++◌, length, OnOk, if◌then◌else◌};
ghost use Rattle.fsl_types.specs.Faults.{breaks, faults_at, fault_at, goes_before, has_mode, is_due, is_ill_typed, is_miscounted, is_misfit, is_modal, is_no_part, is_twice, is_unknown, lacks_main, least_fault, least_from, place_of, place_of_mode, rank};
ghost use Rattle.fsl_types.specs.Resolvers.{noted};

use crate::fault::{Fault, TypeKind};
use crate::occurrence::{Access, Due, Occurrence};
use crate::variable::Sort;
use fsl_base::{List, Span};
use fsl_tree::Mode;
use std::alloc::AllocError;

/// A name that is no visible variable, no procedure or no invariant.
fn is_unknown(o: &Occurrence) -> bool
    ensures { result ≡ is_unknown o.now }
{
    matches!(
        o,
        Occurrence::Variable { sort: None, .. } | Occurrence::Used { fits: None, .. }
    )
}

/// A name that stands for something already.
fn is_twice(o: &Occurrence) -> bool
    ensures { result ≡ is_twice o.now }
{
    match o {
        Occurrence::Declared { stands, .. } => *stands,
        _ => false,
    }
}

/// Whether a variable is what is due.
fn is_due(due: Due, sort: Sort) -> bool
    ensures { result ≡ is_due due sort }
{
    match due {
        Due::Number => sort != Sort::Bank,
        Due::Bank => sort == Sort::Bank,
        Due::Target => sort == Sort::Local,
        Due::Any => true,
    }
}

/// Whether an access has a mode.
fn has_mode(access: Access, mode: Mode) -> bool
    ensures { result ≡ has_mode access mode }
{
    match access {
        Access::Load => matches!(
            mode,
            Mode::NonAtomic { .. } | Mode::Relaxed { .. } | Mode::Acquire { .. }
        ),
        Access::Store => matches!(
            mode,
            Mode::NonAtomic { .. } | Mode::Relaxed { .. } | Mode::Release { .. }
        ),
        Access::Update => !matches!(mode, Mode::NonAtomic { .. }),
        Access::Failure => matches!(mode, Mode::Relaxed { .. } | Mode::Acquire { .. }),
    }
}

/// A mode, a bank, a number, a `result` or a `return` where it can't be.
fn is_ill_typed(o: &Occurrence) -> bool
    ensures { result ≡ is_ill_typed o.now }
{
    match o {
        Occurrence::Variable {
            due,
            sort: Some(sort),
            ..
        } => !is_due(*due, *sort),
        Occurrence::Compound { .. } => true,
        Occurrence::Outcome { in_ensures, .. } => !*in_ensures,
        Occurrence::Moded { access, mode } => !has_mode(*access, *mode),
        Occurrence::Return { in_loop, .. } => *in_loop,
        _ => false,
    }
}

/// Another number of arguments than of parameters.
fn is_misfit(o: &Occurrence) -> bool
    ensures { result ≡ is_misfit o.now }
{
    match o {
        Occurrence::Used {
            fits: Some(fits),
            ..
        } => !*fits,
        _ => false,
    }
}

/// A modality where none may be.
fn is_modal(o: &Occurrence) -> bool
    ensures { result ≡ is_modal o.now }
{
    match o {
        Occurrence::Modality { allowed, .. } => !*allowed,
        Occurrence::Child { modal, .. } => *modal,
        _ => false,
    }
}

/// A ninth part, or the number of a part that isn't there.
fn is_no_part(o: &Occurrence) -> bool
    ensures { result ≡ is_no_part o.now }
{
    match o {
        Occurrence::Part { before, .. } => *before >= 8,
        Occurrence::PartNumber {
            number,
            last: Some(last),
            ..
        } => *number > *last as u64,
        _ => false,
    }
}

/// One more than there may be, or a `par` of fewer than two calls.
fn is_miscounted(o: &Occurrence) -> bool
    ensures { result ≡ is_miscounted o.now }
{
    match o {
        Occurrence::Declared { before, limit, .. } => *before >= *limit,
        Occurrence::Excluded { before, .. } => *before >= 16,
        Occurrence::Parallel { calls, .. } => *calls < 2 || *calls > 8,
        _ => false,
    }
}

/// No procedure `main` without parameters and `requires`.
fn lacks_main(o: &Occurrence) -> bool
    ensures { result ≡ lacks_main o.now }
{
    match o {
        Occurrence::End { has_main, .. } => !*has_main,
        _ => false,
    }
}

/// Whether something has a fault of a kind.
fn breaks(kind: TypeKind, o: &Occurrence) -> bool
    ensures { result ≡ breaks kind o.now }
{
    match kind {
        TypeKind::Unknown => is_unknown(o),
        TypeKind::Twice => is_twice(o),
        TypeKind::Type_ => is_ill_typed(o),
        TypeKind::Arity => is_misfit(o),
        TypeKind::Modal => is_modal(o),
        TypeKind::Parts => is_no_part(o),
        TypeKind::Count => is_miscounted(o),
        TypeKind::NoMain => lacks_main(o),
    }
}

/// The place of a mode.
fn place_of_mode(mode: Mode) -> Span
    ensures { result ≡ place_of_mode mode }
{
    match mode {
        Mode::NonAtomic { place }
        | Mode::Relaxed { place }
        | Mode::Acquire { place }
        | Mode::Release { place }
        | Mode::AcquireRelease { place } => place,
    }
}

/// Where something stands.
fn place_of(o: &Occurrence) -> Span
    ensures { result ≡ place_of o.now }
{
    match o {
        Occurrence::Moded { mode, .. } => place_of_mode(*mode),
        Occurrence::Variable { place, .. }
        | Occurrence::Compound { place }
        | Occurrence::Outcome { place, .. }
        | Occurrence::Declared { place, .. }
        | Occurrence::Return { place, .. }
        | Occurrence::Used { place, .. }
        | Occurrence::Modality { place, .. }
        | Occurrence::Child { place, .. }
        | Occurrence::Part { place, .. }
        | Occurrence::PartNumber { place, .. }
        | Occurrence::Excluded { place, .. }
        | Occurrence::Parallel { place, .. }
        | Occurrence::End { place, .. } => *place,
    }
}

/// Adds a fault of a kind, if there is one.
fn note_kind(faults: &mut List<Fault>, kind: TypeKind, o: &Occurrence) -> Result<(), AllocError>
    ensures { OnOk result (faults.new ≡ faults.old ++ (if breaks kind o.now then fault_at (place_of o.now) kind ∷ [] else [])) }
{
    if breaks(kind, o) {
        faults.push(Fault {
            kind,
            span: place_of(o),
        })?;
    }
    Ok(())
}

/// Adds the faults of something.
pub fn note(faults: &mut List<Fault>, o: Occurrence) -> Result<(), AllocError>
    ensures { OnOk result (faults.new ≡ noted o faults.old) }
{
    note_kind(faults, TypeKind::Unknown, &o)?;
    note_kind(faults, TypeKind::Twice, &o)?;
    note_kind(faults, TypeKind::Type_, &o)?;
    note_kind(faults, TypeKind::Arity, &o)?;
    note_kind(faults, TypeKind::Modal, &o)?;
    note_kind(faults, TypeKind::Parts, &o)?;
    note_kind(faults, TypeKind::Count, &o)?;
    note_kind(faults, TypeKind::NoMain, &o)
}

/// Where a kind stands in the order of kinds.
fn rank(kind: TypeKind) -> u8
    ensures { result ≡ rank kind }
{
    match kind {
        TypeKind::Unknown => 0,
        TypeKind::Twice => 1,
        TypeKind::Type_ => 2,
        TypeKind::Arity => 3,
        TypeKind::Modal => 4,
        TypeKind::Parts => 5,
        TypeKind::Count => 6,
        TypeKind::NoMain => 7,
    }
}

/// Whether a fault is named rather than another.
fn goes_before(a: &Fault, b: &Fault) -> bool
    ensures { result ≡ goes_before a.now b.now }
{
    a.span.from < b.span.from || (a.span.from == b.span.from && rank(a.kind) < rank(b.kind))
}

/// The fault with the least place, at one place the first in the order of kinds.
pub fn least_fault(faults: &[Fault]) -> Option<Fault>
    ensures { result ≡ least_fault faults.now }
{
    let (first, others) = faults.split_first()?;
    let mut best = *first;
    for fault in others {
        if goes_before(fault, &best) {
            best = *fault;
        }
    }
    Some(best)
}
