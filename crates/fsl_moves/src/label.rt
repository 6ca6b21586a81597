//! The label of a move, by what it asks and what it is answered.
ghost use Rattle.std.specs.Prelude.{◌≡◌};
ghost use Rattle.fsl_moves.specs.Label.{update_of, updating, label_of};

use fsl_core::{Label, Mode, Need, Reply, RmwOp};

/// What a read-modify-write writes that has read a value, `None` where it doesn't write: a compare-exchange of
/// another value, or a sum out of range.
pub fn update_of(op: &RmwOp, read: &i64) -> Option<i64>
    ensures { result ≡ update_of op.now read.now }
{
    match op {
        RmwOp::Add { n } => read.checked_add(*n),
        RmwOp::Swap { n } => Some(*n),
        RmwOp::Cas { old, new } => { if read == old { Some(*new) } else { None } }
    }
}

/// The label of a read-modify-write that writes, else that of its read.
fn updating(modes: (Mode, Mode), loc: &i64, read: &i64, new: Option<i64>) -> Label
    ensures { result ≡ updating modes.0 modes.1 loc.now read.now new }
{
    match new {
        Some(new) => Label::Rmw {
            mode: modes.0,
            loc: *loc,
            old: *read,
            new,
        },
        None => Label::Load {
            mode: modes.1,
            loc: *loc,
            value: *read,
        },
    }
}

/// The label of a move, `None` where it is local, where it starts threads or waits for them, and where the answer
/// is of another kind than what was asked.
pub fn label_of(need: &Need, reply: &Reply) -> Option<Label>
    ensures { result ≡ label_of need.now reply.now }
{
    match (need, reply) {
        (Need::Load { mode, loc }, Reply::Read { value }) => Some(Label::Load {
            mode: *mode,
            loc: *loc,
            value: *value,
        }),
        (
            Need::Rmw {
                mode,
                fail,
                loc,
                op,
            },
            Reply::Read { value },
        ) => Some(updating((*mode, *fail), loc, value, update_of(op, value))),
        (Need::Store { mode, loc, value }, _) => Some(Label::Store {
            mode: *mode,
            loc: *loc,
            value: *value,
        }),
        (Need::Alloc { kind }, Reply::Place { loc }) => Some(Label::Alloc {
            kind: *kind,
            loc: *loc,
        }),
        (Need::Free { loc }, _) => Some(Label::Free { loc: *loc }),
        (Need::Fence { mode }, _) => Some(Label::Fence { mode: *mode }),
        (Need::Print { value }, _) => Some(Label::Print { value: *value }),
        (Need::End { value }, _) => Some(Label::End { value: *value }),
        _ => None,
    }
}
