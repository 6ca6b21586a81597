//! What is left of a path: what comes behind a statement at each depth of nesting, and where the path ends.
ghost use Rattle.std.specs.Prelude.{◌≡◌, [], ◌∷◌, IfOk};
ghost use Rattle.fsl_flow.specs.Continuation.{frame_of, leaving_of, continuation_of, in_block, within};

use fsl_base::{List, Span};
use fsl_core::{Asrt, Cond, Stmt};
use std::alloc::{AllocError, Global};

/// A loop, and how many slots are declared before it.
#[derive(Clone, Copy)]
pub struct Loop<'a> {
    pub at: Span,
    pub cond: &'a Cond,
    pub inv: &'a Asrt,
    pub body: &'a [Stmt],
    pub declared: u64,
}

/// What is left at one depth of nesting.
#[derive(Clone, Copy)]
pub enum Frame<'a> {
    /// Statements, behind so many declared slots.
    Block { stmts: &'a [Stmt], declared: u64 },
    /// A loop to which the invariant was given.
    Loop { entered: Loop<'a> },
}

/// Where a path ends that comes through all its frames.
#[derive(Clone, Copy)]
pub enum Exit<'a> {
    /// The closing brace of the procedure.
    Closing { at: Span },
    /// The end of a loop's body, where the invariant is given back.
    Back { at: Span, inv: &'a Asrt },
}

/// What is left of a path, from the outermost frame to the innermost.
#[derive(Drop)]
pub struct Continuation<'a> {
    pub frames: List<Frame<'a>>,
    pub exit: Exit<'a>,
}

impl<'a> Continuation<'a> {
    /// A body that a path runs through.
    #[tactic(auto, using(crate::proofs::ContinuationLemmas::none_first, crate::proofs::ContinuationLemmas::last_first))]
    pub fn body(
        alloc: Global,
        stmts: &'a [Stmt],
        declared: u64,
        exit: Exit<'a>,
    ) -> Result<Continuation<'a>, AllocError>
        ensures { IfOk result (λ continuation. continuation_of continuation ≡ record { frames = in_block stmts.now declared ∷ []; leaving = leaving_of exit.entry }) }
    {
        let mut frames = List::new(alloc);
        frames.push(Frame::Block { stmts, declared })?;
        Ok(Continuation { frames, exit })
    }

    /// The same for another path.
    pub fn copy(&self, alloc: Global) -> Result<Continuation<'a>, AllocError>
        ensures { IfOk result (λ continuation. continuation ≡ self.now) }
    {
        let frames = List::from_slice(alloc, self.frames.as_slice())?;
        Ok(Continuation {
            frames,
            exit: self.exit,
        })
    }

    /// The same behind one more frame.
    #[tactic(auto, using(crate::proofs::ContinuationLemmas::last_first))]
    pub fn with(self, frame: Frame<'a>) -> Result<Continuation<'a>, AllocError>
        ensures { IfOk result (λ continuation. continuation_of continuation ≡ within (frame_of frame.entry) (continuation_of self.entry)) }
    {
        let Continuation { mut frames, exit } = self;
        frames.push(frame)?;
        Ok(Continuation { frames, exit })
    }
}
