//! What an assignment gives its variable, modes and token steps.
ghost use Rattle.std.specs.Prelude.{◌≡◌, ◌<◌, ◌≤◌, length, OnOk};
ghost use Rattle.fsl_grammar.specs.Readers.{ReadsAs, many_of};
ghost use Rattle.fsl_grammar.specs.ReadStatements.{is_step_next, read_allocation, read_compare_and_swap, read_load, read_mode, read_optional_with, read_right_side, read_shared_cell, read_step, read_step_line, read_step_word, read_update, read_update_word, read_with};

use crate::parser::Parser;
use fsl_base::List;
use fsl_grammar::{Fault, Pair, Triple};
use fsl_token::TokenKind;
use fsl_tree::{
    Allocation, Mode, RightSide, SharedCell, Step, StepLine, StepWord, UpdateWord, With,
};
use std::alloc::Global;

impl<'a> Parser<'a> {
    /// What stands to the right of an assignment's `=`.
    #[tactic(auto, unfolding(fsl_grammar::specs::ReadStatements::read_allocate, fsl_grammar::specs::ReadStatements::read_called, fsl_grammar::specs::ReadStatements::read_right_side))]
    pub fn right_side(&mut self, alloc: Global, room: u32) -> Result<RightSide, Fault>
        ensures shorter { OnOk result (length self.new.rest.now < length self.old.rest.now) }
        ensures agrees { ReadsAs result self.new.rest.now (read_right_side room) self.old.rest.now }
    {
        if self.is_next(TokenKind::Call) {
            let word = self.take(TokenKind::Call)?;
            let callee = self.usage(alloc, room)?;
            Ok(RightSide::Call { word, callee })
        } else if self.is_next(TokenKind::Alloc) {
            let word = self.take(TokenKind::Alloc)?;
            let allocation = self.allocation(alloc, room)?;
            Ok(RightSide::Allocate { word, allocation })
        } else if self.is_next(TokenKind::Load) {
            self.load(alloc, room)
        } else if self.is_next(TokenKind::Cas) {
            self.compare_and_swap(alloc, room)
        } else if self.is_next(TokenKind::FetchAdd) || self.is_next(TokenKind::Exchange) {
            self.update(alloc, room)
        } else {
            Ok(RightSide::Value {
                value: self.expression(alloc, room)?,
            })
        }
    }

    /// `"na" | ( "acq" | "rmw" ) use`
    #[tactic(auto, unfolding(fsl_grammar::specs::ReadStatements::read_allocation, fsl_grammar::specs::ReadStatements::read_shared))]
    fn allocation(&mut self, alloc: Global, room: u32) -> Result<Allocation, Fault>
        ensures shorter { OnOk result (length self.new.rest.now < length self.old.rest.now) }
        ensures agrees { ReadsAs result self.new.rest.now (read_allocation room) self.old.rest.now }
    {
        if self.is_next(TokenKind::Na) {
            Ok(Allocation::NonAtomic {
                word: self.take(TokenKind::Na)?,
            })
        } else {
            let cell = self.shared_cell()?;
            let invariant = self.usage(alloc, room)?;
            Ok(Allocation::Shared { cell, invariant })
        }
    }

    /// `"acq" | "rmw"`
    #[tactic(auto, unfolding(fsl_grammar::specs::ReadStatements::read_shared_cell))]
    fn shared_cell(&mut self) -> Result<SharedCell, Fault>
        ensures shorter { OnOk result (length self.new.rest.now < length self.old.rest.now) }
        ensures agrees { ReadsAs result self.new.rest.now read_shared_cell self.old.rest.now }
    {
        if self.is_next(TokenKind::Acq) {
            Ok(SharedCell::Acq {
                place: self.take(TokenKind::Acq)?,
            })
        } else {
            Ok(SharedCell::Rmw {
                place: self.take(TokenKind::Rmw)?,
            })
        }
    }

    /// `"na" | "rlx" | "acq" | "rel" | "acqrel"`
    #[tactic(auto, unfolding(fsl_grammar::specs::ReadStatements::read_mode))]
    pub fn mode(&mut self) -> Result<Mode, Fault>
        ensures shorter { OnOk result (length self.new.rest.now < length self.old.rest.now) }
        ensures agrees { ReadsAs result self.new.rest.now read_mode self.old.rest.now }
    {
        if self.is_next(TokenKind::Na) {
            Ok(Mode::NonAtomic {
                place: self.take(TokenKind::Na)?,
            })
        } else if self.is_next(TokenKind::Rlx) {
            Ok(Mode::Relaxed {
                place: self.take(TokenKind::Rlx)?,
            })
        } else if self.is_next(TokenKind::Acq) {
            Ok(Mode::Acquire {
                place: self.take(TokenKind::Acq)?,
            })
        } else if self.is_next(TokenKind::Rel) {
            Ok(Mode::Release {
                place: self.take(TokenKind::Rel)?,
            })
        } else {
            Ok(Mode::AcquireRelease {
                place: self.take(TokenKind::AcqRel)?,
            })
        }
    }

    /// `"load" mode "(" expression ")"`
    #[tactic(auto, unfolding(fsl_grammar::specs::ReadStatements::read_load))]
    fn load(&mut self, alloc: Global, room: u32) -> Result<RightSide, Fault>
        ensures shorter { OnOk result (length self.new.rest.now < length self.old.rest.now) }
        ensures agrees { ReadsAs result self.new.rest.now (read_load room) self.old.rest.now }
    {
        let word = self.take(TokenKind::Load)?;
        let mode = self.mode()?;
        let open = self.open(TokenKind::OpenParen, room)?;
        let location = self.expression(alloc, room - 1)?;
        let close = self.take(TokenKind::CloseParen)?;
        Ok(RightSide::Load {
            word,
            mode,
            open,
            location,
            close,
        })
    }

    /// `"cas" mode mode "(" expression "," expression "," expression ")" [ with ]`
    #[tactic(auto, unfolding(fsl_grammar::specs::ReadStatements::read_compare_and_swap))]
    fn compare_and_swap(&mut self, alloc: Global, room: u32) -> Result<RightSide, Fault>
        ensures shorter { OnOk result (length self.new.rest.now < length self.old.rest.now) }
        ensures agrees { ReadsAs result self.new.rest.now (read_compare_and_swap room) self.old.rest.now }
    {
        let word = self.take(TokenKind::Cas)?;
        let success = self.mode()?;
        let failure = self.mode()?;
        let Triple {
            open,
            location,
            expected,
            new,
            close,
        } = self.triple(alloc, room)?;
        let with = self.optional_with(alloc, room)?;
        Ok(RightSide::CompareAndSwap {
            word,
            success,
            failure,
            open,
            location,
            expected_comma: expected.comma,
            expected: expected.value,
            new_comma: new.comma,
            new: new.value,
            close,
            with,
        })
    }

    /// `"fetch_add" | "exchange"`
    #[tactic(auto, unfolding(fsl_grammar::specs::ReadStatements::read_update_word))]
    fn update_word(&mut self) -> Result<UpdateWord, Fault>
        ensures shorter { OnOk result (length self.new.rest.now < length self.old.rest.now) }
        ensures agrees { ReadsAs result self.new.rest.now read_update_word self.old.rest.now }
    {
        if self.is_next(TokenKind::FetchAdd) {
            Ok(UpdateWord::FetchAdd {
                place: self.take(TokenKind::FetchAdd)?,
            })
        } else {
            Ok(UpdateWord::Exchange {
                place: self.take(TokenKind::Exchange)?,
            })
        }
    }

    /// `( "fetch_add" | "exchange" ) mode "(" expression "," expression ")" [ with ]`
    #[tactic(auto, unfolding(fsl_grammar::specs::ReadStatements::read_update))]
    fn update(&mut self, alloc: Global, room: u32) -> Result<RightSide, Fault>
        ensures shorter { OnOk result (length self.new.rest.now < length self.old.rest.now) }
        ensures agrees { ReadsAs result self.new.rest.now (read_update room) self.old.rest.now }
    {
        let word = self.update_word()?;
        let mode = self.mode()?;
        let Pair {
            open,
            location,
            value,
            close,
        } = self.pair(alloc, room)?;
        let with = self.optional_with(alloc, room)?;
        Ok(RightSide::Update {
            word,
            mode,
            open,
            location,
            comma: value.comma,
            operand: value.value,
            close,
            with,
        })
    }

    /// `[ with ]`
    #[tactic(auto, unfolding(fsl_grammar::specs::ReadStatements::read_optional_with))]
    fn optional_with(&mut self, alloc: Global, room: u32) -> Result<Option<With>, Fault>
        ensures shorter { OnOk result (length self.new.rest.now ≤ length self.old.rest.now) }
        ensures agrees { ReadsAs result self.new.rest.now (read_optional_with room) self.old.rest.now }
    {
        if self.is_next(TokenKind::With) {
            Ok(Some(self.with(alloc, room)?))
        } else {
            Ok(None)
        }
    }

    /// `"with" "{" { step ";" } "}"`
    #[tactic(auto, unfolding(fsl_grammar::specs::ReadStatements::read_with))]
    fn with(&mut self, alloc: Global, room: u32) -> Result<With, Fault>
        ensures shorter { OnOk result (length self.new.rest.now < length self.old.rest.now) }
        ensures agrees { ReadsAs result self.new.rest.now (read_with room) self.old.rest.now }
    {
        let word = self.take(TokenKind::With)?;
        let open = self.open(TokenKind::OpenBrace, room)?;
        let steps = self.step_lines(alloc, room - 1)?;
        let close = self.take(TokenKind::CloseBrace)?;
        Ok(With {
            word,
            open,
            steps,
            close,
        })
    }

    /// `{ step ";" }`
    #[tactic(auto, using(fsl_grammar::proofs::Turns::going_start, fsl_grammar::proofs::Turns::going_step))]
    fn step_lines(&mut self, alloc: Global, room: u32) -> Result<List<StepLine>, Fault>
        ensures shorter { OnOk result (length self.new.rest.now ≤ length self.old.rest.now) }
        ensures agrees { ReadsAs result self.new.rest.now (many_of is_step_next (read_step_line room)) self.old.rest.now }
    {
        let mut more = List::new(alloc);
        'steps: while self.is_step_next() {
            more.push(self.step_line(alloc, room)?)?;
        }
        Ok(more)
    }

    /// Whether a token step comes next.
    pub fn is_step_next(&self) -> bool
        ensures { result ≡ is_step_next self.now.rest.now }
    {
        self.is_next(TokenKind::Mint) || self.is_next(TokenKind::Burn)
    }

    /// `step ";"`
    #[tactic(auto, unfolding(fsl_grammar::specs::ReadStatements::read_step_line))]
    fn step_line(&mut self, alloc: Global, room: u32) -> Result<StepLine, Fault>
        ensures shorter { OnOk result (length self.new.rest.now < length self.old.rest.now) }
        ensures agrees { ReadsAs result self.new.rest.now (read_step_line room) self.old.rest.now }
    {
        let step = self.step(alloc, room)?;
        let semicolon = self.take(TokenKind::Semicolon)?;
        Ok(StepLine { step, semicolon })
    }

    /// `"mint" | "burn"`
    #[tactic(auto, unfolding(fsl_grammar::specs::ReadStatements::read_step_word))]
    fn step_word(&mut self) -> Result<StepWord, Fault>
        ensures shorter { OnOk result (length self.new.rest.now < length self.old.rest.now) }
        ensures agrees { ReadsAs result self.new.rest.now read_step_word self.old.rest.now }
    {
        if self.is_next(TokenKind::Mint) {
            Ok(StepWord::Mint {
                place: self.take(TokenKind::Mint)?,
            })
        } else {
            Ok(StepWord::Burn {
                place: self.take(TokenKind::Burn)?,
            })
        }
    }

    /// `( "mint" | "burn" ) "(" NAME "," expression ")"`
    #[tactic(auto, unfolding(fsl_grammar::specs::ReadStatements::read_step))]
    pub fn step(&mut self, alloc: Global, room: u32) -> Result<Step, Fault>
        ensures shorter { OnOk result (length self.new.rest.now < length self.old.rest.now) }
        ensures agrees { ReadsAs result self.new.rest.now (read_step room) self.old.rest.now }
    {
        let word = self.step_word()?;
        let open = self.open(TokenKind::OpenParen, room)?;
        let bank = self.take(TokenKind::Name)?;
        let comma = self.take(TokenKind::Comma)?;
        let amount = self.expression(alloc, room - 1)?;
        let close = self.take(TokenKind::CloseParen)?;
        Ok(Step {
            word,
            open,
            bank,
            comma,
            amount,
            close,
        })
    }
}
