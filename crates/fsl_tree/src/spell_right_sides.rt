//! The tokens of right sides and steps, put in front of those that follow them.
ghost use Rattle.std.specs.Prelude.{◌≡◌, ◌∷◌, OnOk, map};
ghost use Rattle.fsl_tree.specs.SpelledExpressions.{all};
ghost use Rattle.fsl_tree.specs.SpelledStatements.{mode_token, cell_token, update_word_token, step_word_token, step, step_line, optional_with, allocation, right_side};

use crate::following::Following;
use crate::right_side::{
    Allocation, Mode, RightSide, SharedCell, Step, StepLine, StepWord, UpdateWord, With,
};
use fsl_token::TokenKind;
use std::alloc::AllocError;

impl Following {
    pub fn right_side(&mut self, part: &RightSide) -> Result<(), AllocError>
        ensures { OnOk result (self.new ≡ right_side part.now self.old) }
    {
        match part {
            RightSide::Value { value } => self.expression(value),
            RightSide::Call { word, callee } => {
                self.usage(callee)?;
                self.fixed(TokenKind::Call, *word)
            }
            RightSide::Allocate { word, allocation } => {
                self.allocation(allocation)?;
                self.fixed(TokenKind::Alloc, *word)
            }
            RightSide::Load {
                word,
                mode,
                open,
                location,
                close,
            } => {
                self.grouped(*open, location, *close)?;
                self.mode(*mode)?;
                self.fixed(TokenKind::Load, *word)
            }
            RightSide::CompareAndSwap {
                word,
                success,
                failure,
                open,
                location,
                expected_comma,
                expected,
                new_comma,
                new,
                close,
                with,
            } => {
                self.optional_with(with)?;
                self.fixed(TokenKind::CloseParen, *close)?;
                self.expression(new)?;
                self.fixed(TokenKind::Comma, *new_comma)?;
                self.expression(expected)?;
                self.fixed(TokenKind::Comma, *expected_comma)?;
                self.expression(location)?;
                self.fixed(TokenKind::OpenParen, *open)?;
                self.mode(*failure)?;
                self.mode(*success)?;
                self.fixed(TokenKind::Cas, *word)
            }
            RightSide::Update {
                word,
                mode,
                open,
                location,
                comma,
                operand,
                close,
                with,
            } => {
                self.optional_with(with)?;
                self.pair(*open, location, *comma, operand, *close)?;
                self.mode(*mode)?;
                self.update_word(*word)
            }
        }
    }

    pub fn mode(&mut self, part: Mode) -> Result<(), AllocError>
        ensures { OnOk result (self.new ≡ mode_token part ∷ self.old) }
    {
        match part {
            Mode::NonAtomic { place } => self.fixed(TokenKind::Na, place),
            Mode::Relaxed { place } => self.fixed(TokenKind::Rlx, place),
            Mode::Acquire { place } => self.fixed(TokenKind::Acq, place),
            Mode::Release { place } => self.fixed(TokenKind::Rel, place),
            Mode::AcquireRelease { place } => self.fixed(TokenKind::AcqRel, place),
        }
    }

    fn shared_cell(&mut self, part: SharedCell) -> Result<(), AllocError>
        ensures { OnOk result (self.new ≡ cell_token part ∷ self.old) }
    {
        match part {
            SharedCell::Acq { place } => self.fixed(TokenKind::Acq, place),
            SharedCell::Rmw { place } => self.fixed(TokenKind::Rmw, place),
        }
    }

    fn update_word(&mut self, part: UpdateWord) -> Result<(), AllocError>
        ensures { OnOk result (self.new ≡ update_word_token part ∷ self.old) }
    {
        match part {
            UpdateWord::FetchAdd { place } => self.fixed(TokenKind::FetchAdd, place),
            UpdateWord::Exchange { place } => self.fixed(TokenKind::Exchange, place),
        }
    }

    fn step_word(&mut self, part: StepWord) -> Result<(), AllocError>
        ensures { OnOk result (self.new ≡ step_word_token part ∷ self.old) }
    {
        match part {
            StepWord::Mint { place } => self.fixed(TokenKind::Mint, place),
            StepWord::Burn { place } => self.fixed(TokenKind::Burn, place),
        }
    }

    fn allocation(&mut self, part: &Allocation) -> Result<(), AllocError>
        ensures { OnOk result (self.new ≡ allocation part.now self.old) }
    {
        match part {
            Allocation::NonAtomic { word } => self.fixed(TokenKind::Na, *word),
            Allocation::Shared { cell, invariant } => {
                self.usage(invariant)?;
                self.shared_cell(*cell)
            }
        }
    }

    fn optional_with(&mut self, part: &Option<With>) -> Result<(), AllocError>
        ensures { OnOk result (self.new ≡ optional_with part.now self.old) }
    {
        match part {
            None => Ok(()),
            Some(with) => {
                self.fixed(TokenKind::CloseBrace, with.close)?;
                self.step_lines(with.steps.as_slice())?;
                self.fixed(TokenKind::OpenBrace, with.open)?;
                self.fixed(TokenKind::With, with.word)
            }
        }
    }

    #[tactic(auto, using(crate::proofs::Parts::all_last))]
    fn step_lines(&mut self, parts: &[StepLine]) -> Result<(), AllocError>
        ensures { OnOk result (self.new ≡ all (map step_line parts.now) self.old) }
    {
        for part in parts.iter().rev() {
            self.step_line(part)?;
        }
        Ok(())
    }

    fn step_line(&mut self, part: &StepLine) -> Result<(), AllocError>
        ensures { OnOk result (self.new ≡ step_line part.now self.old) }
    {
        self.fixed(TokenKind::Semicolon, part.semicolon)?;
        self.step(&part.step)
    }

    pub fn step(&mut self, part: &Step) -> Result<(), AllocError>
        ensures { OnOk result (self.new ≡ step part.now self.old) }
    {
        self.fixed(TokenKind::CloseParen, part.close)?;
        self.expression(&part.amount)?;
        self.fixed(TokenKind::Comma, part.comma)?;
        self.fixed(TokenKind::Name, part.bank)?;
        self.fixed(TokenKind::OpenParen, part.open)?;
        self.step_word(part.word)
    }
}
