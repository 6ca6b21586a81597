//! The tokens of statements and blocks, put in front of those that follow them.
ghost use Rattle.std.specs.Prelude.{◌≡◌, ◌∷◌, OnOk, map};
ghost use Rattle.fsl_tree.specs.SpelledExpressions.{all};
ghost use Rattle.fsl_tree.specs.SpelledStatements.{assigned, clause, optional_clause, optional_expression, parallel_call, release_word_token, fence, statement, block, otherwise, optional_otherwise};

use crate::declaration::Clause;
use crate::expression::Expression;
use crate::following::Following;
use crate::right_side::RightSide;
use crate::statement::{Block, FenceKind, Otherwise, ParallelCall, ReleaseWord, Statement};
use fsl_base::Span;
use fsl_token::TokenKind;
use std::alloc::AllocError;

impl Following {
    #[cycle(statement)]
    #[tactic(auto, unfolding(crate::specs::SpelledStatements::block, crate::specs::SpelledStatements::statement, crate::specs::SpelledStatements::otherwise))]
    pub fn block(&mut self, part: &Block) -> Result<(), AllocError>
        ensures { OnOk result (self.new ≡ block part.now self.old) }
    {
        self.fixed(TokenKind::CloseBrace, part.close)?;
        self.statements(part.statements.as_slice())?;
        self.fixed(TokenKind::OpenBrace, part.open)
    }

    #[cycle(statement)]
    #[tactic(auto, using(crate::proofs::Parts::all_last))]
    fn statements(&mut self, parts: &[Statement]) -> Result<(), AllocError>
        ensures { OnOk result (self.new ≡ all (map statement parts.now) self.old) }
    {
        for part in parts.iter().rev() {
            self.statement(part)?;
        }
        Ok(())
    }

    #[cycle(statement)]
    #[tactic(auto, unfolding(crate::specs::SpelledStatements::block, crate::specs::SpelledStatements::statement, crate::specs::SpelledStatements::otherwise))]
    fn statement(&mut self, part: &Statement) -> Result<(), AllocError>
        ensures { OnOk result (self.new ≡ statement part.now self.old) }
    {
        match part {
            Statement::Let {
                word,
                name,
                equals,
                right,
                semicolon,
            } => {
                self.assigned(*name, *equals, right, *semicolon)?;
                self.fixed(TokenKind::Let, *word)
            }
            Statement::Assign {
                name,
                equals,
                right,
                semicolon,
            } => self.assigned(*name, *equals, right, *semicolon),
            Statement::Store {
                word,
                mode,
                open,
                location,
                comma,
                value,
                close,
                semicolon,
            } => {
                self.fixed(TokenKind::Semicolon, *semicolon)?;
                self.pair(*open, location, *comma, value, *close)?;
                self.mode(*mode)?;
                self.fixed(TokenKind::Store, *word)
            }
            Statement::Call {
                word,
                callee,
                semicolon,
            } => {
                self.fixed(TokenKind::Semicolon, *semicolon)?;
                self.usage(callee)?;
                self.fixed(TokenKind::Call, *word)
            }
            Statement::Parallel {
                word,
                open,
                calls,
                close,
            } => {
                self.fixed(TokenKind::CloseBrace, *close)?;
                self.parallel_calls(calls.as_slice())?;
                self.fixed(TokenKind::OpenBrace, *open)?;
                self.fixed(TokenKind::Par, *word)
            }
            Statement::Fence {
                word,
                kind,
                semicolon,
            } => {
                self.fixed(TokenKind::Semicolon, *semicolon)?;
                self.fence(kind)?;
                self.fixed(TokenKind::Fence, *word)
            }
            Statement::If {
                word,
                open,
                condition,
                close,
                then_block,
                otherwise,
            } => {
                self.optional_otherwise(otherwise)?;
                self.block(then_block)?;
                self.tested(*open, condition, *close)?;
                self.fixed(TokenKind::If, *word)
            }
            Statement::While {
                word,
                open,
                condition,
                close,
                invariant,
                body,
            } => {
                self.block(body)?;
                self.optional_clause(invariant, TokenKind::Inv)?;
                self.tested(*open, condition, *close)?;
                self.fixed(TokenKind::While, *word)
            }
            Statement::Assert {
                word,
                open,
                condition,
                close,
                semicolon,
            } => {
                self.fixed(TokenKind::Semicolon, *semicolon)?;
                self.tested(*open, condition, *close)?;
                self.fixed(TokenKind::Assert, *word)
            }
            Statement::Print {
                word,
                open,
                value,
                close,
                semicolon,
            } => {
                self.fixed(TokenKind::Semicolon, *semicolon)?;
                self.grouped(*open, value, *close)?;
                self.fixed(TokenKind::Print, *word)
            }
            Statement::Free {
                word,
                open,
                location,
                close,
                semicolon,
            } => {
                self.fixed(TokenKind::Semicolon, *semicolon)?;
                self.grouped(*open, location, *close)?;
                self.fixed(TokenKind::Free, *word)
            }
            Statement::Return {
                word,
                value,
                semicolon,
            } => {
                self.fixed(TokenKind::Semicolon, *semicolon)?;
                self.optional_expression(value)?;
                self.fixed(TokenKind::Return, *word)
            }
            Statement::Bank {
                word,
                name,
                semicolon,
            } => {
                self.fixed(TokenKind::Semicolon, *semicolon)?;
                self.fixed(TokenKind::Name, *name)?;
                self.fixed(TokenKind::Bank, *word)
            }
            Statement::Step { step, semicolon } => {
                self.fixed(TokenKind::Semicolon, *semicolon)?;
                self.step(step)
            }
        }
    }

    #[cycle(statement)]
    #[tactic(auto, unfolding(crate::specs::SpelledStatements::block, crate::specs::SpelledStatements::statement, crate::specs::SpelledStatements::otherwise))]
    fn otherwise(&mut self, part: &Otherwise) -> Result<(), AllocError>
        ensures { OnOk result (self.new ≡ otherwise part.now self.old) }
    {
        self.block(&part.block)?;
        self.fixed(TokenKind::Else, part.word)
    }

    #[cycle(statement)]
    fn optional_otherwise(&mut self, part: &Option<Otherwise>) -> Result<(), AllocError>
        ensures { OnOk result (self.new ≡ optional_otherwise part.now self.old) }
    {
        match part {
            None => Ok(()),
            Some(otherwise) => self.otherwise(otherwise),
        }
    }

    /// `NAME "=" right_side ";"`
    fn assigned(
        &mut self,
        name: Span,
        equals: Span,
        right: &RightSide,
        semicolon: Span,
    ) -> Result<(), AllocError>
        ensures { OnOk result (self.new ≡ assigned name equals right.now semicolon self.old) }
    {
        self.fixed(TokenKind::Semicolon, semicolon)?;
        self.right_side(right)?;
        self.fixed(TokenKind::Assign, equals)?;
        self.fixed(TokenKind::Name, name)
    }

    fn clause(&mut self, part: &Clause, word: TokenKind) -> Result<(), AllocError>
        ensures { OnOk result (self.new ≡ clause word part.now self.old) }
    {
        self.fixed(TokenKind::CloseParen, part.close)?;
        self.assertion(&part.assertion)?;
        self.fixed(TokenKind::OpenParen, part.open)?;
        self.fixed(word, part.word)
    }

    pub fn optional_clause(
        &mut self,
        part: &Option<Clause>,
        word: TokenKind,
    ) -> Result<(), AllocError>
        ensures { OnOk result (self.new ≡ optional_clause word part.now self.old) }
    {
        match part {
            None => Ok(()),
            Some(clause) => self.clause(clause, word),
        }
    }

    fn optional_expression(&mut self, part: &Option<Expression>) -> Result<(), AllocError>
        ensures { OnOk result (self.new ≡ optional_expression part.now self.old) }
    {
        match part {
            None => Ok(()),
            Some(value) => self.expression(value),
        }
    }

    #[tactic(auto, using(crate::proofs::Parts::all_last))]
    fn parallel_calls(&mut self, parts: &[ParallelCall]) -> Result<(), AllocError>
        ensures { OnOk result (self.new ≡ all (map parallel_call parts.now) self.old) }
    {
        for part in parts.iter().rev() {
            self.parallel_call(part)?;
        }
        Ok(())
    }

    fn parallel_call(&mut self, part: &ParallelCall) -> Result<(), AllocError>
        ensures { OnOk result (self.new ≡ parallel_call part.now self.old) }
    {
        self.fixed(TokenKind::Semicolon, part.semicolon)?;
        self.usage(&part.callee)
    }

    fn release_word(&mut self, part: ReleaseWord) -> Result<(), AllocError>
        ensures { OnOk result (self.new ≡ release_word_token part ∷ self.old) }
    {
        match part {
            ReleaseWord::Release { place } => self.fixed(TokenKind::Rel, place),
            ReleaseWord::AcquireRelease { place } => self.fixed(TokenKind::AcqRel, place),
        }
    }

    fn fence(&mut self, part: &FenceKind) -> Result<(), AllocError>
        ensures { OnOk result (self.new ≡ fence part.now self.old) }
    {
        match part {
            FenceKind::Acquire { word } => self.fixed(TokenKind::Acq, *word),
            FenceKind::Release {
                word,
                open,
                assertion,
                close,
            } => {
                self.fixed(TokenKind::CloseParen, *close)?;
                self.assertion(assertion)?;
                self.fixed(TokenKind::OpenParen, *open)?;
                self.release_word(*word)
            }
        }
    }
}
