//! Statements and blocks.
ghost use Rattle.std.specs.Prelude.{◌≡◌, ◌-◌, ◌<◌, ◌≤◌, length, OnOk};
ghost use Rattle.fsl_grammar.specs.Readers.{ReadsAs, many_of};
ghost use Rattle.fsl_grammar.specs.Heads.{is_next};
ghost use Rattle.fsl_grammar.specs.ReadStatements.{goes_on, read_assert, read_assign, read_bank, read_block, read_call, read_fence, read_fence_kind, read_free, read_guarded, read_guarded_while, read_if, read_let, read_optional_clause, read_optional_expression, read_optional_otherwise, read_parallel, read_parallel_call, read_print, read_release, read_release_word, read_return, read_simple_statement, read_statement, read_step_statement, read_store};
ghost use Rattle.fsl_token.specs.declared.kind.TokenKind.TheVariants.{Name};

use crate::parser::Parser;
use fsl_base::List;
use fsl_grammar::{Enclosed, Fault, Guarded, Pair, Test};
use fsl_token::TokenKind;
use fsl_tree::{
    Block, Clause, Expression, FenceKind, Otherwise, ParallelCall, ReleaseWord, Statement,
};
use std::alloc::Global;

impl<'a> Parser<'a> {
    /// `"{" { statement } "}"`
    #[cycle(statement)]
    #[tactic(auto, unfolding(fsl_grammar::specs::ReadStatements::read_block_of))]
    pub fn block(&mut self, alloc: Global, room: u32) -> Result<Block, Fault>
        ensures shorter { OnOk result (length self.new.rest.now < length self.old.rest.now) }
        ensures agrees { ReadsAs result self.new.rest.now (read_block room) self.old.rest.now }
    {
        let open = self.open(TokenKind::OpenBrace, room)?;
        let statements = self.statements(alloc, room - 1)?;
        let close = self.take(TokenKind::CloseBrace)?;
        Ok(Block {
            open,
            statements,
            close,
        })
    }

    /// Whether a token comes next that is no `}`.
    fn goes_on(&self) -> bool
        ensures { result ≡ goes_on self.now.rest.now }
    {
        self.is_more() && !self.is_next(TokenKind::CloseBrace)
    }

    /// `{ statement }`, up to a `}`
    #[cycle(statement)]
    #[tactic(auto, using(fsl_grammar::proofs::Turns::going_start, fsl_grammar::proofs::Turns::going_step))]
    fn statements(&mut self, alloc: Global, room: u32) -> Result<List<Statement>, Fault>
        ensures shorter { OnOk result (length self.new.rest.now ≤ length self.old.rest.now) }
        ensures agrees { ReadsAs result self.new.rest.now (many_of goes_on (read_statement room)) self.old.rest.now }
    {
        let mut more = List::new(alloc);
        'statements: while self.goes_on() {
            more.push(self.statement(alloc, room)?)?;
        }
        Ok(more)
    }

    /// One statement.
    #[cycle(statement)]
    fn statement(&mut self, alloc: Global, room: u32) -> Result<Statement, Fault>
        ensures shorter { OnOk result (length self.new.rest.now < length self.old.rest.now) }
        ensures agrees { ReadsAs result self.new.rest.now (read_statement room) self.old.rest.now }
    {
        if self.is_next(TokenKind::If) {
            self.if_statement(alloc, room)
        } else if self.is_next(TokenKind::While) {
            self.while_statement(alloc, room)
        } else {
            self.simple_statement(alloc, room)
        }
    }

    /// `"if" "(" condition ")" block [ "else" block ]`
    #[cycle(statement)]
    #[tactic(auto, unfolding(fsl_grammar::specs::ReadStatements::read_if))]
    fn if_statement(&mut self, alloc: Global, room: u32) -> Result<Statement, Fault>
        ensures shorter { OnOk result (length self.new.rest.now < length self.old.rest.now) }
        ensures agrees { ReadsAs result self.new.rest.now (read_if room (read_statement (room - 1))) self.old.rest.now }
    {
        let Test {
            word,
            open,
            condition,
            close,
        } = self.test(alloc, TokenKind::If, room)?;
        let then_block = self.block(alloc, room)?;
        let otherwise = self.optional_otherwise(alloc, room)?;
        Ok(Statement::If {
            word,
            open,
            condition,
            close,
            then_block,
            otherwise,
        })
    }

    /// `[ "else" block ]`
    #[cycle(statement)]
    #[tactic(auto, unfolding(fsl_grammar::specs::ReadStatements::read_optional_otherwise, fsl_grammar::specs::ReadStatements::read_otherwise))]
    fn optional_otherwise(&mut self, alloc: Global, room: u32) -> Result<Option<Otherwise>, Fault>
        ensures shorter { OnOk result (length self.new.rest.now ≤ length self.old.rest.now) }
        ensures agrees { ReadsAs result self.new.rest.now (read_optional_otherwise room (read_statement (room - 1))) self.old.rest.now }
    {
        if self.is_next(TokenKind::Else) {
            let word = self.take(TokenKind::Else)?;
            let block = self.block(alloc, room)?;
            Ok(Some(Otherwise { word, block }))
        } else {
            Ok(None)
        }
    }

    /// `"while" "(" condition ")" [ "inv" "(" assertion ")" ] block`
    #[cycle(statement)]
    #[tactic(auto, unfolding(fsl_grammar::specs::ReadStatements::read_guarded_while))]
    fn while_statement(&mut self, alloc: Global, room: u32) -> Result<Statement, Fault>
        ensures shorter { OnOk result (length self.new.rest.now < length self.old.rest.now) }
        ensures agrees { ReadsAs result self.new.rest.now (read_guarded_while room (read_statement (room - 1))) self.old.rest.now }
    {
        let Test {
            word,
            open,
            condition,
            close,
        } = self.test(alloc, TokenKind::While, room)?;
        let Guarded { invariant, body } = self.guarded(alloc, room)?;
        Ok(Statement::While {
            word,
            open,
            condition,
            close,
            invariant,
            body,
        })
    }

    /// `[ "inv" "(" assertion ")" ] block`
    #[cycle(statement)]
    #[tactic(auto, unfolding(fsl_grammar::specs::ReadStatements::read_guarded))]
    fn guarded(&mut self, alloc: Global, room: u32) -> Result<Guarded, Fault>
        ensures shorter { OnOk result (length self.new.rest.now < length self.old.rest.now) }
        ensures agrees { ReadsAs result self.new.rest.now (read_guarded room (read_statement (room - 1))) self.old.rest.now }
    {
        let invariant = self.optional_clause(alloc, TokenKind::Inv, room)?;
        let body = self.block(alloc, room)?;
        Ok(Guarded { invariant, body })
    }

    /// `[ word "(" assertion ")" ]`
    #[tactic(auto, unfolding(fsl_grammar::specs::ReadStatements::read_optional_clause))]
    pub fn optional_clause(
        &mut self,
        alloc: Global,
        word: TokenKind,
        room: u32,
    ) -> Result<Option<Clause>, Fault>
        ensures shorter { OnOk result (length self.new.rest.now ≤ length self.old.rest.now) }
        ensures agrees { ReadsAs result self.new.rest.now (read_optional_clause word room) self.old.rest.now }
    {
        if self.is_next(word) {
            Ok(Some(self.clause(alloc, word, room)?))
        } else {
            Ok(None)
        }
    }

    /// A statement without a block.
    #[tactic(auto, unfolding(fsl_grammar::specs::ReadStatements::read_simple_statement))]
    fn simple_statement(&mut self, alloc: Global, room: u32) -> Result<Statement, Fault>
        ensures shorter { OnOk result (length self.new.rest.now < length self.old.rest.now) }
        ensures agrees { ReadsAs result self.new.rest.now (read_simple_statement room) self.old.rest.now }
    {
        if self.is_next(TokenKind::Let) {
            self.let_statement(alloc, room)
        } else if self.is_next(TokenKind::Store) {
            self.store(alloc, room)
        } else if self.is_next(TokenKind::Call) {
            self.call(alloc, room)
        } else if self.is_next(TokenKind::Par) {
            self.parallel(alloc, room)
        } else if self.is_next(TokenKind::Fence) {
            self.fence(alloc, room)
        } else if self.is_next(TokenKind::Assert) {
            self.assert_statement(alloc, room)
        } else if self.is_next(TokenKind::Print) {
            self.print_statement(alloc, room)
        } else if self.is_next(TokenKind::Free) {
            self.free_statement(alloc, room)
        } else if self.is_next(TokenKind::Return) {
            self.return_statement(alloc, room)
        } else if self.is_next(TokenKind::Bank) {
            self.bank_statement()
        } else if self.is_next(TokenKind::Mint) || self.is_next(TokenKind::Burn) {
            self.step_statement(alloc, room)
        } else {
            self.assign(alloc, room)
        }
    }

    /// `"let" NAME "=" right_side ";"`
    #[tactic(auto, unfolding(fsl_grammar::specs::ReadStatements::read_let))]
    fn let_statement(&mut self, alloc: Global, room: u32) -> Result<Statement, Fault>
        ensures shorter { OnOk result (length self.new.rest.now < length self.old.rest.now) }
        ensures agrees { ReadsAs result self.new.rest.now (read_let room) self.old.rest.now }
    {
        let word = self.take(TokenKind::Let)?;
        let name = self.take(TokenKind::Name)?;
        let equals = self.take(TokenKind::Assign)?;
        let right = self.right_side(alloc, room)?;
        let semicolon = self.take(TokenKind::Semicolon)?;
        Ok(Statement::Let {
            word,
            name,
            equals,
            right,
            semicolon,
        })
    }

    /// `NAME "=" right_side ";"`
    #[tactic(auto, unfolding(fsl_grammar::specs::ReadStatements::read_assign))]
    fn assign(&mut self, alloc: Global, room: u32) -> Result<Statement, Fault>
        ensures shorter { OnOk result (length self.new.rest.now < length self.old.rest.now) }
        ensures agrees { ReadsAs result self.new.rest.now (read_assign room) self.old.rest.now }
    {
        let name = self.take(TokenKind::Name)?;
        let equals = self.take(TokenKind::Assign)?;
        let right = self.right_side(alloc, room)?;
        let semicolon = self.take(TokenKind::Semicolon)?;
        Ok(Statement::Assign {
            name,
            equals,
            right,
            semicolon,
        })
    }

    /// `"store" mode "(" expression "," expression ")" ";"`
    #[tactic(auto, unfolding(fsl_grammar::specs::ReadStatements::read_store))]
    fn store(&mut self, alloc: Global, room: u32) -> Result<Statement, Fault>
        ensures shorter { OnOk result (length self.new.rest.now < length self.old.rest.now) }
        ensures agrees { ReadsAs result self.new.rest.now (read_store room) self.old.rest.now }
    {
        let word = self.take(TokenKind::Store)?;
        let mode = self.mode()?;
        let Pair {
            open,
            location,
            value,
            close,
        } = self.pair(alloc, room)?;
        let semicolon = self.take(TokenKind::Semicolon)?;
        Ok(Statement::Store {
            word,
            mode,
            open,
            location,
            comma: value.comma,
            value: value.value,
            close,
            semicolon,
        })
    }

    /// `"call" use ";"`
    #[tactic(auto, unfolding(fsl_grammar::specs::ReadStatements::read_call))]
    fn call(&mut self, alloc: Global, room: u32) -> Result<Statement, Fault>
        ensures shorter { OnOk result (length self.new.rest.now < length self.old.rest.now) }
        ensures agrees { ReadsAs result self.new.rest.now (read_call room) self.old.rest.now }
    {
        let word = self.take(TokenKind::Call)?;
        let callee = self.usage(alloc, room)?;
        let semicolon = self.take(TokenKind::Semicolon)?;
        Ok(Statement::Call {
            word,
            callee,
            semicolon,
        })
    }

    /// `"par" "{" { use ";" } "}"`
    #[tactic(auto, unfolding(fsl_grammar::specs::ReadStatements::read_parallel))]
    fn parallel(&mut self, alloc: Global, room: u32) -> Result<Statement, Fault>
        ensures shorter { OnOk result (length self.new.rest.now < length self.old.rest.now) }
        ensures agrees { ReadsAs result self.new.rest.now (read_parallel room) self.old.rest.now }
    {
        let word = self.take(TokenKind::Par)?;
        let open = self.open(TokenKind::OpenBrace, room)?;
        let calls = self.parallel_calls(alloc, room - 1)?;
        let close = self.take(TokenKind::CloseBrace)?;
        Ok(Statement::Parallel {
            word,
            open,
            calls,
            close,
        })
    }

    /// `{ use ";" }`
    #[tactic(auto, using(fsl_grammar::proofs::Turns::going_start, fsl_grammar::proofs::Turns::going_step))]
    fn parallel_calls(&mut self, alloc: Global, room: u32) -> Result<List<ParallelCall>, Fault>
        ensures shorter { OnOk result (length self.new.rest.now ≤ length self.old.rest.now) }
        ensures agrees { ReadsAs result self.new.rest.now (many_of (is_next Name) (read_parallel_call room)) self.old.rest.now }
    {
        let mut more = List::new(alloc);
        'calls: while self.is_next(TokenKind::Name) {
            more.push(self.parallel_call(alloc, room)?)?;
        }
        Ok(more)
    }

    /// `use ";"`
    #[tactic(auto, unfolding(fsl_grammar::specs::ReadStatements::read_parallel_call))]
    fn parallel_call(&mut self, alloc: Global, room: u32) -> Result<ParallelCall, Fault>
        ensures shorter { OnOk result (length self.new.rest.now < length self.old.rest.now) }
        ensures agrees { ReadsAs result self.new.rest.now (read_parallel_call room) self.old.rest.now }
    {
        let callee = self.usage(alloc, room)?;
        let semicolon = self.take(TokenKind::Semicolon)?;
        Ok(ParallelCall { callee, semicolon })
    }

    /// `"fence" fence_kind ";"`
    #[tactic(auto, unfolding(fsl_grammar::specs::ReadStatements::read_fence))]
    fn fence(&mut self, alloc: Global, room: u32) -> Result<Statement, Fault>
        ensures shorter { OnOk result (length self.new.rest.now < length self.old.rest.now) }
        ensures agrees { ReadsAs result self.new.rest.now (read_fence room) self.old.rest.now }
    {
        let word = self.take(TokenKind::Fence)?;
        let kind = self.fence_kind(alloc, room)?;
        let semicolon = self.take(TokenKind::Semicolon)?;
        Ok(Statement::Fence {
            word,
            kind,
            semicolon,
        })
    }

    /// `"acq" | ( "rel" | "acqrel" ) "(" assertion ")"`
    #[tactic(auto, unfolding(fsl_grammar::specs::ReadStatements::read_fence_kind))]
    fn fence_kind(&mut self, alloc: Global, room: u32) -> Result<FenceKind, Fault>
        ensures shorter { OnOk result (length self.new.rest.now < length self.old.rest.now) }
        ensures agrees { ReadsAs result self.new.rest.now (read_fence_kind room) self.old.rest.now }
    {
        if self.is_next(TokenKind::Acq) {
            Ok(FenceKind::Acquire {
                word: self.take(TokenKind::Acq)?,
            })
        } else {
            self.release_fence(alloc, room)
        }
    }

    /// `( "rel" | "acqrel" ) "(" assertion ")"`
    #[tactic(auto, unfolding(fsl_grammar::specs::ReadStatements::read_release))]
    fn release_fence(&mut self, alloc: Global, room: u32) -> Result<FenceKind, Fault>
        ensures shorter { OnOk result (length self.new.rest.now < length self.old.rest.now) }
        ensures agrees { ReadsAs result self.new.rest.now (read_release room) self.old.rest.now }
    {
        let word = self.release_word()?;
        let open = self.open(TokenKind::OpenParen, room)?;
        let assertion = self.assertion(alloc, room - 1)?;
        let close = self.take(TokenKind::CloseParen)?;
        Ok(FenceKind::Release {
            word,
            open,
            assertion,
            close,
        })
    }

    /// `"rel" | "acqrel"`
    #[tactic(auto, unfolding(fsl_grammar::specs::ReadStatements::read_release_word))]
    fn release_word(&mut self) -> Result<ReleaseWord, Fault>
        ensures shorter { OnOk result (length self.new.rest.now < length self.old.rest.now) }
        ensures agrees { ReadsAs result self.new.rest.now read_release_word self.old.rest.now }
    {
        if self.is_next(TokenKind::Rel) {
            Ok(ReleaseWord::Release {
                place: self.take(TokenKind::Rel)?,
            })
        } else {
            Ok(ReleaseWord::AcquireRelease {
                place: self.take(TokenKind::AcqRel)?,
            })
        }
    }

    /// `"assert" "(" condition ")" ";"`
    #[tactic(auto, unfolding(fsl_grammar::specs::ReadStatements::read_assert))]
    fn assert_statement(&mut self, alloc: Global, room: u32) -> Result<Statement, Fault>
        ensures shorter { OnOk result (length self.new.rest.now < length self.old.rest.now) }
        ensures agrees { ReadsAs result self.new.rest.now (read_assert room) self.old.rest.now }
    {
        let Test {
            word,
            open,
            condition,
            close,
        } = self.test(alloc, TokenKind::Assert, room)?;
        let semicolon = self.take(TokenKind::Semicolon)?;
        Ok(Statement::Assert {
            word,
            open,
            condition,
            close,
            semicolon,
        })
    }

    /// `"print" "(" expression ")" ";"`
    #[tactic(auto, unfolding(fsl_grammar::specs::ReadStatements::read_print))]
    fn print_statement(&mut self, alloc: Global, room: u32) -> Result<Statement, Fault>
        ensures shorter { OnOk result (length self.new.rest.now < length self.old.rest.now) }
        ensures agrees { ReadsAs result self.new.rest.now (read_print room) self.old.rest.now }
    {
        let Enclosed {
            word,
            open,
            expression: value,
            close,
        } = self.enclosed(alloc, TokenKind::Print, room)?;
        let semicolon = self.take(TokenKind::Semicolon)?;
        Ok(Statement::Print {
            word,
            open,
            value,
            close,
            semicolon,
        })
    }

    /// `"free" "(" expression ")" ";"`
    #[tactic(auto, unfolding(fsl_grammar::specs::ReadStatements::read_free))]
    fn free_statement(&mut self, alloc: Global, room: u32) -> Result<Statement, Fault>
        ensures shorter { OnOk result (length self.new.rest.now < length self.old.rest.now) }
        ensures agrees { ReadsAs result self.new.rest.now (read_free room) self.old.rest.now }
    {
        let Enclosed {
            word,
            open,
            expression: location,
            close,
        } = self.enclosed(alloc, TokenKind::Free, room)?;
        let semicolon = self.take(TokenKind::Semicolon)?;
        Ok(Statement::Free {
            word,
            open,
            location,
            close,
            semicolon,
        })
    }

    /// `"return" [ expression ] ";"`
    #[tactic(auto, unfolding(fsl_grammar::specs::ReadStatements::read_return))]
    fn return_statement(&mut self, alloc: Global, room: u32) -> Result<Statement, Fault>
        ensures shorter { OnOk result (length self.new.rest.now < length self.old.rest.now) }
        ensures agrees { ReadsAs result self.new.rest.now (read_return room) self.old.rest.now }
    {
        let word = self.take(TokenKind::Return)?;
        let value = self.optional_expression(alloc, room)?;
        let semicolon = self.take(TokenKind::Semicolon)?;
        Ok(Statement::Return {
            word,
            value,
            semicolon,
        })
    }

    /// `[ expression ]`, up to a `;`
    #[tactic(auto, unfolding(fsl_grammar::specs::ReadStatements::read_optional_expression))]
    fn optional_expression(&mut self, alloc: Global, room: u32) -> Result<Option<Expression>, Fault>
        ensures shorter { OnOk result (length self.new.rest.now ≤ length self.old.rest.now) }
        ensures agrees { ReadsAs result self.new.rest.now (read_optional_expression room) self.old.rest.now }
    {
        if self.is_next(TokenKind::Semicolon) {
            Ok(None)
        } else {
            Ok(Some(self.expression(alloc, room)?))
        }
    }

    /// `"bank" NAME ";"`
    #[tactic(auto, unfolding(fsl_grammar::specs::ReadStatements::read_bank))]
    fn bank_statement(&mut self) -> Result<Statement, Fault>
        ensures shorter { OnOk result (length self.new.rest.now < length self.old.rest.now) }
        ensures agrees { ReadsAs result self.new.rest.now read_bank self.old.rest.now }
    {
        let word = self.take(TokenKind::Bank)?;
        let name = self.take(TokenKind::Name)?;
        let semicolon = self.take(TokenKind::Semicolon)?;
        Ok(Statement::Bank {
            word,
            name,
            semicolon,
        })
    }

    /// `step ";"`
    #[tactic(auto, unfolding(fsl_grammar::specs::ReadStatements::read_step_statement))]
    fn step_statement(&mut self, alloc: Global, room: u32) -> Result<Statement, Fault>
        ensures shorter { OnOk result (length self.new.rest.now < length self.old.rest.now) }
        ensures agrees { ReadsAs result self.new.rest.now (read_step_statement room) self.old.rest.now }
    {
        let step = self.step(alloc, room)?;
        let semicolon = self.take(TokenKind::Semicolon)?;
        Ok(Statement::Step { step, semicolon })
    }
}
