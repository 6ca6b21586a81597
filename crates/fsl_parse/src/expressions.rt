//! Expressions.
ghost use Rattle.std.specs.Prelude.{◌≡◌, ◌-◌, ◌<◌, ◌≤◌, length, OnOk};
ghost use Rattle.fsl_grammar.specs.Readers.{ReadsAs, many_of};
ghost use Rattle.fsl_grammar.specs.Heads.{is_next};
ghost use Rattle.fsl_grammar.specs.ReadExpressions.{is_sign_next, read_addend, read_expression, read_factor, read_group, read_multiplier, read_negative, read_sign, read_term};
ghost use Rattle.fsl_token.specs.declared.kind.TokenKind.TheVariants.{Star};

use crate::parser::Parser;
use fsl_base::{Boxed, List};
use fsl_grammar::{Fault, Numeral};
use fsl_token::TokenKind;
use fsl_tree::{Addend, Expression, Factor, Multiplier, Sign, Term};
use std::alloc::Global;

impl<'a> Parser<'a> {
    /// Whether `+` or `-` comes next.
    fn is_sign_next(&self) -> bool
        ensures { result ≡ is_sign_next self.now.rest.now }
    {
        self.is_next(TokenKind::Plus) || self.is_next(TokenKind::Minus)
    }

    /// `"+" | "-"`
    #[tactic(auto, unfolding(fsl_grammar::specs::ReadExpressions::read_sign))]
    fn sign(&mut self) -> Result<Sign, Fault>
        ensures shorter { OnOk result (length self.new.rest.now < length self.old.rest.now) }
        ensures agrees { ReadsAs result self.new.rest.now read_sign self.old.rest.now }
    {
        if self.is_next(TokenKind::Plus) {
            Ok(Sign::Plus {
                place: self.take(TokenKind::Plus)?,
            })
        } else {
            Ok(Sign::Minus {
                place: self.take(TokenKind::Minus)?,
            })
        }
    }

    /// `term { ( "+" | "-" ) term }`
    #[cycle(expression)]
    #[tactic(auto, unfolding(fsl_grammar::specs::ReadExpressions::read_expression_of))]
    pub fn expression(&mut self, alloc: Global, room: u32) -> Result<Expression, Fault>
        ensures shorter { OnOk result (length self.new.rest.now < length self.old.rest.now) }
        ensures agrees { ReadsAs result self.new.rest.now (read_expression room) self.old.rest.now }
    {
        let first = self.term(alloc, room)?;
        let more = self.addends(alloc, room)?;
        Ok(Expression { first, more })
    }

    /// `{ ( "+" | "-" ) term }`
    #[cycle(expression)]
    #[tactic(auto, using(fsl_grammar::proofs::Turns::going_start, fsl_grammar::proofs::Turns::going_step))]
    fn addends(&mut self, alloc: Global, room: u32) -> Result<List<Addend>, Fault>
        ensures shorter { OnOk result (length self.new.rest.now ≤ length self.old.rest.now) }
        ensures agrees { ReadsAs result self.new.rest.now (many_of is_sign_next (read_addend (read_factor room))) self.old.rest.now }
    {
        let mut more = List::new(alloc);
        'addends: while self.is_sign_next() {
            more.push(self.addend(alloc, room)?)?;
        }
        Ok(more)
    }

    /// `( "+" | "-" ) term`
    #[cycle(expression)]
    #[tactic(auto, unfolding(fsl_grammar::specs::ReadExpressions::read_addend))]
    fn addend(&mut self, alloc: Global, room: u32) -> Result<Addend, Fault>
        ensures shorter { OnOk result (length self.new.rest.now < length self.old.rest.now) }
        ensures agrees { ReadsAs result self.new.rest.now (read_addend (read_factor room)) self.old.rest.now }
    {
        let sign = self.sign()?;
        let term = self.term(alloc, room)?;
        Ok(Addend { sign, term })
    }

    /// `factor { "*" factor }`
    #[cycle(expression)]
    #[tactic(auto, unfolding(fsl_grammar::specs::ReadExpressions::read_term))]
    fn term(&mut self, alloc: Global, room: u32) -> Result<Term, Fault>
        ensures shorter { OnOk result (length self.new.rest.now < length self.old.rest.now) }
        ensures agrees { ReadsAs result self.new.rest.now (read_term (read_factor room)) self.old.rest.now }
    {
        let first = self.factor(alloc, room)?;
        let more = self.multipliers(alloc, room)?;
        Ok(Term { first, more })
    }

    /// `{ "*" factor }`
    #[cycle(expression)]
    #[tactic(auto, using(fsl_grammar::proofs::Turns::going_start, fsl_grammar::proofs::Turns::going_step))]
    fn multipliers(&mut self, alloc: Global, room: u32) -> Result<List<Multiplier>, Fault>
        ensures shorter { OnOk result (length self.new.rest.now ≤ length self.old.rest.now) }
        ensures agrees { ReadsAs result self.new.rest.now (many_of (is_next Star) (read_multiplier (read_factor room))) self.old.rest.now }
    {
        let mut more = List::new(alloc);
        'multipliers: while self.is_next(TokenKind::Star) {
            more.push(self.multiplier(alloc, room)?)?;
        }
        Ok(more)
    }

    /// `"*" factor`
    #[cycle(expression)]
    #[tactic(auto, unfolding(fsl_grammar::specs::ReadExpressions::read_multiplier))]
    fn multiplier(&mut self, alloc: Global, room: u32) -> Result<Multiplier, Fault>
        ensures shorter { OnOk result (length self.new.rest.now < length self.old.rest.now) }
        ensures agrees { ReadsAs result self.new.rest.now (read_multiplier (read_factor room)) self.old.rest.now }
    {
        let star = self.take(TokenKind::Star)?;
        let factor = self.factor(alloc, room)?;
        Ok(Multiplier { star, factor })
    }

    /// `NUMBER | NAME | "result" | "-" factor | "(" expression ")"`
    #[cycle(expression)]
    #[tactic(auto, unfolding(fsl_grammar::specs::ReadExpressions::read_negative, fsl_grammar::specs::ReadExpressions::read_group))]
    fn factor(&mut self, alloc: Global, room: u32) -> Result<Factor, Fault>
        ensures shorter { OnOk result (length self.new.rest.now < length self.old.rest.now) }
        ensures agrees { ReadsAs result self.new.rest.now (read_factor room) self.old.rest.now }
    {
        if self.is_number_next() {
            let Numeral { place, value } = self.number()?;
            Ok(Factor::Number { place, value })
        } else if self.is_next(TokenKind::Name) {
            Ok(Factor::Name {
                place: self.take(TokenKind::Name)?,
            })
        } else if self.is_next(TokenKind::ResultWord) {
            Ok(Factor::Outcome {
                place: self.take(TokenKind::ResultWord)?,
            })
        } else if self.is_next(TokenKind::Minus) {
            self.negative(alloc, room)
        } else {
            self.group(alloc, room)
        }
    }

    /// `"-" factor`
    #[cycle(expression)]
    #[tactic(auto, unfolding(fsl_grammar::specs::ReadExpressions::read_negative))]
    fn negative(&mut self, alloc: Global, room: u32) -> Result<Factor, Fault>
        ensures shorter { OnOk result (length self.new.rest.now < length self.old.rest.now) }
        ensures agrees { ReadsAs result self.new.rest.now (read_negative room (read_factor (room - 1))) self.old.rest.now }
    {
        let minus = self.open(TokenKind::Minus, room)?;
        let factor = self.factor(alloc, room - 1)?;
        let factor = Boxed::new(alloc, factor)?;
        Ok(Factor::Negative { minus, factor })
    }

    /// `"(" expression ")"`
    #[cycle(expression)]
    #[tactic(auto, unfolding(fsl_grammar::specs::ReadExpressions::read_group))]
    fn group(&mut self, alloc: Global, room: u32) -> Result<Factor, Fault>
        ensures shorter { OnOk result (length self.new.rest.now < length self.old.rest.now) }
        ensures agrees { ReadsAs result self.new.rest.now (read_group room (read_factor (room - 1))) self.old.rest.now }
    {
        let open = self.open(TokenKind::OpenParen, room)?;
        let expression = self.expression(alloc, room - 1)?;
        let close = self.take(TokenKind::CloseParen)?;
        let expression = Boxed::new(alloc, expression)?;
        Ok(Factor::Group {
            open,
            expression,
            close,
        })
    }
}
