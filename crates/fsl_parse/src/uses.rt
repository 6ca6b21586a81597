//! Conditions, arguments, and the groups of tokens around expressions.
ghost use Rattle.std.specs.Prelude.{◌<◌, ◌≤◌, length, OnOk};
ghost use Rattle.fsl_grammar.specs.Readers.{ReadsAs, many_of};
ghost use Rattle.fsl_grammar.specs.Heads.{is_next};
ghost use Rattle.fsl_grammar.specs.ReadExpressions.{read_arguments, read_comparison, read_condition, read_next_argument, read_optional_arguments, read_usage};
ghost use Rattle.fsl_grammar.specs.ReadGroups.{read_enclosed, read_excluded_set, read_held, read_pair, read_test, read_triple};
ghost use Rattle.fsl_token.specs.declared.kind.TokenKind.TheVariants.{Comma};

use crate::parser::Parser;
use fsl_base::List;
use fsl_grammar::{Enclosed, ExcludedSet, Fault, Held, Pair, Test, Triple};
use fsl_token::TokenKind;
use fsl_tree::{Arguments, Comparison, Condition, NextArgument, Use};
use std::alloc::Global;

impl<'a> Parser<'a> {
    /// `"==" | "!=" | "<" | "<=" | ">" | ">="`
    #[tactic(auto, unfolding(fsl_grammar::specs::ReadExpressions::read_comparison))]
    pub fn comparison(&mut self) -> Result<Comparison, Fault>
        ensures shorter { OnOk result (length self.new.rest.now < length self.old.rest.now) }
        ensures agrees { ReadsAs result self.new.rest.now read_comparison self.old.rest.now }
    {
        if self.is_next(TokenKind::Equal) {
            Ok(Comparison::Equal {
                place: self.take(TokenKind::Equal)?,
            })
        } else if self.is_next(TokenKind::NotEqual) {
            Ok(Comparison::NotEqual {
                place: self.take(TokenKind::NotEqual)?,
            })
        } else if self.is_next(TokenKind::Less) {
            Ok(Comparison::Less {
                place: self.take(TokenKind::Less)?,
            })
        } else if self.is_next(TokenKind::AtMost) {
            Ok(Comparison::AtMost {
                place: self.take(TokenKind::AtMost)?,
            })
        } else if self.is_next(TokenKind::Greater) {
            Ok(Comparison::Greater {
                place: self.take(TokenKind::Greater)?,
            })
        } else {
            Ok(Comparison::AtLeast {
                place: self.take(TokenKind::AtLeast)?,
            })
        }
    }

    /// `"true" | "false" | expression comparison expression`
    #[tactic(auto, unfolding(fsl_grammar::specs::ReadExpressions::read_compared, fsl_grammar::specs::ReadExpressions::read_condition))]
    pub fn condition(&mut self, alloc: Global, room: u32) -> Result<Condition, Fault>
        ensures shorter { OnOk result (length self.new.rest.now < length self.old.rest.now) }
        ensures agrees { ReadsAs result self.new.rest.now (read_condition room) self.old.rest.now }
    {
        if self.is_next(TokenKind::True) {
            Ok(Condition::Always {
                place: self.take(TokenKind::True)?,
            })
        } else if self.is_next(TokenKind::False) {
            Ok(Condition::Never {
                place: self.take(TokenKind::False)?,
            })
        } else {
            let left = self.expression(alloc, room)?;
            let comparison = self.comparison()?;
            let right = self.expression(alloc, room)?;
            Ok(Condition::Compared {
                left,
                comparison,
                right,
            })
        }
    }

    /// `"," expression`
    #[tactic(auto, unfolding(fsl_grammar::specs::ReadExpressions::read_next_argument))]
    pub fn next_argument(&mut self, alloc: Global, room: u32) -> Result<NextArgument, Fault>
        ensures shorter { OnOk result (length self.new.rest.now < length self.old.rest.now) }
        ensures agrees { ReadsAs result self.new.rest.now (read_next_argument room) self.old.rest.now }
    {
        let comma = self.take(TokenKind::Comma)?;
        let value = self.expression(alloc, room)?;
        Ok(NextArgument { comma, value })
    }

    /// `expression { "," expression }`
    #[tactic(auto, unfolding(fsl_grammar::specs::ReadExpressions::read_arguments))]
    fn arguments(&mut self, alloc: Global, room: u32) -> Result<Arguments, Fault>
        ensures shorter { OnOk result (length self.new.rest.now < length self.old.rest.now) }
        ensures agrees { ReadsAs result self.new.rest.now (read_arguments room) self.old.rest.now }
    {
        let first = self.expression(alloc, room)?;
        let more = self.more_arguments(alloc, room)?;
        Ok(Arguments { first, more })
    }

    /// `{ "," expression }`
    #[tactic(auto, using(fsl_grammar::proofs::Turns::going_start, fsl_grammar::proofs::Turns::going_step))]
    fn more_arguments(&mut self, alloc: Global, room: u32) -> Result<List<NextArgument>, Fault>
        ensures shorter { OnOk result (length self.new.rest.now ≤ length self.old.rest.now) }
        ensures agrees { ReadsAs result self.new.rest.now (many_of (is_next Comma) (read_next_argument room)) self.old.rest.now }
    {
        let mut more = List::new(alloc);
        'arguments: while self.is_next(TokenKind::Comma) {
            more.push(self.next_argument(alloc, room)?)?;
        }
        Ok(more)
    }

    /// `[ arguments ]`, up to a `)` or `}`
    #[tactic(auto, unfolding(fsl_grammar::specs::ReadExpressions::read_optional_arguments))]
    fn optional_arguments(&mut self, alloc: Global, room: u32) -> Result<Option<Arguments>, Fault>
        ensures shorter { OnOk result (length self.new.rest.now ≤ length self.old.rest.now) }
        ensures agrees { ReadsAs result self.new.rest.now (read_optional_arguments room) self.old.rest.now }
    {
        if self.is_next(TokenKind::CloseParen) || self.is_next(TokenKind::CloseBrace) {
            Ok(None)
        } else {
            Ok(Some(self.arguments(alloc, room)?))
        }
    }

    /// `NAME "(" [ arguments ] ")"`
    #[tactic(auto, unfolding(fsl_grammar::specs::ReadExpressions::read_usage))]
    pub fn usage(&mut self, alloc: Global, room: u32) -> Result<Use, Fault>
        ensures shorter { OnOk result (length self.new.rest.now < length self.old.rest.now) }
        ensures agrees { ReadsAs result self.new.rest.now (read_usage room) self.old.rest.now }
    {
        let name = self.take(TokenKind::Name)?;
        let open = self.open(TokenKind::OpenParen, room)?;
        let arguments = self.optional_arguments(alloc, room - 1)?;
        let close = self.take(TokenKind::CloseParen)?;
        Ok(Use {
            name,
            open,
            arguments,
            close,
        })
    }

    /// A word and `"(" expression ")"`
    #[tactic(auto, unfolding(fsl_grammar::specs::ReadGroups::read_enclosed))]
    pub fn enclosed(&mut self, alloc: Global, word: TokenKind, room: u32) -> Result<Enclosed, Fault>
        ensures shorter { OnOk result (length self.new.rest.now < length self.old.rest.now) }
        ensures agrees { ReadsAs result self.new.rest.now (read_enclosed word room) self.old.rest.now }
    {
        let word = self.take(word)?;
        let open = self.open(TokenKind::OpenParen, room)?;
        let expression = self.expression(alloc, room - 1)?;
        let close = self.take(TokenKind::CloseParen)?;
        Ok(Enclosed {
            word,
            open,
            expression,
            close,
        })
    }

    /// A word and `"(" condition ")"`
    #[tactic(auto, unfolding(fsl_grammar::specs::ReadGroups::read_test))]
    pub fn test(&mut self, alloc: Global, word: TokenKind, room: u32) -> Result<Test, Fault>
        ensures shorter { OnOk result (length self.new.rest.now < length self.old.rest.now) }
        ensures agrees { ReadsAs result self.new.rest.now (read_test word room) self.old.rest.now }
    {
        let word = self.take(word)?;
        let open = self.open(TokenKind::OpenParen, room)?;
        let condition = self.condition(alloc, room - 1)?;
        let close = self.take(TokenKind::CloseParen)?;
        Ok(Test {
            word,
            open,
            condition,
            close,
        })
    }

    /// `expression "," use`
    #[tactic(auto, unfolding(fsl_grammar::specs::ReadGroups::read_held))]
    pub fn held(&mut self, alloc: Global, room: u32) -> Result<Held, Fault>
        ensures shorter { OnOk result (length self.new.rest.now < length self.old.rest.now) }
        ensures agrees { ReadsAs result self.new.rest.now (read_held room) self.old.rest.now }
    {
        let location = self.expression(alloc, room)?;
        let comma = self.take(TokenKind::Comma)?;
        let invariant = self.usage(alloc, room)?;
        Ok(Held {
            location,
            comma,
            invariant,
        })
    }

    /// `"{" [ arguments ] "}"`
    #[tactic(auto, unfolding(fsl_grammar::specs::ReadGroups::read_excluded_set))]
    pub fn excluded_set(&mut self, alloc: Global, room: u32) -> Result<ExcludedSet, Fault>
        ensures shorter { OnOk result (length self.new.rest.now < length self.old.rest.now) }
        ensures agrees { ReadsAs result self.new.rest.now (read_excluded_set room) self.old.rest.now }
    {
        let open = self.open(TokenKind::OpenBrace, room)?;
        let excluded = self.optional_arguments(alloc, room - 1)?;
        let close = self.take(TokenKind::CloseBrace)?;
        Ok(ExcludedSet {
            open,
            excluded,
            close,
        })
    }

    /// `"(" expression "," expression ")"`
    #[tactic(auto, unfolding(fsl_grammar::specs::ReadGroups::read_pair))]
    pub fn pair(&mut self, alloc: Global, room: u32) -> Result<Pair, Fault>
        ensures shorter { OnOk result (length self.new.rest.now < length self.old.rest.now) }
        ensures agrees { ReadsAs result self.new.rest.now (read_pair room) self.old.rest.now }
    {
        let open = self.open(TokenKind::OpenParen, room)?;
        let location = self.expression(alloc, room - 1)?;
        let value = self.next_argument(alloc, room - 1)?;
        let close = self.take(TokenKind::CloseParen)?;
        Ok(Pair {
            open,
            location,
            value,
            close,
        })
    }

    /// `"(" expression "," expression "," expression ")"`
    #[tactic(auto, unfolding(fsl_grammar::specs::ReadGroups::read_triple))]
    pub fn triple(&mut self, alloc: Global, room: u32) -> Result<Triple, Fault>
        ensures shorter { OnOk result (length self.new.rest.now < length self.old.rest.now) }
        ensures agrees { ReadsAs result self.new.rest.now (read_triple room) self.old.rest.now }
    {
        let open = self.open(TokenKind::OpenParen, room)?;
        let location = self.expression(alloc, room - 1)?;
        let expected = self.next_argument(alloc, room - 1)?;
        let new = self.next_argument(alloc, room - 1)?;
        let close = self.take(TokenKind::CloseParen)?;
        Ok(Triple {
            open,
            location,
            expected,
            new,
            close,
        })
    }
}
