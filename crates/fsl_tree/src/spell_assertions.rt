//! The tokens of assertions, put in front of those that follow them.
ghost use Rattle.std.specs.Prelude.{◌≡◌, ◌∷◌, OnOk, map};
ghost use Rattle.fsl_tree.specs.SpelledExpressions.{all};
ghost use Rattle.fsl_tree.specs.SpelledAssertions.{bank_word_token, pattern, optional_share, relation, atom, assertion, conjunct};

use crate::assertion::{Assertion, Atom, BankWord, Conjunct, Pattern, Relation, Share};
use crate::following::Following;
use fsl_token::TokenKind;
use std::alloc::AllocError;

impl Following {
    #[cycle(assertion)]
    #[tactic(auto, unfolding(crate::specs::SpelledAssertions::assertion, crate::specs::SpelledAssertions::conjunct, crate::specs::SpelledAssertions::atom))]
    pub fn assertion(&mut self, part: &Assertion) -> Result<(), AllocError>
        ensures { OnOk result (self.new ≡ assertion part.now self.old) }
    {
        self.conjuncts(part.more.as_slice())?;
        self.atom(&part.first)
    }

    #[cycle(assertion)]
    #[tactic(auto, using(crate::proofs::Parts::all_last))]
    fn conjuncts(&mut self, parts: &[Conjunct]) -> Result<(), AllocError>
        ensures { OnOk result (self.new ≡ all (map conjunct parts.now) self.old) }
    {
        for part in parts.iter().rev() {
            self.conjunct(part)?;
        }
        Ok(())
    }

    #[cycle(assertion)]
    #[tactic(auto, unfolding(crate::specs::SpelledAssertions::assertion, crate::specs::SpelledAssertions::conjunct, crate::specs::SpelledAssertions::atom))]
    fn conjunct(&mut self, part: &Conjunct) -> Result<(), AllocError>
        ensures { OnOk result (self.new ≡ conjunct part.now self.old) }
    {
        self.atom(&part.atom)?;
        self.fixed(TokenKind::Separate, part.separate)
    }

    #[cycle(assertion)]
    #[tactic(auto, unfolding(crate::specs::SpelledAssertions::assertion, crate::specs::SpelledAssertions::conjunct, crate::specs::SpelledAssertions::atom))]
    fn atom(&mut self, part: &Atom) -> Result<(), AllocError>
        ensures { OnOk result (self.new ≡ atom part.now self.old) }
    {
        match part {
            Atom::Empty { word } => self.fixed(TokenKind::Emp, *word),
            Atom::Choice {
                word,
                open,
                condition,
                close,
                first_open,
                first,
                first_close,
                otherwise,
                second_open,
                second,
                second_close,
            } => {
                self.fixed(TokenKind::CloseBrace, *second_close)?;
                self.assertion(second.get())?;
                self.fixed(TokenKind::OpenBrace, *second_open)?;
                self.fixed(TokenKind::Else, *otherwise)?;
                self.fixed(TokenKind::CloseBrace, *first_close)?;
                self.assertion(first.get())?;
                self.fixed(TokenKind::OpenBrace, *first_open)?;
                self.tested(*open, condition, *close)?;
                self.fixed(TokenKind::If, *word)
            }
            Atom::Up {
                word,
                open,
                assertion,
                close,
            } => {
                self.fixed(TokenKind::CloseParen, *close)?;
                self.assertion(assertion.get())?;
                self.fixed(TokenKind::OpenParen, *open)?;
                self.fixed(TokenKind::Up, *word)
            }
            Atom::Down {
                word,
                open,
                assertion,
                close,
            } => {
                self.fixed(TokenKind::CloseParen, *close)?;
                self.assertion(assertion.get())?;
                self.fixed(TokenKind::OpenParen, *open)?;
                self.fixed(TokenKind::Down, *word)
            }
            Atom::Init {
                word,
                open,
                location,
                close,
            } => {
                self.grouped(*open, location, *close)?;
                self.fixed(TokenKind::InitAssertion, *word)
            }
            Atom::Rel {
                word,
                open,
                location,
                comma,
                invariant,
                close,
            } => {
                self.held(*open, location, *comma, invariant, *close)?;
                self.fixed(TokenKind::RelAssertion, *word)
            }
            Atom::RmwAcq {
                word,
                open,
                location,
                comma,
                invariant,
                close,
            } => {
                self.held(*open, location, *comma, invariant, *close)?;
                self.fixed(TokenKind::RmwAcqAssertion, *word)
            }
            Atom::Acq {
                word,
                open,
                location,
                use_comma,
                invariant,
                part_comma,
                part,
                part_value,
                set_comma,
                set_open,
                excluded,
                set_close,
                close,
            } => {
                self.fixed(TokenKind::CloseParen, *close)?;
                self.excluded_set(*set_open, excluded, *set_close)?;
                self.fixed(TokenKind::Comma, *set_comma)?;
                self.number(*part, *part_value)?;
                self.fixed(TokenKind::Comma, *part_comma)?;
                self.usage(invariant)?;
                self.fixed(TokenKind::Comma, *use_comma)?;
                self.expression(location)?;
                self.fixed(TokenKind::OpenParen, *open)?;
                self.fixed(TokenKind::AcqAssertion, *word)
            }
            Atom::Bank {
                word,
                open,
                bank,
                comma,
                amount,
                close,
            } => {
                self.fixed(TokenKind::CloseParen, *close)?;
                self.expression(amount)?;
                self.fixed(TokenKind::Comma, *comma)?;
                self.fixed(TokenKind::Name, *bank)?;
                self.fixed(TokenKind::OpenParen, *open)?;
                self.bank_word(*word)
            }
            Atom::Related { left, relation } => {
                self.relation(relation)?;
                self.expression(left)
            }
            Atom::Predicate { usage } => self.usage(usage),
        }
    }

    fn bank_word(&mut self, part: BankWord) -> Result<(), AllocError>
        ensures { OnOk result (self.new ≡ bank_word_token part ∷ self.old) }
    {
        match part {
            BankWord::Tok { place } => self.fixed(TokenKind::TokAssertion, place),
            BankWord::Auth { place } => self.fixed(TokenKind::AuthAssertion, place),
        }
    }

    fn relation(&mut self, part: &Relation) -> Result<(), AllocError>
        ensures { OnOk result (self.new ≡ relation part.now self.old) }
    {
        match part {
            Relation::Compared { comparison, right } => {
                self.expression(right)?;
                self.comparison(*comparison)
            }
            Relation::PointsTo {
                arrow,
                share,
                pattern,
            } => {
                self.pattern(pattern)?;
                self.optional_share(share)?;
                self.fixed(TokenKind::PointsTo, *arrow)
            }
        }
    }

    fn optional_share(&mut self, part: &Option<Share>) -> Result<(), AllocError>
        ensures { OnOk result (self.new ≡ optional_share part.now self.old) }
    {
        match part {
            None => Ok(()),
            Some(share) => {
                self.fixed(TokenKind::CloseBracket, share.close)?;
                self.expression(&share.amount)?;
                self.fixed(TokenKind::OpenBracket, share.open)
            }
        }
    }

    fn pattern(&mut self, part: &Pattern) -> Result<(), AllocError>
        ensures { OnOk result (self.new ≡ pattern part.now self.old) }
    {
        match part {
            Pattern::Any { place } => self.fixed(TokenKind::Underscore, *place),
            Pattern::Binder { mark, name } => {
                self.fixed(TokenKind::Name, *name)?;
                self.fixed(TokenKind::Question, *mark)
            }
            Pattern::Value { value } => self.expression(value),
        }
    }
}
