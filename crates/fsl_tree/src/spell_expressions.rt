//! The tokens of expressions, comparisons and uses, put in front of those that follow them.
ghost use Rattle.std.specs.Prelude.{◌≡◌, ◌∷◌, OnOk, map};
ghost use Rattle.fsl_tree.specs.SpelledExpressions.{all, sign_token, factor, addend, expression, multiplier, term, comparison_token, condition, next_argument, arguments, optional_arguments, usage, grouped, tested, pair, held, excluded_set};

use crate::expression::{
    Addend, Arguments, Comparison, Condition, Expression, Factor, Multiplier, NextArgument, Sign,
    Term, Use,
};
use crate::following::Following;
use fsl_base::Span;
use fsl_token::TokenKind;
use std::alloc::AllocError;

impl Following {
    fn sign(&mut self, sign: Sign) -> Result<(), AllocError>
        ensures { OnOk result (self.new ≡ sign_token sign ∷ self.old) }
    {
        match sign {
            Sign::Plus { place } => self.fixed(TokenKind::Plus, place),
            Sign::Minus { place } => self.fixed(TokenKind::Minus, place),
        }
    }

    #[cycle(expression)]
    #[tactic(auto, unfolding(crate::specs::SpelledExpressions::expression, crate::specs::SpelledExpressions::addend, crate::specs::SpelledExpressions::term, crate::specs::SpelledExpressions::multiplier, crate::specs::SpelledExpressions::factor))]
    pub fn expression(&mut self, part: &Expression) -> Result<(), AllocError>
        ensures { OnOk result (self.new ≡ expression part.now self.old) }
    {
        self.addends(part.more.as_slice())?;
        self.term(&part.first)
    }

    #[cycle(expression)]
    #[tactic(auto, using(crate::proofs::Parts::all_last))]
    fn addends(&mut self, parts: &[Addend]) -> Result<(), AllocError>
        ensures { OnOk result (self.new ≡ all (map addend parts.now) self.old) }
    {
        for part in parts.iter().rev() {
            self.addend(part)?;
        }
        Ok(())
    }

    #[cycle(expression)]
    #[tactic(auto, unfolding(crate::specs::SpelledExpressions::expression, crate::specs::SpelledExpressions::addend, crate::specs::SpelledExpressions::term, crate::specs::SpelledExpressions::multiplier, crate::specs::SpelledExpressions::factor))]
    fn addend(&mut self, part: &Addend) -> Result<(), AllocError>
        ensures { OnOk result (self.new ≡ addend part.now self.old) }
    {
        self.term(&part.term)?;
        self.sign(part.sign)
    }

    #[cycle(expression)]
    #[tactic(auto, unfolding(crate::specs::SpelledExpressions::expression, crate::specs::SpelledExpressions::addend, crate::specs::SpelledExpressions::term, crate::specs::SpelledExpressions::multiplier, crate::specs::SpelledExpressions::factor))]
    fn term(&mut self, part: &Term) -> Result<(), AllocError>
        ensures { OnOk result (self.new ≡ term part.now self.old) }
    {
        self.multipliers(part.more.as_slice())?;
        self.factor(&part.first)
    }

    #[cycle(expression)]
    #[tactic(auto, using(crate::proofs::Parts::all_last))]
    fn multipliers(&mut self, parts: &[Multiplier]) -> Result<(), AllocError>
        ensures { OnOk result (self.new ≡ all (map multiplier parts.now) self.old) }
    {
        for part in parts.iter().rev() {
            self.multiplier(part)?;
        }
        Ok(())
    }

    #[cycle(expression)]
    #[tactic(auto, unfolding(crate::specs::SpelledExpressions::expression, crate::specs::SpelledExpressions::addend, crate::specs::SpelledExpressions::term, crate::specs::SpelledExpressions::multiplier, crate::specs::SpelledExpressions::factor))]
    fn multiplier(&mut self, part: &Multiplier) -> Result<(), AllocError>
        ensures { OnOk result (self.new ≡ multiplier part.now self.old) }
    {
        self.factor(&part.factor)?;
        self.fixed(TokenKind::Star, part.star)
    }

    #[cycle(expression)]
    #[tactic(auto, unfolding(crate::specs::SpelledExpressions::expression, crate::specs::SpelledExpressions::addend, crate::specs::SpelledExpressions::term, crate::specs::SpelledExpressions::multiplier, crate::specs::SpelledExpressions::factor))]
    fn factor(&mut self, part: &Factor) -> Result<(), AllocError>
        ensures { OnOk result (self.new ≡ factor part.now self.old) }
    {
        match part {
            Factor::Number { place, value } => self.number(*place, *value),
            Factor::Name { place } => self.fixed(TokenKind::Name, *place),
            Factor::Outcome { place } => self.fixed(TokenKind::ResultWord, *place),
            Factor::Negative { minus, factor } => {
                self.factor(factor.get())?;
                self.fixed(TokenKind::Minus, *minus)
            }
            Factor::Group {
                open,
                expression,
                close,
            } => {
                self.fixed(TokenKind::CloseParen, *close)?;
                self.expression(expression.get())?;
                self.fixed(TokenKind::OpenParen, *open)
            }
        }
    }

    pub fn comparison(&mut self, part: Comparison) -> Result<(), AllocError>
        ensures { OnOk result (self.new ≡ comparison_token part ∷ self.old) }
    {
        match part {
            Comparison::Equal { place } => self.fixed(TokenKind::Equal, place),
            Comparison::NotEqual { place } => self.fixed(TokenKind::NotEqual, place),
            Comparison::Less { place } => self.fixed(TokenKind::Less, place),
            Comparison::AtMost { place } => self.fixed(TokenKind::AtMost, place),
            Comparison::Greater { place } => self.fixed(TokenKind::Greater, place),
            Comparison::AtLeast { place } => self.fixed(TokenKind::AtLeast, place),
        }
    }

    pub fn condition(&mut self, part: &Condition) -> Result<(), AllocError>
        ensures { OnOk result (self.new ≡ condition part.now self.old) }
    {
        match part {
            Condition::Always { place } => self.fixed(TokenKind::True, *place),
            Condition::Never { place } => self.fixed(TokenKind::False, *place),
            Condition::Compared {
                left,
                comparison,
                right,
            } => {
                self.expression(right)?;
                self.comparison(*comparison)?;
                self.expression(left)
            }
        }
    }

    pub fn next_argument(&mut self, part: &NextArgument) -> Result<(), AllocError>
        ensures { OnOk result (self.new ≡ next_argument part.now self.old) }
    {
        self.expression(&part.value)?;
        self.fixed(TokenKind::Comma, part.comma)
    }

    #[tactic(auto, using(crate::proofs::Parts::all_last))]
    fn next_arguments(&mut self, parts: &[NextArgument]) -> Result<(), AllocError>
        ensures { OnOk result (self.new ≡ all (map next_argument parts.now) self.old) }
    {
        for part in parts.iter().rev() {
            self.next_argument(part)?;
        }
        Ok(())
    }

    pub fn optional_arguments(&mut self, part: &Option<Arguments>) -> Result<(), AllocError>
        ensures { OnOk result (self.new ≡ optional_arguments part.now self.old) }
    {
        match part {
            None => Ok(()),
            Some(arguments) => {
                self.next_arguments(arguments.more.as_slice())?;
                self.expression(&arguments.first)
            }
        }
    }

    pub fn usage(&mut self, part: &Use) -> Result<(), AllocError>
        ensures { OnOk result (self.new ≡ usage part.now self.old) }
    {
        self.fixed(TokenKind::CloseParen, part.close)?;
        self.optional_arguments(&part.arguments)?;
        self.fixed(TokenKind::OpenParen, part.open)?;
        self.fixed(TokenKind::Name, part.name)
    }

    /// `"(" expression ")"`
    pub fn grouped(&mut self, open: Span, part: &Expression, close: Span) -> Result<(), AllocError>
        ensures { OnOk result (self.new ≡ grouped «open» part.now close self.old) }
    {
        self.fixed(TokenKind::CloseParen, close)?;
        self.expression(part)?;
        self.fixed(TokenKind::OpenParen, open)
    }

    /// `"(" condition ")"`
    pub fn tested(&mut self, open: Span, part: &Condition, close: Span) -> Result<(), AllocError>
        ensures { OnOk result (self.new ≡ tested «open» part.now close self.old) }
    {
        self.fixed(TokenKind::CloseParen, close)?;
        self.condition(part)?;
        self.fixed(TokenKind::OpenParen, open)
    }

    /// `"(" expression "," expression ")"`
    pub fn pair(
        &mut self,
        open: Span,
        first: &Expression,
        comma: Span,
        second: &Expression,
        close: Span,
    ) -> Result<(), AllocError>
        ensures { OnOk result (self.new ≡ pair «open» first.now comma second.now close self.old) }
    {
        self.fixed(TokenKind::CloseParen, close)?;
        self.expression(second)?;
        self.fixed(TokenKind::Comma, comma)?;
        self.expression(first)?;
        self.fixed(TokenKind::OpenParen, open)
    }

    /// `"(" expression "," use ")"`
    pub fn held(
        &mut self,
        open: Span,
        location: &Expression,
        comma: Span,
        invariant: &Use,
        close: Span,
    ) -> Result<(), AllocError>
        ensures { OnOk result (self.new ≡ held «open» location.now comma invariant.now close self.old) }
    {
        self.fixed(TokenKind::CloseParen, close)?;
        self.usage(invariant)?;
        self.fixed(TokenKind::Comma, comma)?;
        self.expression(location)?;
        self.fixed(TokenKind::OpenParen, open)
    }

    /// `"{" [ arguments ] "}"`
    pub fn excluded_set(
        &mut self,
        open: Span,
        part: &Option<Arguments>,
        close: Span,
    ) -> Result<(), AllocError>
        ensures { OnOk result (self.new ≡ excluded_set «open» part.now close self.old) }
    {
        self.fixed(TokenKind::CloseBrace, close)?;
        self.optional_arguments(part)?;
        self.fixed(TokenKind::OpenBrace, open)
    }
}
