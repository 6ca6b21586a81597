//! The tokens that follow a part of a tree: the part's own are put in front of them, so a tree is spelled
//! from its end.
ghost use Rattle.std.specs.Prelude.{◌≡◌, ◌∷◌, [], OnOk, IfOk};
ghost use Rattle.fsl_tree.specs.SpelledExpressions.{fixed, numeral};

use fsl_base::{List, Span};
use fsl_token::{Token, TokenKind};
use std::alloc::{AllocError, Global};
use std::marker::Model;

/// Tokens, the last one of a file first.
#[derive(Drop)]
pub(crate) struct Following {
    reversed: Vec<Token>,
}

impl Model for Following {
    ghost use Rattle.std.specs.Prelude.{List, reverse};
    ghost use Rattle.std.specs.Coded.{coded_list};
    ghost use Rattle.fsl_token.specs.declared.kind.Token.{Token};

    ghost Value = { List Token };

    ghost view = { λ following. reverse following.reversed.items };
}

impl Following {
    /// What follows a file: nothing.
    pub fn nothing(alloc: Global) -> Following
        ensures { result ≡ [] }
    {
        Following {
            reversed: Vec::new(alloc),
        }
    }

    /// A token in front.
    pub fn put(&mut self, token: Token) -> Result<(), AllocError>
        ensures { OnOk result (self.new ≡ token ∷ self.old) }
    {
        self.reversed.push(token)?;
        Ok(())
    }

    /// A reserved word, a symbol or a name in front.
    pub fn fixed(&mut self, kind: TokenKind, place: Span) -> Result<(), AllocError>
        ensures { OnOk result (self.new ≡ fixed kind place ∷ self.old) }
    {
        self.put(Token {
            kind,
            span: place,
            number: 0,
        })
    }

    /// A number in front.
    pub fn number(&mut self, place: Span, value: u64) -> Result<(), AllocError>
        ensures { OnOk result (self.new ≡ numeral place value ∷ self.old) }
    {
        self.put(Token {
            kind: TokenKind::Number,
            span: place,
            number: value,
        })
    }

    /// The tokens in their order.
    pub fn into_list(self) -> List<Token>
        ensures { result ≡ self }
    {
        let Following { mut reversed } = self;
        reversed.reverse();
        List::from_vec(reversed)
    }
}
