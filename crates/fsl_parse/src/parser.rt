//! The tokens that are left, and how one is taken.
ghost use Rattle.std.specs.Prelude.{◌≡◌, ◌<◌, OnOk, length};
ghost use Rattle.fsl_grammar.specs.Heads.{is_fixed, is_more, is_next, is_number_next, is_use_next};
ghost use Rattle.fsl_grammar.specs.Readers.{ReadsAs, take, open_at, number};

use fsl_base::Span;
use fsl_grammar::{Fault, Numeral};
use fsl_token::{Token, TokenKind};

/// A reader of tokens. After a fault the token at fault is the first that is left.
#[derive(Drop)]
pub struct Parser<'a> {
    pub rest: &'a [Token],
}

/// Whether a token is of a kind that has no value.
fn is_fixed(token: &Token, kind: TokenKind) -> bool
    ensures { result ≡ is_fixed kind token.now }
{
    token.kind == kind && token.number == 0
}

/// Whether a token of a kind that has no value comes first.
fn begins(tokens: &[Token], kind: TokenKind) -> bool
    ensures { result ≡ is_next kind tokens.now }
{
    match tokens.split_first() {
        Some((token, _)) => is_fixed(token, kind),
        None => false,
    }
}

impl<'a> Parser<'a> {
    /// A reader of all of the tokens.
    pub fn new(rest: &'a [Token]) -> Parser<'a>
        ensures { result.rest.now ≡ rest.now }
    {
        Parser { rest }
    }

    /// Whether a token is left.
    pub fn is_more(&self) -> bool
        ensures { result ≡ is_more self.now.rest.now }
    {
        match self.rest.split_first() {
            Some(_) => true,
            None => false,
        }
    }

    /// Whether a token of a kind that has no value comes next.
    pub fn is_next(&self, kind: TokenKind) -> bool
        ensures { result ≡ is_next kind self.now.rest.now }
    {
        begins(self.rest, kind)
    }

    /// Whether a number comes next.
    pub fn is_number_next(&self) -> bool
        ensures { result ≡ is_number_next self.now.rest.now }
    {
        match self.rest.split_first() {
            Some((token, _)) => token.kind == TokenKind::Number,
            None => false,
        }
    }

    /// Whether a name and a `(` come next.
    pub fn is_use_next(&self) -> bool
        ensures { result ≡ is_use_next self.now.rest.now }
    {
        match self.rest.split_first() {
            Some((token, others)) => is_fixed(token, TokenKind::Name)
                && begins(others, TokenKind::OpenParen),
            None => false,
        }
    }

    /// Takes the next token, which is to be of a kind that has no value.
    pub fn take(&mut self, kind: TokenKind) -> Result<Span, Fault>
        ensures shorter { OnOk result (length self.new.rest.now < length self.old.rest.now) }
        ensures agrees { ReadsAs result self.new.rest.now (take kind) self.old.rest.now }
    {
        let (token, rest) = match self.rest.split_first() {
            Some(parts) => parts,
            None => return Err(Fault::Unexpected),
        };
        if is_fixed(token, kind) {
            self.rest = rest;
            return Ok(token.span);
        }
        Err(Fault::Unexpected)
    }

    /// Takes the next token, which is to nest: there must be room for one level more.
    pub fn open(&mut self, kind: TokenKind, room: u32) -> Result<Span, Fault>
        ensures shorter { OnOk result (length self.new.rest.now < length self.old.rest.now) }
        ensures room { OnOk result (0 < room) }
        ensures agrees { ReadsAs result self.new.rest.now (open_at kind room) self.old.rest.now }
    {
        if room == 0 {
            let fault = if self.is_next(kind) {
                Fault::Deep
            } else {
                Fault::Unexpected
            };
            return Err(fault);
        }
        self.take(kind)
    }

    /// Takes the next token, which is to be a number.
    pub fn number(&mut self) -> Result<Numeral, Fault>
        ensures shorter { OnOk result (length self.new.rest.now < length self.old.rest.now) }
        ensures agrees { ReadsAs result self.new.rest.now number self.old.rest.now }
    {
        let (token, rest) = match self.rest.split_first() {
            Some(parts) => parts,
            None => return Err(Fault::Unexpected),
        };
        if token.kind != TokenKind::Number {
            return Err(Fault::Unexpected);
        }
        self.rest = rest;
        Ok(Numeral {
            place: token.span,
            value: token.number,
        })
    }
}
