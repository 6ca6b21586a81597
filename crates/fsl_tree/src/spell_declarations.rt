//! The tokens of declarations and files.
ghost use Rattle.std.specs.Prelude.{◌≡◌, ◌∷◌, OnOk, IfOk, map};
ghost use Rattle.fsl_tree.specs.SpelledExpressions.{all};
ghost use Rattle.fsl_tree.specs.Spelling.{optional_word, parameter, next_parameter, optional_parameters, part, invariant, predicate, procedure, declaration, spelling};

use crate::declaration::{
    Declaration, Invariant, NextParameter, Parameter, Parameters, Part, Predicate, Procedure,
};
use crate::file::File;
use crate::following::Following;
use fsl_base::{List, Span};
use fsl_token::{Token, TokenKind};
use std::alloc::{AllocError, Global};

/// The tokens of a file, in their order.
pub fn spell(alloc: Global, file: &File) -> Result<List<Token>, AllocError>
    ensures { IfOk result (λ tokens. tokens ≡ spelling file.now) }
{
    let mut tokens = Following::nothing(alloc);
    tokens.declarations(file.declarations.as_slice())?;
    Ok(tokens.into_list())
}

impl Following {
    #[tactic(auto, using(crate::proofs::Parts::all_last))]
    fn declarations(&mut self, parts: &[Declaration]) -> Result<(), AllocError>
        ensures { OnOk result (self.new ≡ all (map declaration parts.now) self.old) }
    {
        for part in parts.iter().rev() {
            self.declaration(part)?;
        }
        Ok(())
    }

    fn declaration(&mut self, part: &Declaration) -> Result<(), AllocError>
        ensures { OnOk result (self.new ≡ declaration part.now self.old) }
    {
        match part {
            Declaration::Invariant { invariant } => self.invariant(invariant),
            Declaration::Predicate { predicate } => self.predicate(predicate),
            Declaration::Procedure { procedure } => self.procedure(procedure),
        }
    }

    fn invariant(&mut self, part: &Invariant) -> Result<(), AllocError>
        ensures { OnOk result (self.new ≡ invariant part.now self.old) }
    {
        self.parts(part.more.as_slice())?;
        self.part(&part.first)?;
        self.fixed(TokenKind::Name, part.value)?;
        self.fixed(TokenKind::Of, part.of)?;
        self.fixed(TokenKind::CloseParen, part.close)?;
        self.optional_parameters(&part.parameters)?;
        self.fixed(TokenKind::OpenParen, part.open)?;
        self.fixed(TokenKind::Name, part.name)?;
        self.fixed(TokenKind::Inv, part.word)
    }

    #[tactic(auto, using(crate::proofs::Parts::all_last))]
    fn parts(&mut self, parts: &[Part]) -> Result<(), AllocError>
        ensures { OnOk result (self.new ≡ all (map part parts.now) self.old) }
    {
        for part in parts.iter().rev() {
            self.part(part)?;
        }
        Ok(())
    }

    fn part(&mut self, held: &Part) -> Result<(), AllocError>
        ensures { OnOk result (self.new ≡ part held.now self.old) }
    {
        self.fixed(TokenKind::CloseBrace, held.close)?;
        self.assertion(&held.assertion)?;
        self.fixed(TokenKind::OpenBrace, held.open)
    }

    fn predicate(&mut self, part: &Predicate) -> Result<(), AllocError>
        ensures { OnOk result (self.new ≡ predicate part.now self.old) }
    {
        self.part(&part.body)?;
        self.fixed(TokenKind::CloseParen, part.close)?;
        self.optional_parameters(&part.parameters)?;
        self.fixed(TokenKind::OpenParen, part.open)?;
        self.fixed(TokenKind::Name, part.name)?;
        self.fixed(TokenKind::Pred, part.word)
    }

    fn procedure(&mut self, part: &Procedure) -> Result<(), AllocError>
        ensures { OnOk result (self.new ≡ procedure part.now self.old) }
    {
        self.block(&part.body)?;
        self.optional_clause(&part.ensures_clause, TokenKind::Ensures)?;
        self.optional_clause(&part.requires_clause, TokenKind::Requires)?;
        self.fixed(TokenKind::CloseParen, part.close)?;
        self.optional_parameters(&part.parameters)?;
        self.fixed(TokenKind::OpenParen, part.open)?;
        self.fixed(TokenKind::Name, part.name)?;
        self.fixed(TokenKind::Proc, part.word)
    }

    fn optional_parameters(&mut self, part: &Option<Parameters>) -> Result<(), AllocError>
        ensures { OnOk result (self.new ≡ optional_parameters part.now self.old) }
    {
        match part {
            None => Ok(()),
            Some(parameters) => {
                self.next_parameters(parameters.more.as_slice())?;
                self.parameter(&parameters.first)
            }
        }
    }

    #[tactic(auto, using(crate::proofs::Parts::all_last))]
    fn next_parameters(&mut self, parts: &[NextParameter]) -> Result<(), AllocError>
        ensures { OnOk result (self.new ≡ all (map next_parameter parts.now) self.old) }
    {
        for part in parts.iter().rev() {
            self.next_parameter(part)?;
        }
        Ok(())
    }

    fn next_parameter(&mut self, part: &NextParameter) -> Result<(), AllocError>
        ensures { OnOk result (self.new ≡ next_parameter part.now self.old) }
    {
        self.parameter(&part.parameter)?;
        self.fixed(TokenKind::Comma, part.comma)
    }

    fn parameter(&mut self, part: &Parameter) -> Result<(), AllocError>
        ensures { OnOk result (self.new ≡ parameter part.now self.old) }
    {
        self.fixed(TokenKind::Name, part.name)?;
        self.optional_word(part.bank)
    }

    fn optional_word(&mut self, part: Option<Span>) -> Result<(), AllocError>
        ensures { OnOk result (self.new ≡ optional_word part self.old) }
    {
        match part {
            None => Ok(()),
            Some(place) => self.fixed(TokenKind::Bank, place),
        }
    }
}
