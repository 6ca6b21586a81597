//! Invariants, predicates and procedures.
ghost use Rattle.std.specs.Prelude.{◌<◌, ◌≤◌, length, OnOk};
ghost use Rattle.fsl_grammar.specs.Readers.{ReadsAs, many_of};
ghost use Rattle.fsl_grammar.specs.Heads.{is_next};
ghost use Rattle.fsl_grammar.specs.ReadAssertions.{read_part};
ghost use Rattle.fsl_grammar.specs.ReadDeclarations.{read_contracted, read_contracted_procedure, read_declaration, read_ensured, read_header, read_invariant, read_next_parameter, read_optional_parameters, read_parameter, read_parameters, read_predicate};
ghost use Rattle.fsl_token.specs.declared.kind.TokenKind.TheVariants.{Comma, OpenBrace};

use crate::parser::Parser;
use fsl_base::List;
use fsl_grammar::{Contracted, Ensured, Fault, Header};
use fsl_token::TokenKind;
use fsl_tree::{
    Declaration, Invariant, NextParameter, Parameter, Parameters, Part, Predicate, Procedure,
};
use std::alloc::Global;

impl<'a> Parser<'a> {
    /// `invariant | predicate | procedure`
    #[tactic(auto, unfolding(fsl_grammar::specs::ReadDeclarations::read_declaration))]
    pub fn declaration(&mut self, alloc: Global, room: u32) -> Result<Declaration, Fault>
        ensures shorter { OnOk result (length self.new.rest.now < length self.old.rest.now) }
        ensures agrees { ReadsAs result self.new.rest.now (read_declaration room) self.old.rest.now }
    {
        if self.is_next(TokenKind::Inv) {
            self.invariant(alloc, room)
        } else if self.is_next(TokenKind::Pred) {
            self.predicate(alloc, room)
        } else {
            self.procedure(alloc, room)
        }
    }

    /// `"inv" NAME "(" [ parameters ] ")" "of" NAME "{" assertion "}" { "{" assertion "}" }`
    #[tactic(auto, unfolding(fsl_grammar::specs::ReadDeclarations::read_invariant))]
    fn invariant(&mut self, alloc: Global, room: u32) -> Result<Declaration, Fault>
        ensures shorter { OnOk result (length self.new.rest.now < length self.old.rest.now) }
        ensures agrees { ReadsAs result self.new.rest.now (read_invariant room) self.old.rest.now }
    {
        let Header {
            word,
            name,
            open,
            parameters,
            close,
        } = self.header(alloc, TokenKind::Inv, room)?;
        let of = self.take(TokenKind::Of)?;
        let value = self.take(TokenKind::Name)?;
        let first = self.part(alloc, room)?;
        let more = self.more_parts(alloc, room)?;
        Ok(Declaration::Invariant {
            invariant: Invariant {
                word,
                name,
                open,
                parameters,
                close,
                of,
                value,
                first,
                more,
            },
        })
    }

    /// `{ "{" assertion "}" }`
    #[tactic(auto, using(fsl_grammar::proofs::Turns::going_start, fsl_grammar::proofs::Turns::going_step))]
    fn more_parts(&mut self, alloc: Global, room: u32) -> Result<List<Part>, Fault>
        ensures shorter { OnOk result (length self.new.rest.now ≤ length self.old.rest.now) }
        ensures agrees { ReadsAs result self.new.rest.now (many_of (is_next OpenBrace) (read_part room)) self.old.rest.now }
    {
        let mut more = List::new(alloc);
        'parts: while self.is_next(TokenKind::OpenBrace) {
            more.push(self.part(alloc, room)?)?;
        }
        Ok(more)
    }

    /// `"pred" NAME "(" [ parameters ] ")" "{" assertion "}"`
    #[tactic(auto, unfolding(fsl_grammar::specs::ReadDeclarations::read_predicate))]
    fn predicate(&mut self, alloc: Global, room: u32) -> Result<Declaration, Fault>
        ensures shorter { OnOk result (length self.new.rest.now < length self.old.rest.now) }
        ensures agrees { ReadsAs result self.new.rest.now (read_predicate room) self.old.rest.now }
    {
        let Header {
            word,
            name,
            open,
            parameters,
            close,
        } = self.header(alloc, TokenKind::Pred, room)?;
        let body = self.part(alloc, room)?;
        Ok(Declaration::Predicate {
            predicate: Predicate {
                word,
                name,
                open,
                parameters,
                close,
                body,
            },
        })
    }

    /// `"proc" NAME "(" [ parameters ] ")" [ "requires" "(" assertion ")" ] [ "ensures" "(" assertion ")" ] block`
    #[tactic(auto, unfolding(fsl_grammar::specs::ReadDeclarations::read_contracted_procedure))]
    fn procedure(&mut self, alloc: Global, room: u32) -> Result<Declaration, Fault>
        ensures shorter { OnOk result (length self.new.rest.now < length self.old.rest.now) }
        ensures agrees { ReadsAs result self.new.rest.now (read_contracted_procedure room) self.old.rest.now }
    {
        let Header {
            word,
            name,
            open,
            parameters,
            close,
        } = self.header(alloc, TokenKind::Proc, room)?;
        let Contracted {
            requires_clause,
            ensures_clause,
            body,
        } = self.contracted(alloc, room)?;
        Ok(Declaration::Procedure {
            procedure: Procedure {
                word,
                name,
                open,
                parameters,
                close,
                requires_clause,
                ensures_clause,
                body,
            },
        })
    }

    /// `[ "requires" "(" assertion ")" ] [ "ensures" "(" assertion ")" ] block`
    #[tactic(auto, unfolding(fsl_grammar::specs::ReadDeclarations::read_contracted))]
    fn contracted(&mut self, alloc: Global, room: u32) -> Result<Contracted, Fault>
        ensures shorter { OnOk result (length self.new.rest.now < length self.old.rest.now) }
        ensures agrees { ReadsAs result self.new.rest.now (read_contracted room) self.old.rest.now }
    {
        let requires_clause = self.optional_clause(alloc, TokenKind::Requires, room)?;
        let Ensured {
            ensures_clause,
            body,
        } = self.ensured(alloc, room)?;
        Ok(Contracted {
            requires_clause,
            ensures_clause,
            body,
        })
    }

    /// `[ "ensures" "(" assertion ")" ] block`
    #[tactic(auto, unfolding(fsl_grammar::specs::ReadDeclarations::read_ensured))]
    fn ensured(&mut self, alloc: Global, room: u32) -> Result<Ensured, Fault>
        ensures shorter { OnOk result (length self.new.rest.now < length self.old.rest.now) }
        ensures agrees { ReadsAs result self.new.rest.now (read_ensured room) self.old.rest.now }
    {
        let ensures_clause = self.optional_clause(alloc, TokenKind::Ensures, room)?;
        let body = self.block(alloc, room)?;
        Ok(Ensured {
            ensures_clause,
            body,
        })
    }

    /// A word, `NAME "(" [ parameters ] ")"`
    #[tactic(auto, unfolding(fsl_grammar::specs::ReadDeclarations::read_header))]
    fn header(&mut self, alloc: Global, word: TokenKind, room: u32) -> Result<Header, Fault>
        ensures shorter { OnOk result (length self.new.rest.now < length self.old.rest.now) }
        ensures agrees { ReadsAs result self.new.rest.now (read_header word room) self.old.rest.now }
    {
        let word = self.take(word)?;
        let name = self.take(TokenKind::Name)?;
        let open = self.open(TokenKind::OpenParen, room)?;
        let parameters = self.optional_parameters(alloc)?;
        let close = self.take(TokenKind::CloseParen)?;
        Ok(Header {
            word,
            name,
            open,
            parameters,
            close,
        })
    }

    /// `[ parameters ]`, up to a `)`
    #[tactic(auto, unfolding(fsl_grammar::specs::ReadDeclarations::read_optional_parameters))]
    fn optional_parameters(&mut self, alloc: Global) -> Result<Option<Parameters>, Fault>
        ensures shorter { OnOk result (length self.new.rest.now ≤ length self.old.rest.now) }
        ensures agrees { ReadsAs result self.new.rest.now read_optional_parameters self.old.rest.now }
    {
        if self.is_next(TokenKind::CloseParen) {
            Ok(None)
        } else {
            Ok(Some(self.parameters(alloc)?))
        }
    }

    /// `parameter { "," parameter }`
    #[tactic(auto, unfolding(fsl_grammar::specs::ReadDeclarations::read_parameters))]
    fn parameters(&mut self, alloc: Global) -> Result<Parameters, Fault>
        ensures shorter { OnOk result (length self.new.rest.now < length self.old.rest.now) }
        ensures agrees { ReadsAs result self.new.rest.now read_parameters self.old.rest.now }
    {
        let first = self.parameter()?;
        let more = self.more_parameters(alloc)?;
        Ok(Parameters { first, more })
    }

    /// `{ "," parameter }`
    #[tactic(auto, using(fsl_grammar::proofs::Turns::going_start, fsl_grammar::proofs::Turns::going_step))]
    fn more_parameters(&mut self, alloc: Global) -> Result<List<NextParameter>, Fault>
        ensures shorter { OnOk result (length self.new.rest.now ≤ length self.old.rest.now) }
        ensures agrees { ReadsAs result self.new.rest.now (many_of (is_next Comma) read_next_parameter) self.old.rest.now }
    {
        let mut more = List::new(alloc);
        'parameters: while self.is_next(TokenKind::Comma) {
            more.push(self.next_parameter()?)?;
        }
        Ok(more)
    }

    /// `"," parameter`
    #[tactic(auto, unfolding(fsl_grammar::specs::ReadDeclarations::read_next_parameter))]
    fn next_parameter(&mut self) -> Result<NextParameter, Fault>
        ensures shorter { OnOk result (length self.new.rest.now < length self.old.rest.now) }
        ensures agrees { ReadsAs result self.new.rest.now read_next_parameter self.old.rest.now }
    {
        let comma = self.take(TokenKind::Comma)?;
        let parameter = self.parameter()?;
        Ok(NextParameter { comma, parameter })
    }

    /// `[ "bank" ] NAME`
    #[tactic(auto, unfolding(fsl_grammar::specs::ReadDeclarations::read_bank_parameter, fsl_grammar::specs::ReadDeclarations::read_parameter, fsl_grammar::specs::ReadDeclarations::read_plain_parameter))]
    fn parameter(&mut self) -> Result<Parameter, Fault>
        ensures shorter { OnOk result (length self.new.rest.now < length self.old.rest.now) }
        ensures agrees { ReadsAs result self.new.rest.now read_parameter self.old.rest.now }
    {
        if self.is_next(TokenKind::Bank) {
            let bank = self.take(TokenKind::Bank)?;
            let name = self.take(TokenKind::Name)?;
            Ok(Parameter {
                bank: Some(bank),
                name,
            })
        } else {
            Ok(Parameter {
                bank: None,
                name: self.take(TokenKind::Name)?,
            })
        }
    }
}
