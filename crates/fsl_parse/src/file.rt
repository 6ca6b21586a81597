//! A whole file, and the place of a fault in it.
ghost use Rattle.std.specs.Prelude.{◌≡◌};
ghost use Rattle.fsl_grammar.specs.Readers.{ReadsAs, many_of};
ghost use Rattle.fsl_parse.specs.Refusal.{placed};
ghost use Rattle.fsl_grammar.specs.Heads.{is_more};
ghost use Rattle.fsl_grammar.specs.ReadDeclarations.{read_declaration, read_file};

use crate::fault::ParseFault;
use crate::parser::Parser;
use fsl_base::{List, Span};
use fsl_grammar::Fault;
use fsl_tree::{Declaration, File};
use std::alloc::Global;

impl<'a> Parser<'a> {
    /// `{ declaration }`, up to the end of the tokens
    #[tactic(auto, unfolding(fsl_grammar::specs::ReadDeclarations::read_file))]
    pub fn file(&mut self, alloc: Global, room: u32) -> Result<File, Fault>
        ensures agrees { ReadsAs result self.new.rest.now (read_file room) self.old.rest.now }
    {
        let declarations = self.declarations(alloc, room)?;
        Ok(File { declarations })
    }

    /// `{ declaration }`, up to the end of the tokens
    #[tactic(auto, using(fsl_grammar::proofs::Turns::going_start, fsl_grammar::proofs::Turns::going_step))]
    fn declarations(&mut self, alloc: Global, room: u32) -> Result<List<Declaration>, Fault>
        ensures agrees { ReadsAs result self.new.rest.now (many_of is_more (read_declaration room)) self.old.rest.now }
    {
        let mut more = List::new(alloc);
        'declarations: while self.is_more() {
            more.push(self.declaration(alloc, room)?)?;
        }
        Ok(more)
    }

    /// A fault at the next token, or at the end of a file of `end` bytes.
    pub fn placed(&self, fault: Fault, end: u32) -> ParseFault
        ensures { result ≡ placed fault self.now.rest.now end }
    {
        let place = match self.rest.split_first() {
            Some((token, _)) => token.span,
            None => Span { from: end, to: end },
        };
        match fault {
            Fault::Unexpected => ParseFault::Unexpected { place },
            Fault::Deep => ParseFault::Deep { place },
            Fault::NoMemory => ParseFault::NoMemory,
        }
    }
}
