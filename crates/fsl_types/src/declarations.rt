//! Invariants and procedures over numbered variables, with their faults. They are defined with the programs, in
//! `specs/Programs.antt`.
ghost use Rattle.std.specs.Prelude.{◌≡◌, ◌∷◌, ◌++◌, [], IfOk, OnOk, map};
ghost use Rattle.fsl_types.specs.declared.variable.Sort.TheVariants as sorts;
ghost use Rattle.fsl_types.specs.Given.{given_of};
ghost use Rattle.fsl_types.specs.Programs.{contract, invariant, name_at, next_parameter, parameter_sort, parameters_of, part, parts, procedure, with_parameter, with_parameters};

use crate::fault::Fault;
use crate::given::{Globals, Setting};
use crate::names::text_at;
use crate::occurrence::Occurrence;
use crate::resolver::{Resolver, one_more};
use crate::variable::Sort;
use fsl_base::{List, Span, Text};
use fsl_core::{Asrt, Inv, Proc, Stmt};
use fsl_tree::{Invariant, NextParameter, Parameter, Parameters, Part, Procedure};
use std::alloc::{AllocError, Global};

/// How many parameters there may be.
const MOST_PARAMETERS: u32 = 16;

/// How many variables there may be.
const MOST_SLOTS: u32 = 256;

/// A name, which is text: it was read from tokens.
fn name_text(alloc: Global, bytes: &[u8], name: Span) -> Result<Text, AllocError>
    ensures { IfOk result (λ t. t ≡ name_at bytes.now name) }
{
    match str::from_utf8(text_at(bytes, name)) {
        Ok(text) => Text::from_str(alloc, text),
        Err(_) => Ok(Text::new(alloc)),
    }
}

impl<'a> Resolver<'a> {
    /// A parameter.
    fn parameter(&mut self, bytes: &'a [u8], tree: Parameter) -> Result<(), AllocError>
        ensures { OnOk result (self.new ≡ with_parameter bytes.now tree self.old) }
    {
        let sort = match tree.bank {
            None => Sort::Parameter,
            Some(_) => Sort::Bank,
        };
        self.declare(bytes, tree.name, sort, MOST_PARAMETERS)
    }

    /// The parameters behind the first.
    fn more_parameters(
        &mut self,
        bytes: &'a [u8],
        trees: &[NextParameter],
    ) -> Result<(), AllocError>
        ensures { OnOk result (self.new ≡ with_parameters bytes.now (map next_parameter trees.now) self.old) }
    {
        for tree in trees {
            self.parameter(bytes, tree.parameter)?;
        }
        Ok(())
    }

    /// Parameters.
    fn parameters(&mut self, bytes: &'a [u8], tree: &Option<Parameters>) -> Result<(), AllocError>
        ensures { OnOk result (self.new ≡ with_parameters bytes.now (parameters_of tree.now) self.old) }
    {
        match tree {
            None => Ok(()),
            Some(parameters) => {
                self.parameter(bytes, parameters.first)?;
                self.more_parameters(bytes, parameters.more.as_slice())
            }
        }
    }

    /// A part of an invariant, behind a number of others.
    fn part(
        &mut self,
        alloc: Global,
        globals: &Globals<'a>,
        before: u32,
        tree: &Part,
    ) -> Result<Asrt, AllocError>
        ensures made { IfOk result (λ a. a ≡ (part (given_of globals.now) before tree.now self.old).made) }
        ensures resolver { OnOk result (self.new ≡ (part (given_of globals.now) before tree.now self.old).resolver) }
    {
        self.note(Occurrence::Part {
            place: tree.open,
            before,
        })?;
        let setting = Setting {
            in_ensures: false,
            modal: false,
        };
        self.apart(alloc, globals, setting, &tree.assertion)
    }

    /// The first part, and those behind it.
    fn more_parts(
        &mut self,
        alloc: Global,
        globals: &Globals<'a>,
        so_far: List<Asrt>,
        trees: &[Part],
    ) -> Result<List<Asrt>, AllocError>
        ensures made { IfOk result (λ list. list ≡ so_far ++ (parts (given_of globals.now) 1 trees.now self.old).made) }
        ensures resolver { OnOk result (self.new ≡ (parts (given_of globals.now) 1 trees.now self.old).resolver) }
    {
        let mut list = so_far;
        let mut before = 1;
        for tree in trees {
            list.push(self.part(alloc, globals, before, tree)?)?;
            before = one_more(before, 8);
        }
        Ok(list)
    }

    /// All parts of an invariant.
    fn parts(
        &mut self,
        alloc: Global,
        globals: &Globals<'a>,
        first: &Part,
        more: &[Part],
    ) -> Result<List<Asrt>, AllocError>
        ensures made { IfOk result (λ list. list ≡ (parts (given_of globals.now) 0 (first.now ∷ more.now) self.old).made) }
        ensures resolver { OnOk result (self.new ≡ (parts (given_of globals.now) 0 (first.now ∷ more.now) self.old).resolver) }
    {
        let mut list = List::new(alloc);
        list.push(self.part(alloc, globals, 0, first)?)?;
        self.more_parts(alloc, globals, list, more)
    }
}

/// Something that was made, and the faults so far.
#[derive(Drop)]
pub struct Judged<T> {
    pub made: T,
    pub faults: List<Fault>,
}

/// An invariant.
pub fn invariant<'a>(
    alloc: Global,
    globals: &Globals<'a>,
    tree: &Invariant,
    faults: List<Fault>,
) -> Result<Judged<Inv>, AllocError>
    ensures { IfOk result (λ r. r ≡ record { made = (invariant (given_of globals.now) tree.now faults).made; faults = (invariant (given_of globals.now) tree.now faults).resolver.faults }) }
{
    let mut resolver = Resolver::fresh(alloc, faults);
    resolver.parameters(globals.bytes, &tree.parameters)?;
    let params = resolver.slots;
    resolver.declare(globals.bytes, tree.value, Sort::Local, MOST_SLOTS)?;
    let parts = resolver.parts(alloc, globals, &tree.first, tree.more.as_slice())?;
    let name = name_text(alloc, globals.bytes, tree.name)?;
    let Resolver { slots, faults, .. } = resolver;
    Ok(Judged {
        made: Inv {
            name,
            params,
            slots,
            parts,
        },
        faults,
    })
}

/// The contract of a procedure. Its binders end with it.
#[derive(Drop)]
pub struct Contract {
    pub pre: Asrt,
    pub post: Asrt,
}

impl<'a> Resolver<'a> {
    /// `requires` and `ensures`
    fn contract(
        &mut self,
        alloc: Global,
        globals: &Globals<'a>,
        tree: &Procedure,
    ) -> Result<Contract, AllocError>
        ensures made { IfOk result (λ c. c ≡ (contract (given_of globals.now) tree.now self.old).made) }
        ensures resolver { OnOk result (self.new ≡ (contract (given_of globals.now) tree.now self.old).resolver) }
    {
        let outside = self.names.len();
        let before = Setting {
            in_ensures: false,
            modal: true,
        };
        let pre = self.clause(alloc, globals, before, &tree.requires_clause)?;
        let behind = Setting {
            in_ensures: true,
            modal: true,
        };
        let post = self.clause(alloc, globals, behind, &tree.ensures_clause)?;
        self.leave(outside);
        Ok(Contract { pre, post })
    }
}

/// A procedure that was read to its end.
fn finished<'a>(
    name: Text,
    params: u32,
    contract: Contract,
    body: List<Stmt>,
    last: Span,
    resolver: Resolver<'a>,
) -> Judged<Proc>
    ensures { result ≡ record { made = record { name = name; params = params; slots = resolver.entry.slots; banks = resolver.entry.banks; pre = contract.pre; post = contract.post; body = body; last = last }; faults = resolver.entry.faults } }
{
    let Contract { pre, post } = contract;
    let Resolver {
        slots,
        banks,
        faults,
        ..
    } = resolver;
    Judged {
        made: Proc {
            name,
            params,
            slots,
            banks,
            pre,
            post,
            body,
            last,
        },
        faults,
    }
}

/// A procedure.
pub fn procedure<'a>(
    alloc: Global,
    globals: &Globals<'a>,
    tree: &Procedure,
    faults: List<Fault>,
) -> Result<Judged<Proc>, AllocError>
    ensures { IfOk result (λ r. r ≡ record { made = (procedure (given_of globals.now) tree.now faults).made; faults = (procedure (given_of globals.now) tree.now faults).resolver.faults }) }
{
    let name = name_text(alloc, globals.bytes, tree.name)?;
    let mut resolver = Resolver::fresh(alloc, faults);
    resolver.parameters(globals.bytes, &tree.parameters)?;
    let params = resolver.slots;
    let contract = resolver.contract(alloc, globals, tree)?;
    let body = resolver.block(alloc, globals, false, &tree.body)?;
    Ok(finished(name, params, contract, body, tree.body.close, resolver))
}
