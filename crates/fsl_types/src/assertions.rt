//! Assertions over numbered variables, with the binders that they declare and their faults.
ghost use Rattle.std.specs.Prelude.{◌≡◌, IfOk, OnOk, map};
ghost use Rattle.fsl_types.specs.Assertions.{apart, assertion, atom, both_of, clause, conjunct, each, has_modality, is_modal_assertion, is_modal_atom, modality, unmodal};
ghost use Rattle.fsl_types.specs.Given.{given_of};

use crate::given::{Globals, Setting};
use crate::occurrence::Occurrence;
use crate::resolver::Resolver;
use fsl_base::{Boxed, List, Span};
use fsl_core::{Asrt, Cond};
use fsl_tree::{Assertion, Atom, Clause, Conjunct};
use std::alloc::{AllocError, Global};

/// The same setting, where no modality may be.
fn unmodal(setting: Setting) -> Setting
    ensures { result ≡ unmodal setting }
{
    Setting {
        in_ensures: setting.in_ensures,
        modal: false,
    }
}

/// A conjunction; one part is none.
#[tactic(auto, using(crate::proofs::NumberingLemmas::both_of_several))]
fn both(alloc: Global, first: Asrt, more: List<Asrt>) -> Result<Asrt, AllocError>
    ensures { IfOk result (λ a. a ≡ both_of first more) }
{
    if more.is_empty() {
        return Ok(first);
    }
    let mut parts = List::new(alloc);
    parts.push(first)?;
    parts.append(more)?;
    Ok(Asrt::Both { parts })
}

/// A choice between two assertions.
fn choice(alloc: Global, cond: Cond, first: Asrt, second: Asrt) -> Result<Asrt, AllocError>
    ensures { IfOk result (λ a. a ≡ Asrt.Choice cond first second) }
{
    let first = Boxed::new(alloc, first)?;
    Ok(Asrt::Choice {
        cond,
        yes: first,
        no: Boxed::new(alloc, second)?,
    })
}

impl<'a> Resolver<'a> {
    /// A part whose names go at its end.
    #[cycle(read)]
    pub fn apart(
        &mut self,
        alloc: Global,
        globals: &Globals<'a>,
        setting: Setting,
        tree: &Assertion,
    ) -> Result<Asrt, AllocError>
        ensures made { IfOk result (λ a. a ≡ (apart (assertion (given_of globals.now) tree.now) setting self.old).made) }
        ensures resolver { OnOk result (self.new ≡ (apart (assertion (given_of globals.now) tree.now) setting self.old).resolver) }
    {
        let outside = self.names.len();
        let made = self.assertion(alloc, globals, setting, tree)?;
        self.leave(outside);
        Ok(made)
    }

    /// What a modality holds, and the fault of its word.
    #[cycle(read)]
    fn inside(
        &mut self,
        alloc: Global,
        globals: &Globals<'a>,
        setting: Setting,
        word: Span,
        tree: &Assertion,
    ) -> Result<Boxed<Asrt>, AllocError>
        ensures made { IfOk result (λ a. a ≡ (apart (assertion (given_of globals.now) tree.now) (unmodal setting) (modality word setting self.old)).made) }
        ensures resolver { OnOk result (self.new ≡ (apart (assertion (given_of globals.now) tree.now) (unmodal setting) (modality word setting self.old)).resolver) }
    {
        self.note(Occurrence::Modality {
            place: word,
            allowed: setting.modal,
        })?;
        let made = self.apart(alloc, globals, unmodal(setting), tree)?;
        Boxed::new(alloc, made)
    }

    /// One part of an assertion. The use of a predicate is replaced before names are judged.
    #[cycle(read)]
    fn atom(
        &mut self,
        alloc: Global,
        globals: &Globals<'a>,
        setting: Setting,
        tree: &Atom,
    ) -> Result<Asrt, AllocError>
        ensures made { IfOk result (λ a. a ≡ (atom (given_of globals.now) tree.now setting self.old).made) }
        ensures resolver { OnOk result (self.new ≡ (atom (given_of globals.now) tree.now setting self.old).resolver) }
    {
        match tree {
            Atom::Empty { .. } | Atom::Predicate { .. } => Ok(Asrt::Emp),
            Atom::Choice {
                condition,
                first,
                second,
                ..
            } => {
                let cond = self.condition(alloc, globals, setting.in_ensures, condition)?;
                let one = self.apart(alloc, globals, setting, first.get())?;
                let other = self.apart(alloc, globals, setting, second.get())?;
                choice(alloc, cond, one, other)
            }
            Atom::Up {
                word,
                assertion,
                ..
            } => Ok(Asrt::Up {
                a: self.inside(alloc, globals, setting, *word, assertion.get())?,
            }),
            Atom::Down {
                word,
                assertion,
                ..
            } => Ok(Asrt::Down {
                a: self.inside(alloc, globals, setting, *word, assertion.get())?,
            }),
            _ => self.alone(alloc, globals, setting, tree),
        }
    }

    /// Several parts, each after the one before it.
    #[cycle(read)]
    fn conjuncts(
        &mut self,
        alloc: Global,
        globals: &Globals<'a>,
        setting: Setting,
        trees: &[Conjunct],
    ) -> Result<List<Asrt>, AllocError>
        ensures made { IfOk result (λ list. list ≡ (each (map (conjunct (given_of globals.now)) trees.now) setting self.old).made) }
        ensures resolver { OnOk result (self.new ≡ (each (map (conjunct (given_of globals.now)) trees.now) setting self.old).resolver) }
    {
        let mut list = List::new(alloc);
        for tree in trees {
            list.push(self.atom(alloc, globals, setting, &tree.atom)?)?;
        }
        Ok(list)
    }

    /// An assertion. Its names are visible behind it.
    #[cycle(read)]
    pub fn assertion(
        &mut self,
        alloc: Global,
        globals: &Globals<'a>,
        setting: Setting,
        tree: &Assertion,
    ) -> Result<Asrt, AllocError>
        ensures made { IfOk result (λ a. a ≡ (assertion (given_of globals.now) tree.now setting self.old).made) }
        ensures resolver { OnOk result (self.new ≡ (assertion (given_of globals.now) tree.now setting self.old).resolver) }
    {
        let first = self.atom(alloc, globals, setting, &tree.first)?;
        let more = self.conjuncts(alloc, globals, setting, tree.more.as_slice())?;
        both(alloc, first, more)
    }

    /// A clause; an absent one is `emp`.
    pub fn clause(
        &mut self,
        alloc: Global,
        globals: &Globals<'a>,
        setting: Setting,
        tree: &Option<Clause>,
    ) -> Result<Asrt, AllocError>
        ensures made { IfOk result (λ a. a ≡ (clause (given_of globals.now) tree.now setting self.old).made) }
        ensures resolver { OnOk result (self.new ≡ (clause (given_of globals.now) tree.now setting self.old).resolver) }
    {
        match tree {
            None => Ok(Asrt::Emp),
            Some(clause) => self.assertion(alloc, globals, setting, &clause.assertion),
        }
    }
}

/// Whether a part of an assertion has a modality.
#[cycle(modal)]
fn is_modal_atom(tree: &Atom) -> bool
    ensures { result ≡ is_modal_atom tree.now }
{
    match tree {
        Atom::Up { .. } | Atom::Down { .. } => true,
        Atom::Choice { first, second, .. } => {
            is_modal_assertion(first.get()) || is_modal_assertion(second.get())
        }
        _ => false,
    }
}

/// Whether an assertion has a modality.
#[cycle(modal)]
fn is_modal_assertion(tree: &Assertion) -> bool
    ensures { result ≡ is_modal_assertion tree.now }
{
    if is_modal_atom(&tree.first) {
        return true;
    }
    for conjunct in tree.more.as_slice() {
        if is_modal_atom(&conjunct.atom) {
            return true;
        }
    }
    false
}

/// Whether a clause has a modality.
pub fn has_modality(tree: &Option<Clause>) -> bool
    ensures { result ≡ has_modality tree.now }
{
    match tree {
        None => false,
        Some(clause) => is_modal_assertion(&clause.assertion),
    }
}
