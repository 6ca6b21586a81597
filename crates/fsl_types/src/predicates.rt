//! Whether a tree has named predicates. Their uses mean nothing until each is replaced by its body, so a tree that
//! has any is to be refused before its program is judged.
ghost use Rattle.std.specs.Prelude.{◌≡◌};
ghost use Rattle.std.specs.List.{list_any};
ghost use Rattle.fsl_types.specs.Predicates.{has_predicates, in_assertion, in_atom, in_block, in_clause, in_declaration, in_fence, in_part, in_statement};

use fsl_tree::{Assertion, Atom, Block, Clause, Declaration, FenceKind, File, Part, Statement};

#[cycle(assertion)]
fn in_atom(tree: &Atom) -> bool
    ensures { result ≡ in_atom tree.now }
{
    match tree {
        Atom::Predicate { .. } => true,
        Atom::Choice { first, second, .. } => {
            in_assertion(first.get()) || in_assertion(second.get())
        }
        Atom::Up { assertion, .. } | Atom::Down { assertion, .. } => in_assertion(assertion.get()),
        _ => false,
    }
}

/// Whether an assertion uses a predicate.
#[cycle(assertion)]
fn in_assertion(tree: &Assertion) -> bool
    ensures { result ≡ in_assertion tree.now }
{
    if in_atom(&tree.first) {
        return true;
    }
    for conjunct in tree.more.as_slice() {
        if in_atom(&conjunct.atom) {
            return true;
        }
    }
    false
}

fn in_clause(tree: &Option<Clause>) -> bool
    ensures { result ≡ in_clause tree.now }
{
    match tree {
        None => false,
        Some(clause) => in_assertion(&clause.assertion),
    }
}

fn in_fence(tree: &FenceKind) -> bool
    ensures { result ≡ in_fence tree.now }
{
    match tree {
        FenceKind::Acquire { .. } => false,
        FenceKind::Release { assertion, .. } => in_assertion(assertion),
    }
}

#[cycle(statement)]
fn in_statement(tree: &Statement) -> bool
    ensures { result ≡ in_statement tree.now }
{
    match tree {
        Statement::Fence { kind, .. } => in_fence(kind),
        Statement::If {
            then_block,
            otherwise,
            ..
        } => {
            if in_block(then_block) {
                return true;
            }
            match otherwise {
                None => false,
                Some(other) => in_block(&other.block),
            }
        }
        Statement::While {
            invariant,
            body,
            ..
        } => in_clause(invariant) || in_block(body),
        _ => false,
    }
}

/// Whether a statement of a block uses a predicate.
#[cycle(statement)]
fn in_block(tree: &Block) -> bool
    ensures { result ≡ in_block tree.now }
{
    for statement in tree.statements.as_slice() {
        if in_statement(statement) {
            return true;
        }
    }
    false
}

fn in_part(tree: &Part) -> bool
    ensures { result ≡ in_part tree.now }
{
    in_assertion(&tree.assertion)
}

fn in_parts(trees: &[Part]) -> bool
    ensures { result ≡ list_any in_part trees.now }
{
    for tree in trees {
        if in_part(tree) {
            return true;
        }
    }
    false
}

fn in_declaration(tree: &Declaration) -> bool
    ensures { result ≡ in_declaration tree.now }
{
    match tree {
        Declaration::Invariant { invariant } => {
            in_part(&invariant.first) || in_parts(invariant.more.as_slice())
        }
        Declaration::Predicate { .. } => true,
        Declaration::Procedure { procedure } => {
            in_clause(&procedure.requires_clause)
                || in_clause(&procedure.ensures_clause)
                || in_block(&procedure.body)
        }
    }
}

fn in_declarations(trees: &[Declaration]) -> bool
    ensures { result ≡ list_any in_declaration trees.now }
{
    for tree in trees {
        if in_declaration(tree) {
            return true;
        }
    }
    false
}

/// Whether a predicate is declared in a file, or used in one of its assertions.
pub fn has_predicates(file: &File) -> bool
    ensures { result ≡ has_predicates file.now }
{
    in_declarations(file.declarations.as_slice())
}
