//! The faults of expressions, conditions and arguments. They are defined with what is made of these, in
//! `specs/Expressions.antt`.
ghost use Rattle.std.specs.Prelude.{◌≡◌, ◌==◌, ◌∷◌, [], drop, length, map, OnOk};
ghost use Rattle.std.specs.Option.{option_copied};
ghost use Rattle.fsl_types.specs.Expressions.{arguments_of, banks_of, first_due, first_place, fits, judged_argument, judged_arguments, judged_condition, judged_excluded, judged_expression, judged_factor, judged_name, judged_number, judged_term, judged_use, name_alone, next_value, sight_of};

use crate::fault::Fault;
use crate::occurrence::{Due, Occurrence};
use crate::resolver::one_more;
use crate::rules::note;
use crate::scope::Scope;
use crate::variable::Signature;
use fsl_base::{List, Span};
use fsl_tree::{Arguments, Condition, Expression, Factor, NextArgument, Term, Use};
use std::alloc::AllocError;

/// The first token of an expression.
fn first_place(tree: &Expression) -> Span
    ensures { result ≡ first_place tree.now }
{
    match &tree.first.first {
        Factor::Number { place, .. } | Factor::Name { place } | Factor::Outcome { place } => *place,
        Factor::Negative { minus, .. } => *minus,
        Factor::Group { open, .. } => *open,
    }
}

/// The name that an expression is alone.
fn name_alone(tree: &Expression) -> Option<Span>
    ensures { result ≡ name_alone tree.now }
{
    if !tree.more.is_empty() || !tree.first.more.is_empty() {
        return None;
    }
    match &tree.first.first {
        Factor::Name { place } => Some(*place),
        _ => None,
    }
}

/// What is due for the first of these parameters, each a bank or not.
fn first_due(banks: &[bool]) -> Due
    ensures { result ≡ first_due banks.now }
{
    match banks.split_first() {
        Some((true, _)) => Due::Bank,
        Some((false, _)) => Due::Number,
        None => Due::Any,
    }
}

/// The parameters behind the first.
fn behind_first(banks: &[bool]) -> &[bool]
    ensures { result.now ≡ drop 1 banks.now }
{
    match banks.split_first() {
        Some((_, rest)) => rest,
        None => banks,
    }
}

/// Whether there are as many arguments as parameters.
fn is_fit(arguments: &Option<Arguments>, banks: &[bool]) -> bool
    ensures { result ≡ (length (arguments_of arguments.now) == length banks.now) }
{
    match (arguments, banks.split_first()) {
        (None, None) => true,
        (Some(given), Some((_, rest))) => given.more.len() == rest.len(),
        _ => false,
    }
}

impl<'s, 'a> Scope<'s, 'a> {
    /// A variable's name, where something is due.
    pub fn judge_name(
        &self,
        due: Due,
        faults: &mut List<Fault>,
        place: Span,
    ) -> Result<(), AllocError>
        ensures { OnOk result (faults.new ≡ judged_name (sight_of self.now) due place faults.old) }
    {
        note(
            faults,
            Occurrence::Variable {
                place,
                due,
                sort: self.sort(place),
            },
        )
    }

    #[cycle(judged)]
    fn judge_factor(
        &self,
        due: Due,
        faults: &mut List<Fault>,
        tree: &Factor,
    ) -> Result<(), AllocError>
        ensures { OnOk result (faults.new ≡ judged_factor (sight_of self.now) due tree.now faults.old) }
    {
        match tree {
            Factor::Number { .. } => Ok(()),
            Factor::Name { place } => self.judge_name(due, faults, *place),
            Factor::Outcome { place } => note(
                faults,
                Occurrence::Outcome {
                    place: *place,
                    in_ensures: self.in_ensures,
                },
            ),
            Factor::Negative { factor, .. } => self.judge_factor(due, faults, factor.get()),
            Factor::Group { expression, .. } => self.judge_expression(
                due,
                faults,
                expression.get(),
            ),
        }
    }

    #[cycle(judged)]
    fn judge_term(&self, due: Due, faults: &mut List<Fault>, tree: &Term) -> Result<(), AllocError>
        ensures { OnOk result (faults.new ≡ judged_term (sight_of self.now) due tree.now faults.old) }
    {
        self.judge_factor(due, faults, &tree.first)?;
        for next in tree.more.as_slice() {
            self.judge_factor(due, faults, &next.factor)?;
        }
        Ok(())
    }

    /// An expression, each of whose names is to be what is due.
    #[cycle(judged)]
    pub fn judge_expression(
        &self,
        due: Due,
        faults: &mut List<Fault>,
        tree: &Expression,
    ) -> Result<(), AllocError>
        ensures { OnOk result (faults.new ≡ judged_expression (sight_of self.now) due tree.now faults.old) }
    {
        self.judge_term(due, faults, &tree.first)?;
        for addend in tree.more.as_slice() {
            self.judge_term(due, faults, &addend.term)?;
        }
        Ok(())
    }

    /// An expression over numbers.
    pub fn judge_number(
        &self,
        faults: &mut List<Fault>,
        tree: &Expression,
    ) -> Result<(), AllocError>
        ensures { OnOk result (faults.new ≡ judged_number (sight_of self.now) tree.now faults.old) }
    {
        self.judge_expression(Due::Number, faults, tree)
    }

    /// A condition.
    pub fn judge_condition(
        &self,
        faults: &mut List<Fault>,
        tree: &Condition,
    ) -> Result<(), AllocError>
        ensures { OnOk result (faults.new ≡ judged_condition (sight_of self.now) tree.now faults.old) }
    {
        match tree {
            Condition::Always { .. } | Condition::Never { .. } => Ok(()),
            Condition::Compared { left, right, .. } => {
                self.judge_number(faults, left)?;
                self.judge_number(faults, right)
            }
        }
    }

    /// An argument; a bank is given by its name alone.
    fn judge_argument(
        &self,
        due: Due,
        faults: &mut List<Fault>,
        tree: &Expression,
    ) -> Result<(), AllocError>
        ensures { OnOk result (faults.new ≡ judged_argument (sight_of self.now) due tree.now faults.old) }
    {
        if due != Due::Bank {
            return self.judge_expression(due, faults, tree);
        }
        match name_alone(tree) {
            Some(place) => self.judge_name(Due::Bank, faults, place),
            None => note(
                faults,
                Occurrence::Compound {
                    place: first_place(tree),
                },
            ),
        }
    }

    /// The arguments behind the first, for these parameters.
    fn judge_more(
        &self,
        faults: &mut List<Fault>,
        banks: &[bool],
        more: &[NextArgument],
    ) -> Result<(), AllocError>
        ensures { OnOk result (faults.new ≡ judged_arguments (sight_of self.now) banks.now (map next_value more.now) faults.old) }
    {
        let mut left = banks;
        for next in more {
            self.judge_argument(first_due(left), faults, &next.value)?;
            left = behind_first(left);
        }
        Ok(())
    }

    /// The arguments for these parameters.
    fn judge_arguments(
        &self,
        faults: &mut List<Fault>,
        banks: &[bool],
        arguments: &Option<Arguments>,
    ) -> Result<(), AllocError>
        ensures { OnOk result (faults.new ≡ judged_arguments (sight_of self.now) banks.now (arguments_of arguments.now) faults.old) }
    {
        match arguments {
            None => Ok(()),
            Some(given) => {
                self.judge_argument(first_due(banks), faults, &given.first)?;
                self.judge_more(faults, behind_first(banks), given.more.as_slice())
            }
        }
    }

    /// A use of an invariant or a procedure.
    pub fn judge_use(
        &self,
        faults: &mut List<Fault>,
        signature: Option<&Signature>,
        tree: &Use,
    ) -> Result<(), AllocError>
        ensures { OnOk result (faults.new ≡ judged_use (sight_of self.now) (option_copied signature.entry) tree.now faults.old) }
    {
        match signature {
            Some(known) => {
                let banks = known.banks.as_slice();
                let fits = is_fit(&tree.arguments, banks);
                note(
                    faults,
                    Occurrence::Used {
                        place: tree.name,
                        fits: Some(fits),
                    },
                )?;
                self.judge_arguments(faults, banks, &tree.arguments)
            }
            None => {
                note(
                    faults,
                    Occurrence::Used {
                        place: tree.name,
                        fits: None,
                    },
                )?;
                self.judge_arguments(faults, &[], &tree.arguments)
            }
        }
    }

    /// One excluded value, behind a number of others.
    fn judge_excluded_value(
        &self,
        faults: &mut List<Fault>,
        before: u32,
        tree: &Expression,
    ) -> Result<(), AllocError>
        ensures { OnOk result (faults.new ≡ judged_excluded (sight_of self.now) before (tree.now ∷ []) faults.old) }
    {
        note(
            faults,
            Occurrence::Excluded {
                place: first_place(tree),
                before,
            },
        )?;
        self.judge_number(faults, tree)
    }

    /// The excluded values of an `Acq`.
    pub fn judge_excluded(
        &self,
        faults: &mut List<Fault>,
        excluded: &Option<Arguments>,
    ) -> Result<(), AllocError>
        ensures { OnOk result (faults.new ≡ judged_excluded (sight_of self.now) 0 (arguments_of excluded.now) faults.old) }
    {
        match excluded {
            None => Ok(()),
            Some(values) => {
                self.judge_excluded_value(faults, 0, &values.first)?;
                self.judge_more_excluded(faults, values.more.as_slice())
            }
        }
    }

    /// The excluded values behind the first.
    fn judge_more_excluded(
        &self,
        faults: &mut List<Fault>,
        more: &[NextArgument],
    ) -> Result<(), AllocError>
        ensures { OnOk result (faults.new ≡ judged_excluded (sight_of self.now) 1 (map next_value more.now) faults.old) }
    {
        let mut before = 1;
        for next in more {
            self.judge_excluded_value(faults, before, &next.value)?;
            before = one_more(before, 16);
        }
        Ok(())
    }
}
