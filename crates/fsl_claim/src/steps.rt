//! The kinds of step on the two words, and the rule that holds between any two of them.
ghost use Rattle.fsl_claim.specs.Rule.{Holds};
ghost use Rattle.fsl_claim.specs.Steps.{opening, first_of_two, second_of_two, together, given_up, Draws, Looks, Reports, Settles};

use crate::view::{Plan, View};
use atomic_table::{Join, Play, Split, TableRule};

/// Word 0 is the next number to draw, and word 1 the least number reported.
pub(crate) struct NextAndLeast;

impl TableRule<(), View, Plan> for NextAndLeast {
    ghost holds = { Holds };

    ghost first = { opening };
}

/// A draw adds 1 to word 0.
pub(crate) struct Draw;

impl Play<(), View> for Draw {
    ghost then = { λ _ before found after. Draws before found after };
}

/// A look loads word 1.
pub(crate) struct Look;

impl Play<(), View> for Look {
    ghost then = { λ _ before found after. Looks before found after };
}

/// A report lowers word 1 to its number.
pub(crate) struct Report;

impl Play<(), View> for Report {
    ghost then = { λ step before _ after. Reports step.first before after };
}

/// The last look, by a pass that stands for all.
pub(crate) struct Settle;

impl Play<(), View> for Settle {
    ghost then = { λ _ before found after. Settles before found after };
}

/// One pass is made two.
pub(crate) struct Deal;

impl Split<View> for Deal {
    ghost left = { first_of_two };

    ghost right = { second_of_two };
}

/// Two passes are made one.
pub(crate) struct Merge;

impl Join<View> for Merge {
    ghost both = { together };

    ghost spent = { given_up };
}
