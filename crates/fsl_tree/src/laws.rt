//! Laws of trees and their tokens, each on a function with an empty body.
ghost use Rattle.fsl_tree.specs.Printing.{TokensAreHeld, PrintingReadsBack};

/// The names and numbers of the tokens that a text was cut into stand in it at their spans.
pub fn tokens_are_held()
    ensures { TokensAreHeld }
{}

/// The text that is printed of a file is cut into the tokens of a tree that differs from the file in spans
/// alone.
pub fn printing_reads_back()
    ensures { PrintingReadsBack }
{}
