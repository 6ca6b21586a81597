//! Cuts the bytes of a program file into tokens, and tells lines and columns.
#![tactic(auto)]

mod cutting;
mod fault;
mod kind;
mod lines;
mod piece;
mod places;

pub use cutting::lex;
pub use fault::LexFault;
pub use kind::{Token, TokenKind};
pub use lines::place;
pub use places::Place;
