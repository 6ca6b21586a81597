//! Tests of moves: that they are made where there is memory, of small programs and of a program with every statement.
//! What each move is, and that none but those is made, is proved where it stands.
#![tactic(auto)]

#[cfg(test)]
mod moves;
