//! Tests of tokens: texts with their tokens, faults and places, and the tokens of a small tree. That `lex`, `place` and
//! `spell` answer what their contracts say is proved where they stand.
#![tactic(auto)]

#[cfg(test)]
mod spelling;
#[cfg(test)]
mod texts;
