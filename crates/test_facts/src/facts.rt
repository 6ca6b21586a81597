//! Fact sets, with what they prove and what they don't.
mod limits;
mod marks;
mod said;
mod table;
