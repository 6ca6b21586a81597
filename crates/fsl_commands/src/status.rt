//! How the program ends.

/// The exit status of the program: 0 the program is accepted, or every thread of its run returned, 1 an obligation
/// of it fails, 2 the words are no command, 3 the bytes are no program, 4 the file could not be read, 5 the answer
/// could not be written whole, 6 there was no memory, 7 the moves of a run are spent, 8 a thread of it has halted or
/// failed, 9 it meets a limit.
#[derive(Clone, Copy, Debug, PartialEq, Eq)]
pub struct Status(pub u8);
