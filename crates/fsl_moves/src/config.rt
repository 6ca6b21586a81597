//! Configurations: where a thread stands in its program, or how it has ended.
ghost use Rattle.std.specs.Prelude.{◌≡◌};
ghost use Rattle.fsl_core.specs.Programs.{Program};
ghost use Rattle.fsl_core.specs.Moves.{standing_of};
ghost use Rattle.fsl_moves.specs.Config.{config_of};

use fsl_base::List;
use fsl_core::Standing;

/// A block of a statement.
#[derive(Clone, Copy, Debug, PartialEq, Eq)]
pub enum Arm {
    /// The first block of an `if`.
    Yes,
    /// Its second block.
    No,
    /// The block of a loop.
    Body,
}

/// A block that was entered: one of the statement with this number in the block around it.
#[derive(Clone, Copy, Debug, PartialEq, Eq)]
pub struct Entry {
    /// The statement whose block it is, by its number.
    pub stmt: usize,
    /// Which block it is.
    pub arm: Arm,
    /// The statement with which the block around goes on: a loop is made again, an `if` is done.
    pub onward: usize,
}

/// A procedure that runs, by its number.
#[derive(Drop)]
pub struct Frame {
    /// Its number among those of the program.
    pub proc: u32,
    /// The blocks that were entered, the innermost last.
    pub path: Vec<Entry>,
    /// The next statement of the innermost block.
    pub at: usize,
    /// The values of the variables.
    pub env: List<i64>,
    /// The variable of the caller that gets the result.
    pub target: Option<u32>,
}

/// Threads that were started together: `count` of them, with the numbers from `first` on.
#[derive(Clone, Copy, Debug, PartialEq, Eq)]
pub struct Children {
    /// The number of the first.
    pub first: u32,
    /// How many there are.
    pub count: u32,
}

/// Where a thread stands.
#[derive(Drop)]
pub enum Config {
    /// A procedure runs, above those that wait for it, the innermost last. It may wait for threads that it has
    /// started.
    Running {
        frame: Frame,
        below: Vec<Frame>,
        children: Option<Children>,
    },
    /// The thread has returned this value.
    Returned {
        value: i64,
    },
    /// A number has left its range.
    Halted,
    /// An assertion has failed.
    Failed,
}

/// How a thread stands. It takes no memory.
pub fn standing(c: &Config) -> Standing
    ensures { (p : Program) → standing_of (config_of p c.now) ≡ result }
{
    match c {
        Config::Running { children, .. } => match children {
            None => Standing::Going,
            Some(children) => Standing::Joining {
                first: children.first,
                count: children.count,
            },
        },
        Config::Returned { value } => Standing::Returned { value: *value },
        Config::Halted => Standing::Halted,
        Config::Failed => Standing::Failed,
    }
}
