//! The commands that read a program, and which programs each of them supports so far.
ghost use Rattle.std.specs.Prelude.{◌≡◌};
ghost use Rattle.fsl_commands.specs.Command.{supports};

use fsl_core::{Program, is_straight};
use fsl_flow::is_supported;

/// A command that reads a program.
#[derive(Clone, Copy, Debug, PartialEq, Eq)]
pub enum Command {
    /// Judges the program.
    Check,
    /// Judges it, and runs it where it is accepted.
    Run,
}

impl Command {
    /// Whether the command supports a program: `check` where the paths are followed, `run` where the machine runs it.
    pub fn supports(self, p: &Program) -> bool
        ensures { result ≡ supports self p.now }
    {
        match self {
            Command::Check => is_supported(p),
            Command::Run => is_straight(p),
        }
    }
}
