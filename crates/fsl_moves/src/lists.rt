//! Lists of the threads that a Fork starts and a Join waits for.
ghost use Rattle.std.specs.Prelude.{◌≡◌, ◌+◌, ◌<◌, ◌^◌, length, IfOk};
ghost use Rattle.fsl_core.specs.Moves.{numbers_from, joined_from};

use crate::config::Children;
use fsl_base::List;
use fsl_core::Ended;
use std::alloc::{AllocError, Global};

/// The numbers of threads.
pub fn numbers(alloc: Global, children: Children) -> Result<List<u32>, AllocError>
    requires { children.first + children.count < 2 ^ 32 }
    ensures { IfOk result (λ ns. ns ≡ numbers_from children.first children.count) }
{
    let mut numbers = List::new(alloc);
    for thread in children.first..children.first + children.count {
        numbers.push(thread)?;
    }
    Ok(numbers)
}

/// The threads from `first` on, each with its result.
pub fn joined(alloc: Global, first: u32, values: &[i64]) -> Result<List<Ended>, AllocError>
    requires { first + length values.now < 2 ^ 32 }
    ensures { IfOk result (λ ended. ended ≡ joined_from first values.now) }
{
    let mut ended = List::new(alloc);
    let mut thread = first;
    for value in values {
        ended.push(Ended {
            thread,
            value: *value,
        })?;
        thread += 1;
    }
    Ok(ended)
}
