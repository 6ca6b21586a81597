//! Lists of numbers in a line, each behind a space.
ghost use Rattle.std.specs.Prelude.{◌≡◌, ◌++◌, OnOk};
ghost use Rattle.fsl_exec_text.specs.Texts.{integers, numbers, results};

use fsl_base::Text;
use fsl_core::Ended;
use std::alloc::{AllocError, Global};

/// Adds numbers of threads or events.
pub(crate) fn push_numbers(alloc: Global, text: &mut Text, listed: &[u32]) -> Result<(), AllocError>
    ensures { OnOk result (text.new ≡ text.old ++ numbers listed.now) }
{
    for number in listed {
        text.push_str(format!(in alloc; " {number}")?.as_str())?;
    }
    Ok(())
}

/// Adds values.
pub(crate) fn push_integers(
    alloc: Global,
    text: &mut Text,
    values: &[i64],
) -> Result<(), AllocError>
    ensures { OnOk result (text.new ≡ text.old ++ integers values.now) }
{
    for value in values {
        text.push_str(format!(in alloc; " {value}")?.as_str())?;
    }
    Ok(())
}

/// Adds threads with their results.
pub(crate) fn push_results(
    alloc: Global,
    text: &mut Text,
    listed: &[Ended],
) -> Result<(), AllocError>
    ensures { OnOk result (text.new ≡ text.old ++ results listed.now) }
{
    for ended in listed {
        let Ended { thread, value } = *ended;
        text.push_str(format!(in alloc; " {thread}={value}")?.as_str())?;
    }
    Ok(())
}
