//! Measures facts: a chain of difference bounds between symbols, added in one of three orders, and then each
//! pair of symbols asked. The words are the number of symbols, the order, and `add` or `ask`.
#![tactic(auto)]

ghost use Rattle.std.specs.Prelude.{◌<◌, ◌≤◌, IfSome};

use fsl_lin::{Lin, LinFault, Sym};
use fsl_pure::{Pure, PureFault};
use std::alloc::Global;
use std::env;
use std::process::ExitCode;

/// The order in which the steps of the chain are added.
#[derive(Clone, Copy, Debug, PartialEq, Eq)]
enum Order {
    Up,
    Down,
    Mixed,
}

/// The step that is added at a turn. 97 has no divisor in common with the numbers of steps that are measured, so
/// each step has its turn.
fn step_at(order: Order, turn: u32, steps: u32) -> u32
    requires some { turn < steps }
    requires few { steps < 512 }
    ensures { result < steps }
{
    match order {
        Order::Up => turn,
        Order::Down => steps - 1 - turn,
        Order::Mixed => turn * 97 % steps,
    }
}

/// The term `x - y + 1`.
fn step(alloc: Global, x: u32, y: u32) -> Result<Lin, LinFault>
    requires first { x < 512 }
    requires second { y < 512 }
{
    let one = Lin::constant(alloc, 1)?;
    let y = Lin::symbol(alloc, Sym(y))?;
    Lin::symbol(alloc, Sym(x))?.sub(alloc, &y)?.add(alloc, &one)
}

/// Each symbol is at least one less than the next.
fn chain(alloc: Global, symbols: u32, order: Order) -> Result<Pure, PureFault>
    requires some { 0 < symbols }
    requires few { symbols ≤ 512 }
{
    let mut pure = Pure::new(alloc)?;
    let steps = symbols - 1;
    for turn in 0..steps {
        let s = step_at(order, turn, steps);
        pure.assume_le(alloc, &step(alloc, s, s + 1)?)?;
    }
    Ok(pure)
}

fn terms(alloc: Global, symbols: u32) -> Result<Vec<Lin>, LinFault>
    requires { symbols ≤ 512 }
{
    let mut terms = Vec::new(alloc);
    for s in 0..symbols {
        terms.push(Lin::symbol(alloc, Sym(s))?)?;
    }
    Ok(terms)
}

/// How many pairs of symbols are proved to be in order.
fn ask(pure: &Pure, terms: &[Lin]) -> u64 {
    let mut proved: u64 = 0;
    for x in terms {
        for y in terms {
            if !pure.absurd() && pure.proves_le(x, y, 0) {
                proved = proved.saturating_add(1);
            }
        }
    }
    proved
}

/// How many questions were answered with yes.
fn run(alloc: Global, task: &Task) -> Result<u64, PureFault>
    requires some { 0 < task.now.symbols }
    requires few { task.now.symbols ≤ 512 }
{
    let pure = chain(alloc, task.symbols, task.order)?;
    if !task.asks {
        return Ok(0);
    }
    let terms = terms(alloc, task.symbols)?;
    Ok(ask(&pure, terms.as_slice()))
}

/// The order that a word names.
fn order_of(word: &str) -> Option<Order> {
    match word {
        "up" => Some(Order::Up),
        "down" => Some(Order::Down),
        "mixed" => Some(Order::Mixed),
        _ => None,
    }
}

/// What the program is called with.
#[derive(Clone, Copy)]
struct Task {
    symbols: u32,
    order: Order,
    asks: bool,
}

/// The three arguments, where there are 1 to 512 symbols and an order of that name.
fn arguments(rt: &HostRuntime) -> Option<Task>
    ensures { IfSome result (λ task. (0 < task.symbols) × (task.symbols ≤ 512)) }
{
    let mut args = env::args(rt).ok()?.skip(1);
    let symbols = args.next()?.parse::<u32>().ok()?;
    let order = order_of(args.next()?.as_str())?;
    let asks = args.next()?.as_str() == "ask";
    if symbols == 0 || symbols > 512 {
        return None;
    }
    Some(Task {
        symbols,
        order,
        asks,
    })
}

fn main(rt: HostRuntime) -> ExitCode {
    let Some(task) = arguments(&rt) else {
        return ExitCode::from(2);
    };
    let Ok(proved) = run(rt.alloc(), &task) else {
        return ExitCode::from(6);
    };
    match println!(rt; "{proved}") {
        Ok(()) => ExitCode::from(0),
        Err(_) => ExitCode::from(5),
    }
}
