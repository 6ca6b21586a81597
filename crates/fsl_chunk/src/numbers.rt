//! Lists of the numbers of chunks, one for each kind and rung.
ghost use Rattle.std.specs.Prelude.{◌≡◌, ◌<◌, ◌++◌, ◌∷◌, [], length, get_or, map, replicate, slice_set, IfOk, OnOk, OnErr};
ghost use Rattle.fsl_chunk.specs.Numbers.{without, lowered};

use fsl_base::List;
use std::alloc::{AllocError, Global};
use std::marker::Model;

/// How many lists there are: 7 kinds at 4 rungs.
const LISTS: usize = 28;

/// Ascending lists of numbers.
#[derive(Drop)]
pub struct Numbers {
    lists: Vec<List<u32>>,
}

impl Model for Numbers {
    ghost use Rattle.std.specs.Prelude.{ℕ, List as Seq};

    ghost Value = { Seq (Seq ℕ) };

    ghost view = { λ numbers. numbers.lists.items };
}

impl Numbers {
    /// Empty lists.
    pub fn new(alloc: Global) -> Result<Numbers, AllocError>
        ensures { IfOk result (λ numbers. numbers ≡ replicate 28 []) }
    {
        let mut lists = Vec::with_capacity(alloc, LISTS)?;
        for _list in 0..LISTS {
            lists.push(List::new(alloc))?;
        }
        Ok(Numbers { lists })
    }

    /// One of the lists.
    pub fn list(&self, list: usize) -> &[u32]
        requires { list < length self.now }
        ensures { result.now ≡ get_or self.now list [] }
    {
        self.lists[list].as_slice()
    }

    /// Adds a number at the end of a list. For want of memory nothing changes.
    pub fn push(&mut self, list: usize, number: u32) -> Result<(), AllocError>
        requires { list < length self.old }
        ensures pushed { OnOk result (self.new ≡ slice_set self.old list (get_or self.old list [] ++ number ∷ [])) }
        ensures kept { OnErr result (self.new ≡ self.old) }
    {
        self.lists[list].push(number)
    }

    /// Takes a number out of all lists; those above it become one less.
    pub fn forget(&mut self, number: u32)
        ensures { self.new ≡ map (without number) self.old }
    {
        forget_in_each(&mut self.lists, number);
    }

    /// The same lists.
    pub fn copy(&self, alloc: Global) -> Result<Numbers, AllocError>
        ensures { IfOk result (λ numbers. numbers ≡ self.now) }
    {
        let mut lists = Vec::with_capacity(alloc, self.lists.len())?;
        for list in self.lists.as_slice() {
            lists.push(List::from_slice(alloc, list.as_slice())?)?;
        }
        Ok(Numbers { lists })
    }
}

/// Takes a number out of several lists.
fn forget_in_each(lists: &mut Vec<List<u32>>, gone: u32)
    ensures { lists.new.items ≡ map (without gone) lists.old.items }
{
    for at in 0..lists.len() {
        forget(&mut lists[at], gone);
    }
}

/// Takes a number out of a list; those above it become one less.
fn forget(numbers: &mut List<u32>, gone: u32)
    ensures { numbers.new ≡ without gone numbers.old }
{
    let mut at = 0;
    while at < numbers.len() {
        let number = numbers.as_slice()[at];
        if number == gone {
            let _gone = numbers.remove(at);
        } else {
            numbers.set(at, lowered(number, gone));
            at += 1;
        }
    }
}

/// A number once another one is gone.
fn lowered(number: u32, gone: u32) -> u32
    ensures { result ≡ lowered gone number }
{
    if gone < number { number - 1 } else { number }
}
