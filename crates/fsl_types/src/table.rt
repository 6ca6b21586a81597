//! Names with what stands behind them, in the order in which they were declared. A name is looked up by its
//! bytes, in constant time. As a list of names it is defined in `specs/Names.antt`.
ghost use Rattle.std.specs.Prelude.{◌≡◌, [], length, take, OnOk, OnErr};
ghost use Rattle.std.specs.Option.{option_copied};
ghost use Rattle.fsl_types.specs.Names.{found, with_name};

use indexmap::IndexMap;
use std::alloc::{AllocError, Global};
use std::marker::Model;

/// A table of names.
#[derive(Drop)]
pub struct Table<'a, V> {
    names: IndexMap<&'a [u8], V>,
}

impl<'a, V> Model for Table<'a, V> {
    ghost use Rattle.std.specs.Prelude.{List as Seq, ℕ, map};
    ghost use Rattle.std.specs.Coded.{coded_list};

    ghost Value = { Seq (Seq ℕ × V) };

    ghost view = { λ table. map (λ entry. (entry.0.now, entry.1)) table.names.entries };
}

impl<'a, V: Drop> Table<'a, V> {
    /// No names. It takes no memory.
    pub fn new(alloc: Global) -> Table<'a, V>
        ensures { result ≡ [] }
    {
        Table {
            names: IndexMap::new(alloc),
        }
    }

    /// What stands behind a name.
    pub fn find(&self, name: &[u8]) -> Option<&V>
        ensures { option_copied result ≡ found name.now self.now }
    {
        self.names.get(name)
    }

    /// How many names there are.
    pub fn len(&self) -> usize
        ensures { result ≡ length self.now }
    {
        self.names.len()
    }

    /// One name more, unless it stands there already.
    pub fn declare(&mut self, name: &'a [u8], value: V) -> Result<(), AllocError>
        ensures declared { OnOk result (self.new ≡ with_name name.now value self.old) }
    {
        if self.names.get(name).is_some() {
            return Ok(());
        }
        self.names.insert(name, value)?;
        Ok(())
    }

    /// Takes out the names behind the first ones.
    pub fn truncate(&mut self, len: usize)
        ensures { self.new ≡ take len self.old }
    {
        self.names.truncate(len);
    }
}
