//! The view: entries by ascending locations, found by binary search.
ghost use Rattle.std.specs.Prelude.{◌≡◌, [], ◌+◌, ◌≤◌, ◌<◌, length, IfOk, OnOk, OnErr, IsOk};
ghost use Rattle.fsl_view.specs.Seen.{unseen, joined, raised};
ghost use Rattle.fsl_view.specs.Entries.{raise_in, join_in};
ghost use Rattle.fsl_view.specs.View.{seen};

use crate::entries::{look, missing, raise, raise_each, raise_reserved};
use crate::entry::Entry;
use std::alloc::{AllocError, Global};
use std::marker::Model;

/// Up to where the messages of each location are seen, by the `to` of the last; 0 where none is.
#[derive(Drop)]
pub struct View {
    entries: Vec<Entry>,
}

impl Model for View {
    ghost use Rattle.std.specs.Prelude.{vec_capacity};
    ghost use Rattle.fsl_view.specs.Entries.{IsAscending};
    ghost use Rattle.fsl_view.specs.View.{Kept};

    ghost Value = { Kept };

    ghost view = { λ view. record { entries = view.entries.items; room = vec_capacity view.entries } };

    ghost invariant = { λ view. IsAscending view.entries.items };
}

impl View {
    /// The view that sees nothing. It takes no memory.
    pub fn new(alloc: Global) -> View
        ensures seen { seen result ≡ unseen }
        ensures entries { result.entries ≡ [] }
    {
        View {
            entries: Vec::new(alloc),
        }
    }

    /// Up to where `loc` is seen, 0 where nothing is kept.
    pub fn at(&self, loc: i64) -> u64
        ensures { result ≡ seen self.now loc }
    {
        look(self.entries.as_slice(), &loc)
    }

    /// Sees `loc` up to the greater of `to` and what is seen. For want of memory the view stays as it
    /// was; there is none as long as the entries fit its room.
    pub fn raise(&mut self, loc: i64, to: u64) -> Result<(), AllocError>
        ensures seen { OnOk result (seen self.new ≡ raised (seen self.old) loc to) }
        ensures entries { OnOk result (self.new.entries ≡ raise_in self.old.entries (record { loc = loc; to = to })) }
        ensures kept { OnErr result (self.new.entries ≡ self.old.entries) }
        ensures room { self.old.room ≤ self.new.room }
        ensures succeeds { length (raise_in self.old.entries (record { loc = loc; to = to })) ≤ self.old.room → IsOk result }
    {
        raise(&mut self.entries, &Entry { loc, to })
    }

    /// Sees each location up to the greater of what the two views see. For want of memory the view
    /// stays as it was; there is none as long as the entries fit its room.
    pub fn join(&mut self, other: &View) -> Result<(), AllocError>
        ensures seen { OnOk result (seen self.new ≡ joined (seen self.old) (seen other.now)) }
        ensures entries { OnOk result (self.new.entries ≡ join_in self.old.entries other.now.entries) }
        ensures kept { OnErr result (self.new.entries ≡ self.old.entries) }
        ensures room { self.old.room ≤ self.new.room }
        ensures succeeds { length (join_in self.old.entries other.now.entries) ≤ self.old.room → IsOk result }
    {
        let more = missing(self.entries.as_slice(), other.entries.as_slice());
        self.entries.reserve(more)?;
        raise_each(&mut self.entries, other.entries.as_slice());
        Ok(())
    }

    /// Makes room for `n` locations.
    pub fn reserve(&mut self, n: u32) -> Result<(), AllocError>
        ensures entries { self.new.entries ≡ self.old.entries }
        ensures reserved { OnOk result (n ≤ self.new.room) }
        ensures room { self.old.room ≤ self.new.room }
        ensures kept { OnErr result (self.new ≡ self.old) }
        ensures succeeds { n ≤ self.old.room → IsOk result }
    {
        let more = (n as usize).saturating_sub(self.entries.len());
        self.entries.reserve(more)
    }

    /// How many locations have an entry.
    pub fn len(&self) -> usize
        ensures { result ≡ length self.now.entries }
    {
        self.entries.len()
    }

    /// Makes room for `more` entries beside those that are there.
    pub fn reserve_more(&mut self, more: usize) -> Result<(), AllocError>
        ensures entries { self.new.entries ≡ self.old.entries }
        ensures reserved { OnOk result (length self.new.entries + more ≤ self.new.room) }
        ensures room { self.old.room ≤ self.new.room }
        ensures kept { OnErr result (self.new ≡ self.old) }
        ensures succeeds { length self.old.entries + more ≤ self.old.room → IsOk result }
    {
        self.entries.reserve(more)
    }

    /// Sees `loc` up to the greater of `to` and what is seen, where there is room for one more entry. It
    /// takes no memory.
    pub fn raise_reserved(&mut self, loc: i64, to: u64)
        requires { length self.old.entries < self.old.room }
        ensures seen { seen self.new ≡ raised (seen self.old) loc to }
        ensures entries { self.new.entries ≡ raise_in self.old.entries (record { loc = loc; to = to }) }
        ensures few { length self.new.entries ≤ length self.old.entries + 1 }
        ensures room { self.old.room ≤ self.new.room }
    {
        raise_reserved(&mut self.entries, &Entry { loc, to });
    }

    /// Sees each location up to the greater of what the two views see, where there is room for the entries
    /// of both. It takes no memory.
    pub fn join_reserved(&mut self, other: &View)
        requires { length self.old.entries + length other.now.entries ≤ self.old.room }
        ensures seen { seen self.new ≡ joined (seen self.old) (seen other.now) }
        ensures entries { self.new.entries ≡ join_in self.old.entries other.now.entries }
        ensures few { length self.new.entries ≤ length self.old.entries + length other.now.entries }
        ensures room { self.old.room ≤ self.new.room }
    {
        let others = other.entries.as_slice();
        raise_each(&mut self.entries, others);
    }

    /// A view that sees the same.
    pub fn copy(&self, alloc: Global) -> Result<View, AllocError>
        ensures seen { IfOk result (λ copy. seen copy ≡ seen self.now) }
        ensures entries { IfOk result (λ copy. copy.entries ≡ self.now.entries) }
    {
        Ok(View {
            entries: Vec::from_slice(alloc, self.entries.as_slice())?,
        })
    }
}
