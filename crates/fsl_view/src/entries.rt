//! Entries by ascending locations: where a location stands, and what raising one does.
ghost use Rattle.std.specs.Prelude.{◌≡◌, ◌+◌, ◌≤◌, length, OnOk, OnErr, IsOk, vec_capacity};
ghost use Rattle.fsl_view.specs.Entries.{IsAscending, at, raise_in, join_in, IsIndexOf, has};

use crate::entry::Entry;
use std::alloc::AllocError;

/// The index of a location's entry, or the index that it would have.
fn find(entries: &[Entry], loc: &i64) -> Result<usize, usize>
    requires { IsAscending entries.now }
    ensures { IsIndexOf entries.now loc.now result }
{
    entries.binary_search_by_key(loc, |entry| entry.loc)
}

pub(crate) fn look(entries: &[Entry], loc: &i64) -> u64
    requires { IsAscending entries.now }
    ensures { result ≡ at entries.now loc.now }
{
    match find(entries, loc) {
        Ok(index) => entries[index].to,
        Err(_) => 0,
    }
}

/// Raises one location.
pub(crate) fn raise(entries: &mut Vec<Entry>, by: &Entry) -> Result<(), AllocError>
    requires { IsAscending entries.old.items }
    ensures raised { OnOk result (entries.new.items ≡ raise_in entries.old.items by.now) }
    ensures ascending { IsAscending entries.new.items }
    ensures kept { OnErr result (entries.new.items ≡ entries.old.items) }
    ensures room { vec_capacity entries.old ≤ vec_capacity entries.new }
    ensures succeeds { length (raise_in entries.old.items by.now) ≤ vec_capacity entries.old → IsOk result }
{
    match find(entries.as_slice(), &by.loc) {
        Ok(index) => {
            let entry = &mut entries[index];
            entry.to = entry.to.max(by.to);
        }
        Err(index) => entries.insert(index, *by)?,
    }
    Ok(())
}

/// Whether a location has an entry.
fn has(entries: &[Entry], loc: &i64) -> bool
    requires { IsAscending entries.now }
    ensures { result ≡ has entries.now loc.now }
{
    find(entries, loc).is_ok()
}

/// How many of the other locations have no entry.
pub(crate) fn missing(entries: &[Entry], others: &[Entry]) -> usize
    requires ascending { IsAscending entries.now }
    requires others { IsAscending others.now }
    ensures { length entries.now + result ≡ length (join_in entries.now others.now) }
{
    let mut count = 0;
    for other in others {
        if !has(entries, &other.loc) {
            count += 1;
        }
    }
    count
}

/// Raises each of the other locations, where there is room.
pub(crate) fn raise_each(entries: &mut Vec<Entry>, others: &[Entry])
    requires ascending { IsAscending entries.old.items }
    requires room { length (join_in entries.old.items others.now) ≤ vec_capacity entries.old }
    ensures raised { entries.new.items ≡ join_in entries.old.items others.now }
    ensures ascending { IsAscending entries.new.items }
    ensures room { vec_capacity entries.old ≤ vec_capacity entries.new }
{
    for other in others {
        raise_reserved(entries, other);
    }
}

/// Raises one location, where there is room.
pub(crate) fn raise_reserved(entries: &mut Vec<Entry>, by: &Entry)
    requires ascending { IsAscending entries.old.items }
    requires room { length (raise_in entries.old.items by.now) ≤ vec_capacity entries.old }
    ensures raised { entries.new.items ≡ raise_in entries.old.items by.now }
    ensures ascending { IsAscending entries.new.items }
    ensures room { vec_capacity entries.old ≤ vec_capacity entries.new }
{
    match raise(entries, by) {
        Ok(()) => (),
        Err(_) => unreachable!(),
    }
}
