//! A shelf of files in memory, some of whose calls fail as a list says: what tests read from.
ghost use Rattle.std.specs.Prelude.{◌≡◌, ◌≤◌, ◌<◌, ◌+◌, ◌^◌, IsTrue, IfNone, IfSome, None, Some, length, take, min, slice_get};
ghost use Rattle.std.specs.Io.KnownBytes.{Consumes, IsAtEnd};
ghost use Rattle.fsl_base.specs.Stock.{is_mark, is_within, is_listed, held, left_at, next_fails, faults_after};
ghost use Rattle.fsl_base.specs.Outside.{raised, pulled, Rose};

use crate::list::List;
use crate::outside::{Failed, Shelf};
use crate::text::Text;

/// A file in memory.
#[derive(Debug, Drop)]
pub struct Named {
    pub name: Text,
    pub bytes: List<u8>,
}

/// A place in a file: the file's number, and how many of its bytes lie before the place.
#[derive(Clone, Copy, Debug)]
pub struct Bookmark {
    pub file: usize,
    pub byte: usize,
}

/// A shelf in memory. Of two files of one name it holds the first.
#[derive(Debug, Drop)]
pub struct MemShelf {
    files: List<Named>,
    piece: u32,
    failing: List<u32>,
    calls: u64,
    faults: u64,
    given: u64,
    mark: Option<Bookmark>,
    pub ghost feeds: { 1 ≤ piece },
    pub ghost placed: { IsTrue (is_mark files mark) },
}

impl MemShelf {
    /// A shelf of these files that gives at most `piece` bytes at a time. The calls of `begin` and
    /// `pull` are counted together from 1 on, and those whose numbers are listed in `failing` fail.
    pub fn new(files: List<Named>, piece: u32, failing: List<u32>) -> MemShelf
        requires { 1 ≤ piece }
        ensures files { result.files ≡ files }
        ensures piece { result.piece ≡ piece }
        ensures failing { result.failing ≡ failing }
        ensures calls { result.calls ≡ 0 }
        ensures faults { result.faults ≡ 0 }
        ensures given { result.given ≡ 0 }
        ensures closed { result.mark ≡ None }
    {
        MemShelf {
            files,
            piece,
            failing,
            calls: 0,
            faults: 0,
            given: 0,
            mark: None,
        }
    }

    // Counts a call, and the fault where it is one that fails.
    fn fails(&mut self) -> bool
        ensures answer { result ≡ next_fails self.old.failing self.old.calls }
        ensures calls { self.new.calls ≡ raised self.old.calls 1 }
        ensures faults { self.new.faults ≡ faults_after self.old.failing self.old.calls self.old.faults }
        ensures later { self.old.faults ≤ self.new.faults }
        ensures cause { IsTrue result → Rose self.old.faults self.new.faults }
        ensures files { self.new.files ≡ self.old.files }
        ensures piece { self.new.piece ≡ self.old.piece }
        ensures failing { self.new.failing ≡ self.old.failing }
        ensures given { self.new.given ≡ self.old.given }
        ensures mark { self.new.mark ≡ self.old.mark }
    {
        self.calls = self.calls.saturating_add(1);
        let fails = is_listed(self.failing.as_slice(), self.calls);
        if fails {
            self.faults = self.faults.saturating_add(1);
        }
        fails
    }
}

// Whether a number is among those listed.
fn is_listed(numbers: &[u32], number: u64) -> bool
    ensures { result ≡ is_listed numbers.now number }
{
    numbers.iter().any(|listed| u64::from(*listed) == number)
}

// The number of the first file of a name.
fn find(files: &[Named], name: &str) -> Option<usize>
    ensures missing { IfNone result (held files.now name.now ≡ None) }
    ensures placed { IfSome result (λ file. IsTrue (is_within (slice_get files.now file) 0)) }
    ensures found { IfSome result (λ file. held files.now name.now ≡ left_at files.now (Some (record { file = file; byte = 0 }))) }
{
    for (number, file) in files.iter().enumerate() {
        if file.name.as_str() == name {
            return Some(number);
        }
    }
    None
}

// Moves the bytes behind a bookmark, as many as fit in a piece and in the buffer, to the front of the
// buffer, and says how many.
fn give(files: &[Named], mark: Bookmark, piece: u32, buf: &mut [u8]) -> usize
    requires placed { IsTrue (is_within (slice_get files.now mark.file) mark.byte) }
    requires feeds { 1 ≤ piece }
    requires room { 0 < length buf.old }
    ensures count { IfSome (left_at files.now (Some mark)) (λ left. result ≡ min piece (min (length buf.old) (length left))) }
    ensures bytes { Consumes (left_at files.now (Some mark)) (left_at files.now (Some (record { file = mark.file; byte = mark.byte + result }))) (take result buf.new) }
    ensures end { result ≡ 0 → IsAtEnd (left_at files.now (Some mark)) }
    ensures within { IsTrue (is_within (slice_get files.now mark.file) (mark.byte + result)) }
    ensures fits { mark.byte + result < 2 ^ 64 }
{
    let Some(file) = files.get(mark.file) else {
        unreachable!()
    };
    let (_, left) = file.bytes.as_slice().split_at(mark.byte);
    copy_front(left, piece, buf)
}

// Copies the first bytes, as many as fit in a piece and in the buffer, to the front of the buffer, and
// says how many.
fn copy_front(bytes: &[u8], piece: u32, buf: &mut [u8]) -> usize
    ensures count { result ≡ min piece (min (length buf.old) (length bytes.now)) }
    ensures front { take result buf.new ≡ take result bytes.now }
{
    let count = bytes.len().min(buf.len()).min(piece as usize);
    buf[..count].copy_from_slice(&bytes[..count]);
    count
}

impl Shelf for MemShelf {
    ghost use Rattle.std.specs.Prelude.{is_some, is_ok, true, not, ◌&&◌, ◌⊎◌, IfOk, OnOk, OnErr};

    ghost content = { λ shelf. Some (held shelf.files) };

    ghost left = { λ shelf. left_at shelf.files shelf.mark };

    ghost begun = { λ shelf. is_some shelf.mark };

    ghost faults = { λ shelf. shelf.faults };

    ghost given = { λ shelf. shelf.given };

    fn begin(&mut self, name: &str) -> Result<(), Failed>
        ensures content { Some (held self.new.files) ≡ Some (held self.old.files) }
        ensures whole { OnOk result (left_at self.new.files self.new.mark ≡ held self.old.files name.now) }
        ensures begun { is_some self.new.mark ≡ is_ok result }
        ensures given { self.new.given ≡ self.old.given }
        ensures answer { is_ok result ≡ (not (next_fails self.old.failing self.old.calls) && is_some (held self.old.files name.now)) }
        ensures calls { self.new.calls ≡ raised self.old.calls 1 }
        ensures later { self.old.faults ≤ self.new.faults }
        ensures cause { OnErr result (Rose self.old.faults self.new.faults ⊎ (held self.old.files name.now ≡ None)) }
        ensures faults { self.new.faults ≡ faults_after self.old.failing self.old.calls self.old.faults }
        ensures same { (self.new.files ≡ self.old.files) × (self.new.piece ≡ self.old.piece) × (self.new.failing ≡ self.old.failing) }
    {
        self.mark = None;
        if self.fails() {
            return Err(Failed);
        }
        match find(self.files.as_slice(), name) {
            Some(file) => {
                self.mark = Some(Bookmark { file, byte: 0 });
                Ok(())
            }
            None => Err(Failed),
        }
    }

    fn pull(&mut self, buf: &mut [u8]) -> Result<usize, Failed>
        requires begun { is_some self.old.mark ≡ true }
        requires room { 0 < length buf.old }
        ensures begun { is_some self.new.mark ≡ true }
        ensures count { IfOk result (λ n. n ≤ length buf.new) }
        ensures bytes { IfOk result (λ n. Consumes (left_at self.old.files self.old.mark) (left_at self.new.files self.new.mark) (take n buf.new)) }
        ensures end { IfOk result (λ n. n ≡ 0 → IsAtEnd (left_at self.new.files self.new.mark)) }
        ensures given { self.new.given ≡ raised self.old.given (pulled result) }
        ensures answer { is_ok result ≡ not (next_fails self.old.failing self.old.calls) }
        ensures size { IfOk result (λ n. IfSome (left_at self.old.files self.old.mark) (λ left. n ≡ min self.old.piece (min (length buf.old) (length left)))) }
        ensures kept { OnErr result (self.new.mark ≡ self.old.mark) }
        ensures calls { self.new.calls ≡ raised self.old.calls 1 }
        ensures later { self.old.faults ≤ self.new.faults }
        ensures cause { OnErr result (Rose self.old.faults self.new.faults) }
        ensures faults { self.new.faults ≡ faults_after self.old.failing self.old.calls self.old.faults }
        ensures same { (self.new.files ≡ self.old.files) × (self.new.piece ≡ self.old.piece) × (self.new.failing ≡ self.old.failing) }
    {
        if self.fails() {
            return Err(Failed);
        }
        let Some(mark) = self.mark else {
            unreachable!()
        };
        let count = give(self.files.as_slice(), mark, self.piece, buf);
        self.mark = Some(Bookmark {
            file: mark.file,
            byte: mark.byte + count,
        });
        self.given = self.given.saturating_add(count as u64);
        Ok(count)
    }
}
