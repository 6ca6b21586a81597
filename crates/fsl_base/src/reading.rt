//! The whole of a file, up to a limit of bytes.
ghost use Rattle.std.specs.Prelude.{◌≡◌, ◌≤◌, ◌<◌, ◌+◌, true, length, IfOk, OnOk, IfSome, IsErrOf};
ghost use Rattle.std.specs.Io.KnownBytes.{IsAtEnd};
ghost use Rattle.fsl_base.specs.Outside.{raised, Rose};
ghost use Rattle.fsl_base.specs.declared.reading.ReadAll.TheVariants.{Fault, NoMemory, TooLong};

use crate::list::List;
use crate::outside::Shelf;
use std::alloc::{AllocError, Global};

/// Why a file was not read.
#[derive(Clone, Copy, Debug, PartialEq, Eq)]
pub enum ReadAll {
    /// The system failed.
    Fault,
    /// There are more bytes than the limit.
    TooLong,
    /// There was no memory.
    NoMemory,
}

impl From<AllocError> for ReadAll {
    ghost from_gives = { λ _ fault. fault ≡ NoMemory };

    fn from(_: AllocError) -> ReadAll {
        ReadAll::NoMemory
    }
}

/// How many bytes are asked for at a time.
const PIECE: usize = 4096;

/// The bytes that are left of the file that was begun. At most one byte more than `limit` is pulled,
/// and it is `TooLong` exactly where that byte was.
pub fn read_all<S: Shelf>(alloc: Global, shelf: &mut S, limit: u32) -> Result<List<u8>, ReadAll>
    requires { S.begun shelf.old ≡ true }
    ensures bytes { IfOk result (λ all. IfSome (S.left shelf.old) (λ left. all ≡ left)) }
    ensures end { OnOk result (IsAtEnd (S.left shelf.new)) }
    ensures within { IfOk result (λ all. length all ≤ limit) }
    ensures given { IfOk result (λ all. S.given shelf.new ≡ raised (S.given shelf.old) (length all)) }
    ensures passed { IsErrOf result TooLong → S.given shelf.new ≡ raised (S.given shelf.old) (limit + 1) }
    ensures not_passed { ¬ IsErrOf result TooLong → S.given shelf.new ≤ raised (S.given shelf.old) limit }
    ensures long { IsErrOf result TooLong → IfSome (S.left shelf.old) (λ left. limit < length left) }
    ensures content { S.content shelf.new ≡ S.content shelf.old }
    ensures begun { S.begun shelf.new ≡ true }
    ensures later { S.faults shelf.old ≤ S.faults shelf.new }
    ensures cause { IsErrOf result Fault → Rose (S.faults shelf.old) (S.faults shelf.new) }
{
    let limit = limit as usize;
    let mut all = List::new(alloc);
    let mut piece = [0u8; PIECE];
    for _turn in 0..=limit {
        let asked = PIECE.min(limit - all.len() + 1);
        let count = match shelf.pull(&mut piece[..asked]) {
            Ok(0) => return Ok(all),
            Ok(count) => count,
            Err(_) => return Err(ReadAll::Fault),
        };
        if count > limit - all.len() {
            return Err(ReadAll::TooLong);
        }
        all.extend(&piece[..count])?;
    }
    unreachable!()
}
