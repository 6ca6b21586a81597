//! Counts lines and columns, as `specs/Places` defines them.
ghost use Rattle.std.specs.Prelude.{◌≡◌, ◌+◌, ◌<◌, ◌^◌, length, take};
ghost use Rattle.std.specs.Str.{IsUtf8, IsCharBoundary};
ghost use Rattle.fsl_token.specs.Places.{place_at, place_of, is_continuation};

use crate::places::Place;

/// The place of the byte `at`: a line is ended by LF, and a column is a character, so only the first byte of
/// each counts. Past the end it is the place of the end.
pub fn place(bytes: &[u8], at: u32) -> Place
    requires { length bytes.now + 1 < 2 ^ 32 }
    ensures by_bytes { result ≡ place_at bytes.now at }
    ensures by_characters { IsUtf8 bytes.now → IsCharBoundary bytes.now at → result ≡ place_of bytes.now at }
{
    let mut line = 1;
    let mut col = 1;
    for byte in first(bytes, at as usize) {
        if *byte == b'\n' {
            line += 1;
            col = 1;
        } else if !is_continuation(*byte) {
            col += 1;
        }
    }
    Place { line, col }
}

// The first bytes, all where there are fewer.
fn first(bytes: &[u8], count: usize) -> &[u8]
    ensures { result.now ≡ take count bytes.now }
{
    match bytes.get(..count) {
        Some(some) => some,
        None => bytes,
    }
}

// Whether the byte is one of a character's that isn't its first.
fn is_continuation(byte: u8) -> bool
    ensures { result ≡ is_continuation byte }
{
    0x80 <= byte && byte < 0xc0
}
