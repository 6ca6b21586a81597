//! Why the bytes of a file are refused; `specs/Refusals.antt` says how each cause is written. When it applies, the
//! commands say, which read files.
use fsl_base::Span;
use fsl_types::TypeKind;

/// What is wrong with a token.
#[derive(Clone, Copy, Debug, PartialEq, Eq)]
pub enum BadToken {
    /// A character that begins no token.
    Char,
    /// A number above 9223372036854775808.
    Number,
    /// A name of more than 64 bytes.
    Name,
}

/// Why the bytes of a file are refused, in the order in which it is judged. Each `at` is the number of a byte of the
/// file, from 0 on.
#[derive(Clone, Copy, Debug, PartialEq, Eq)]
pub enum Refused {
    /// There are more than 1048576.
    Size,
    /// They are no UTF-8; their longest prefix that is has `at` bytes.
    Text { at: u32 },
    /// A token can't be cut off at `at`.
    Token { bad: BadToken, at: u32 },
    /// The token at `place`, or the end of the file, is none that may stand there.
    Syntax { place: Span },
    /// The token at `place` makes the nesting 65.
    Deep { place: Span },
    /// The first fault of names and types.
    Types { kind: TypeKind, span: Span },
    /// The command doesn't support the program so far.
    Form,
}
