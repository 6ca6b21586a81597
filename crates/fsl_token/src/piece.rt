//! What begins a text: a gap between tokens, a token, or a fault. It is defined in `specs/Tokens`, as tokens are pieces.
ghost use Rattle.std.specs.Prelude.{◌≡◌, ◌<◌, ◌||◌, ◌==◌, length, slice_index, IsTrue};
ghost use Rattle.std.specs.Char.{is_ascii_digit};
ghost use Rattle.std.specs.List.{prefix_len};
ghost use Rattle.fsl_token.specs.Tokens.{is_blank, comment_len, leading_digits, number_piece, starts_name, leading_name, name_piece, symbol_piece, first_piece};
ghost use Rattle.fsl_token.specs.Words.{symbol_kind};

use crate::kind::TokenKind;

/// The largest number, 2^63.
const LARGEST_NUMBER: u64 = 9223372036854775808;

/// How many bytes a name has at most.
const LONGEST_NAME: usize = 64;

/// What begins a text that isn't empty.
#[derive(Clone, Copy)]
pub(crate) enum Piece {
    /// A blank or a comment of `len` bytes.
    Gap {
        len: usize,
    },
    /// A token of `len` bytes, with its value if it is a number and else 0.
    Token {
        kind: TokenKind,
        len: usize,
        number: u64,
    },
    /// A character that begins no token.
    BadChar,
    /// A number that is too large.
    LongNumber,
    /// A name that is too long.
    LongName,
}

impl Piece {
    /// What begins a text. It looks at no byte but those of the piece and the character behind it.
    pub(crate) fn first(text: &str) -> Piece
        requires { 0 < length text.now }
        ensures { result ≡ first_piece text.now }
    {
        let bytes = text.as_bytes();
        if is_blank(bytes[0]) {
            return Piece::Gap { len: 1 };
        }
        if text.starts_with("//") {
            return Piece::Gap {
                len: comment_len(bytes),
            };
        }
        if bytes[0].is_ascii_digit() {
            return Piece::number(text);
        }
        let name = leading_name(text);
        if !name.is_empty() {
            return Piece::name(name);
        }
        Piece::symbol(text)
    }

    // The number that begins the text.
    fn number(text: &str) -> Piece
        requires some { 0 < length text.now }
        requires digit { IsTrue (is_ascii_digit (slice_index text.now 0)) }
        ensures { result ≡ number_piece (leading_digits text.now) }
    {
        let (digits, _) = text.split_at(digits_len(text.as_bytes()));
        match digits.parse::<u64>() {
            Ok(number) if number <= LARGEST_NUMBER => Piece::Token {
                kind: TokenKind::Number,
                len: digits.len(),
                number,
            },
            _ => Piece::LongNumber,
        }
    }

    // A name or a reserved word.
    fn name(name: &[u8]) -> Piece
        ensures { result ≡ name_piece name.now }
    {
        if name.len() > LONGEST_NAME {
            return Piece::LongName;
        }
        Piece::Token {
            kind: TokenKind::of_name(name),
            len: name.len(),
            number: 0,
        }
    }

    // The symbol that begins the text.
    fn symbol(text: &str) -> Piece
        ensures { result ≡ symbol_piece (symbol_kind text.now) }
    {
        match TokenKind::first_symbol(text) {
            Some(kind) => Piece::Token {
                kind,
                len: kind.fixed_len(),
                number: 0,
            },
            None => Piece::BadChar,
        }
    }
}

// A space, a tab, CR or LF.
fn is_blank(byte: u8) -> bool
    ensures { result ≡ is_blank byte }
{
    byte == b' ' || byte == b'\t' || byte == b'\r' || byte == b'\n'
}

// How many bytes stand before the first LF.
fn comment_len(bytes: &[u8]) -> usize
    ensures { result ≡ comment_len bytes.now }
{
    let mut len = 0;
    while len < bytes.len() && bytes[len] != b'\n' {
        len += 1;
    }
    len
}

// How many digits begin the bytes.
fn digits_len(bytes: &[u8]) -> usize
    ensures { result ≡ prefix_len is_ascii_digit bytes.now }
{
    let mut len = 0;
    while len < bytes.len() && bytes[len].is_ascii_digit() {
        len += 1;
    }
    len
}

// Whether a name may begin with the character.
fn starts_name(c: char) -> bool
    ensures { result ≡ starts_name c }
{
    unicode_ident::is_xid_start(c) | (c == '_')
}

// The name that begins the text; empty where none does.
fn leading_name(text: &str) -> &[u8]
    ensures { result.now ≡ leading_name text.now }
{
    let (name, _) = text.as_bytes().split_at(name_len(text));
    name
}

// How many bytes the name has that begins the text; 0 where none does.
fn name_len(text: &str) -> usize
    ensures { result ≡ length (leading_name text.now) }
{
    let mut rest = text.chars();
    let Some(first) = rest.next() else {
        return 0;
    };
    if !starts_name(first) {
        return 0;
    }
    let mut len = first.len_utf8();
    while let Some(c) = rest.next() {
        if !unicode_ident::is_xid_continue(c) {
            return len;
        }
        len += c.len_utf8();
    }
    len
}
