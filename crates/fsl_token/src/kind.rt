//! What a token is: the reserved words and symbols of the language, names and numbers. `specs/Words` has their texts.
ghost use Rattle.std.specs.Prelude.{◌≡◌, option_map};
ghost use Rattle.std.specs.List.{find};
ghost use Rattle.fsl_token.specs.Words.{fixed_text, fixed_len, word_kind, symbol_kind, is_text, begins};

use fsl_base::Span;

/// What stands in the file: a reserved word, a symbol, a name that isn't reserved, or a number. Those
/// named `..Assertion` are the words with a capital, which begin assertions.
#[derive(Clone, Copy, Debug, PartialEq, Eq)]
pub enum TokenKind {
    /// `acq`
    Acq,
    /// `acqrel`
    AcqRel,
    /// `alloc`
    Alloc,
    /// `assert`
    Assert,
    /// `bank`
    Bank,
    /// `burn`
    Burn,
    /// `call`
    Call,
    /// `cas`
    Cas,
    /// `down`
    Down,
    /// `else`
    Else,
    /// `emp`
    Emp,
    /// `ensures`
    Ensures,
    /// `exchange`
    Exchange,
    /// `false`
    False,
    /// `fence`
    Fence,
    /// `fetch_add`
    FetchAdd,
    /// `free`
    Free,
    /// `if`
    If,
    /// `inv`
    Inv,
    /// `let`
    Let,
    /// `load`
    Load,
    /// `mint`
    Mint,
    /// `na`
    Na,
    /// `of`
    Of,
    /// `par`
    Par,
    /// `pred`
    Pred,
    /// `print`
    Print,
    /// `proc`
    Proc,
    /// `rel`
    Rel,
    /// `requires`
    Requires,
    /// `result`
    ResultWord,
    /// `return`
    Return,
    /// `rlx`
    Rlx,
    /// `rmw`
    Rmw,
    /// `store`
    Store,
    /// `true`
    True,
    /// `up`
    Up,
    /// `while`
    While,
    /// `with`
    With,
    /// `Acq`
    AcqAssertion,
    /// `Auth`
    AuthAssertion,
    /// `Init`
    InitAssertion,
    /// `Rel`
    RelAssertion,
    /// `RmwAcq`
    RmwAcqAssertion,
    /// `Tok`
    TokAssertion,
    /// `&*&`
    Separate,
    /// `|->`
    PointsTo,
    /// `==`
    Equal,
    /// `!=`
    NotEqual,
    /// `<=`
    AtMost,
    /// `>=`
    AtLeast,
    /// `<`
    Less,
    /// `>`
    Greater,
    /// `=`
    Assign,
    /// `+`
    Plus,
    /// `-`
    Minus,
    /// `*`
    Star,
    /// `?`
    Question,
    /// `_`
    Underscore,
    /// `(`
    OpenParen,
    /// `)`
    CloseParen,
    /// `{`
    OpenBrace,
    /// `}`
    CloseBrace,
    /// `[`
    OpenBracket,
    /// `]`
    CloseBracket,
    /// `,`
    Comma,
    /// `;`
    Semicolon,
    /// A name that isn't reserved, of at most 64 bytes.
    Name,
    /// A number from 0 to 9223372036854775808.
    Number,
}

// The reserved words, and `_`, which alone is a symbol.
const WORDS: [TokenKind; 46] = [
    TokenKind::Acq,
    TokenKind::AcqRel,
    TokenKind::Alloc,
    TokenKind::Assert,
    TokenKind::Bank,
    TokenKind::Burn,
    TokenKind::Call,
    TokenKind::Cas,
    TokenKind::Down,
    TokenKind::Else,
    TokenKind::Emp,
    TokenKind::Ensures,
    TokenKind::Exchange,
    TokenKind::False,
    TokenKind::Fence,
    TokenKind::FetchAdd,
    TokenKind::Free,
    TokenKind::If,
    TokenKind::Inv,
    TokenKind::Let,
    TokenKind::Load,
    TokenKind::Mint,
    TokenKind::Na,
    TokenKind::Of,
    TokenKind::Par,
    TokenKind::Pred,
    TokenKind::Print,
    TokenKind::Proc,
    TokenKind::Rel,
    TokenKind::Requires,
    TokenKind::ResultWord,
    TokenKind::Return,
    TokenKind::Rlx,
    TokenKind::Rmw,
    TokenKind::Store,
    TokenKind::True,
    TokenKind::Up,
    TokenKind::While,
    TokenKind::With,
    TokenKind::AcqAssertion,
    TokenKind::AuthAssertion,
    TokenKind::InitAssertion,
    TokenKind::RelAssertion,
    TokenKind::RmwAcqAssertion,
    TokenKind::TokAssertion,
    TokenKind::Underscore,
];

// The other symbols, the longest first.
const SYMBOLS: [TokenKind; 21] = [
    TokenKind::Separate,
    TokenKind::PointsTo,
    TokenKind::Equal,
    TokenKind::NotEqual,
    TokenKind::AtMost,
    TokenKind::AtLeast,
    TokenKind::Less,
    TokenKind::Greater,
    TokenKind::Assign,
    TokenKind::Plus,
    TokenKind::Minus,
    TokenKind::Star,
    TokenKind::Question,
    TokenKind::OpenParen,
    TokenKind::CloseParen,
    TokenKind::OpenBrace,
    TokenKind::CloseBrace,
    TokenKind::OpenBracket,
    TokenKind::CloseBracket,
    TokenKind::Comma,
    TokenKind::Semicolon,
];

impl TokenKind {
    /// The text that every token of this kind has; `None` for names and numbers.
    pub fn fixed_text(self) -> Option<&'static str>
        ensures { option_map (λ text. text.now) result ≡ fixed_text self }
    {
        let text = match self {
            TokenKind::Acq => "acq",
            TokenKind::AcqRel => "acqrel",
            TokenKind::Alloc => "alloc",
            TokenKind::Assert => "assert",
            TokenKind::Bank => "bank",
            TokenKind::Burn => "burn",
            TokenKind::Call => "call",
            TokenKind::Cas => "cas",
            TokenKind::Down => "down",
            TokenKind::Else => "else",
            TokenKind::Emp => "emp",
            TokenKind::Ensures => "ensures",
            TokenKind::Exchange => "exchange",
            TokenKind::False => "false",
            TokenKind::Fence => "fence",
            TokenKind::FetchAdd => "fetch_add",
            TokenKind::Free => "free",
            TokenKind::If => "if",
            TokenKind::Inv => "inv",
            TokenKind::Let => "let",
            TokenKind::Load => "load",
            TokenKind::Mint => "mint",
            TokenKind::Na => "na",
            TokenKind::Of => "of",
            TokenKind::Par => "par",
            TokenKind::Pred => "pred",
            TokenKind::Print => "print",
            TokenKind::Proc => "proc",
            TokenKind::Rel => "rel",
            TokenKind::Requires => "requires",
            TokenKind::ResultWord => "result",
            TokenKind::Return => "return",
            TokenKind::Rlx => "rlx",
            TokenKind::Rmw => "rmw",
            TokenKind::Store => "store",
            TokenKind::True => "true",
            TokenKind::Up => "up",
            TokenKind::While => "while",
            TokenKind::With => "with",
            TokenKind::AcqAssertion => "Acq",
            TokenKind::AuthAssertion => "Auth",
            TokenKind::InitAssertion => "Init",
            TokenKind::RelAssertion => "Rel",
            TokenKind::RmwAcqAssertion => "RmwAcq",
            TokenKind::TokAssertion => "Tok",
            TokenKind::Separate => "&*&",
            TokenKind::PointsTo => "|->",
            TokenKind::Equal => "==",
            TokenKind::NotEqual => "!=",
            TokenKind::AtMost => "<=",
            TokenKind::AtLeast => ">=",
            TokenKind::Less => "<",
            TokenKind::Greater => ">",
            TokenKind::Assign => "=",
            TokenKind::Plus => "+",
            TokenKind::Minus => "-",
            TokenKind::Star => "*",
            TokenKind::Question => "?",
            TokenKind::Underscore => "_",
            TokenKind::OpenParen => "(",
            TokenKind::CloseParen => ")",
            TokenKind::OpenBrace => "{",
            TokenKind::CloseBrace => "}",
            TokenKind::OpenBracket => "[",
            TokenKind::CloseBracket => "]",
            TokenKind::Comma => ",",
            TokenKind::Semicolon => ";",
            TokenKind::Name | TokenKind::Number => return None,
        };
        Some(text)
    }

    /// How many bytes the fixed text has; 0 for names and numbers.
    pub(crate) fn fixed_len(self) -> usize
        ensures { result ≡ fixed_len self }
    {
        match self.fixed_text() {
            Some(fixed) => fixed.len(),
            None => 0,
        }
    }

    /// The kind of a name: a reserved word, `_` alone, or a `Name`.
    pub(crate) fn of_name(name: &[u8]) -> TokenKind
        ensures { result ≡ word_kind name.now }
    {
        with_text(&WORDS, name).unwrap_or(TokenKind::Name)
    }

    /// The longest symbol but `_` that begins a text; `None` where none does.
    pub(crate) fn first_symbol(text: &str) -> Option<TokenKind>
        ensures { result ≡ symbol_kind text.now }
    {
        that_begins(&SYMBOLS, text)
    }

    // Whether the kind's fixed text is just this text.
    fn is_text(self, text: &[u8]) -> bool
        ensures { result ≡ is_text text.now self }
    {
        match self.fixed_text() {
            Some(fixed) => text == fixed.as_bytes(),
            None => false,
        }
    }

    // Whether the kind's fixed text begins this text.
    fn begins(self, text: &str) -> bool
        ensures { result ≡ begins text.now self }
    {
        match self.fixed_text() {
            Some(fixed) => text.starts_with(fixed),
            None => false,
        }
    }
}

// The first of the kinds whose fixed text is just this text.
fn with_text(kinds: &[TokenKind], text: &[u8]) -> Option<TokenKind>
    ensures { result ≡ find (is_text text.now) kinds.now }
{
    for kind in kinds {
        if kind.is_text(text) {
            return Some(*kind);
        }
    }
    None
}

// The first of the kinds whose fixed text begins this text.
fn that_begins(kinds: &[TokenKind], text: &str) -> Option<TokenKind>
    ensures { result ≡ find (begins text.now) kinds.now }
{
    for kind in kinds {
        if kind.begins(text) {
            return Some(*kind);
        }
    }
    None
}

/// A token at its place in the file.
#[derive(Clone, Copy, Debug, PartialEq, Eq)]
pub struct Token {
    /// What it is.
    pub kind: TokenKind,
    /// Its bytes; at least one.
    pub span: Span,
    /// The value of a number, from 0 to 9223372036854775808; 0 for every other kind.
    pub number: u64,
}
