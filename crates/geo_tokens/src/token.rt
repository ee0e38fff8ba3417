//! A token: its kind and its place. A kind is a name, a number, a reserved word or a symbol.

ghost use Rattle.std.specs.Prelude.{◌≡◌};
ghost use Rattle.geo_tokens.specs.Class.{word_class, symbol_class, class_of, number_in, word_bytes, symbol_bytes};

/// A reserved word.
#[derive(Clone, Copy)]
pub enum Keyword {
    Geost,
    Dims,
    Shape,
    Box,
    Size,
    Object,
    As,
    At,
    With,
    Order,
    Sides,
    Low,
    High,
    Macro,
    Means,
    Is,
    Rule,
    Apart,
    Within,
    End,
    True,
    False,
    Not,
    And,
    Or,
    Implies,
    Iff,
    ForAll,
    Exists,
    AtLeast,
    AtMost,
    In,
    Objects,
    Boxes,
    Of,
    Div,
    Mod,
    Min,
    Max,
    Int,
    Layout,
    Token,
    Absent,
    Qed,
}

/// A symbol.
#[derive(Clone, Copy)]
pub enum Sym {
    /// `..`
    DotDot,
    /// `.`
    Dot,
    /// `,`
    Comma,
    /// `:`
    Colon,
    /// `;`
    Semicolon,
    /// `(`
    ParenOpen,
    /// `)`
    ParenClose,
    /// `[`
    BracketOpen,
    /// `]`
    BracketClose,
    /// `+`
    Plus,
    /// `-`
    Minus,
    /// `*`
    Star,
    /// `/`
    Slash,
    /// `<=`
    LessEqual,
    /// `<`
    Less,
    /// `>=`
    GreaterEqual,
    /// `>`
    Greater,
    /// `=`
    Equal,
    /// `!=`
    NotEqual,
    /// `@`
    At,
    /// `$`
    Dollar,
}

/// What kind of token it is.
#[derive(Clone, Copy)]
pub enum Kind {
    /// A word that is not reserved.
    Name,
    /// A number, with its value.
    Number(u32),
    /// A reserved word.
    Word(Keyword),
    /// A symbol.
    Symbol(Sym),
}

/// A token: its kind, and the bytes of the text from `start` to below `end`.
#[derive(Clone, Copy)]
pub struct Token {
    pub kind: Kind,
    pub start: u64,
    pub end: u64,
}

/// The number of a reserved word.
pub fn word_class(word: Keyword) -> u8
    ensures { result ≡ word_class word }
{
    word as u8 + 2
}

/// The number of a symbol.
pub fn symbol_class(symbol: Sym) -> u8
    ensures { result ≡ symbol_class symbol }
{
    symbol as u8 + 46
}

/// The number of a kind. All numbers have one.
pub fn class_of(kind: Kind) -> u8
    ensures { result ≡ class_of kind }
{
    match kind {
        Kind::Name => 0,
        Kind::Number(_) => 1,
        Kind::Word(word) => word_class(word),
        Kind::Symbol(symbol) => symbol_class(symbol),
    }
}

/// The value of a number, and 0 for any other kind.
pub fn number_in(kind: Kind) -> u32
    ensures { result ≡ number_in kind }
{
    match kind {
        Kind::Number(value) => value,
        _ => 0,
    }
}

/// How each reserved word is spelled, in the order of the words.
const WORD_TEXTS: [&[u8]; 44] = [
    b"geost", b"dims", b"shape", b"box", b"size", b"object", b"as", b"at", b"with", b"order",
    b"sides", b"low", b"high", b"macro", b"means", b"is", b"rule", b"apart", b"within", b"end",
    b"true", b"false", b"not", b"and", b"or", b"implies", b"iff", b"forall", b"exists", b"atleast",
    b"atmost", b"in", b"objects", b"boxes", b"of", b"div", b"mod", b"min", b"max", b"int",
    b"layout", b"token", b"absent", b"qed",
];

/// How a reserved word is spelled.
pub fn word_text(word: Keyword) -> &'static [u8]
    ensures { result.now ≡ word_bytes word }
{
    WORD_TEXTS[word as usize]
}

/// How each symbol is spelled, in the order of the symbols.
const SYMBOL_TEXTS: [&[u8]; 21] = [
    b"..", b".", b",", b":", b";", b"(", b")", b"[", b"]", b"+", b"-", b"*", b"/", b"<=", b"<",
    b">=", b">", b"=", b"!=", b"@", b"$",
];

/// How a symbol is spelled.
pub fn symbol_text(symbol: Sym) -> &'static [u8]
    ensures { result.now ≡ symbol_bytes symbol }
{
    SYMBOL_TEXTS[symbol as usize]
}
