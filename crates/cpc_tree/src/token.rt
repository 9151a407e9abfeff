//! Tokens: what a text is cut into.
ghost use Rattle.std.specs.Prelude.{◌≡◌};
ghost use Rattle.cpc_tree.specs.Pieces.{in_word};
ghost use Rattle.cpc_tree.specs.Tokens.{keyword_spelling, punctuator_spelling};

use cpc_base::{Name, Place};
use cpc_num::Kind;

/// A keyword (C11 6.4.1): the 32 of C89, `inline`, `restrict`, and those of threads.
#[derive(Clone, Copy, PartialEq, Eq)]
pub enum Keyword {
    /// `auto`
    Auto,
    /// `break`
    Break,
    /// `case`
    Case,
    /// `char`
    Char,
    /// `const`
    Const,
    /// `continue`
    Continue,
    /// `default`
    Default,
    /// `do`
    Do,
    /// `double`
    Double,
    /// `else`
    Else,
    /// `enum`
    Enum,
    /// `extern`
    Extern,
    /// `float`
    Float,
    /// `for`
    For,
    /// `goto`
    Goto,
    /// `if`
    If,
    /// `int`
    Int,
    /// `long`
    Long,
    /// `register`
    Register,
    /// `return`
    Return,
    /// `short`
    Short,
    /// `signed`
    Signed,
    /// `sizeof`
    Sizeof,
    /// `static`
    Static,
    /// `struct`
    Struct,
    /// `switch`
    Switch,
    /// `typedef`
    Typedef,
    /// `union`
    Union,
    /// `unsigned`
    Unsigned,
    /// `void`
    Void,
    /// `volatile`
    Volatile,
    /// `while`
    While,
    /// `inline`
    Inline,
    /// `restrict`
    Restrict,
    /// `cps`
    Cps,
    /// `detached`
    Detached,
    /// `cpc_spawn`
    CpcSpawn,
    /// `cpc_detached`
    CpcDetached,
    /// `cpc_condvar`
    CpcCondvar,
}

impl Keyword {
    /// Each keyword once.
    pub const ALL: [Keyword; 39] = [
        Keyword::Auto,
        Keyword::Break,
        Keyword::Case,
        Keyword::Char,
        Keyword::Const,
        Keyword::Continue,
        Keyword::Default,
        Keyword::Do,
        Keyword::Double,
        Keyword::Else,
        Keyword::Enum,
        Keyword::Extern,
        Keyword::Float,
        Keyword::For,
        Keyword::Goto,
        Keyword::If,
        Keyword::Int,
        Keyword::Long,
        Keyword::Register,
        Keyword::Return,
        Keyword::Short,
        Keyword::Signed,
        Keyword::Sizeof,
        Keyword::Static,
        Keyword::Struct,
        Keyword::Switch,
        Keyword::Typedef,
        Keyword::Union,
        Keyword::Unsigned,
        Keyword::Void,
        Keyword::Volatile,
        Keyword::While,
        Keyword::Inline,
        Keyword::Restrict,
        Keyword::Cps,
        Keyword::Detached,
        Keyword::CpcSpawn,
        Keyword::CpcDetached,
        Keyword::CpcCondvar,
    ];

    /// How the keyword is spelled.
    pub fn spelling(self) -> &'static [u8]
        ensures { result.now ≡ keyword_spelling self }
    {
        match self {
            Keyword::Auto => b"auto",
            Keyword::Break => b"break",
            Keyword::Case => b"case",
            Keyword::Char => b"char",
            Keyword::Const => b"const",
            Keyword::Continue => b"continue",
            Keyword::Default => b"default",
            Keyword::Do => b"do",
            Keyword::Double => b"double",
            Keyword::Else => b"else",
            Keyword::Enum => b"enum",
            Keyword::Extern => b"extern",
            Keyword::Float => b"float",
            Keyword::For => b"for",
            Keyword::Goto => b"goto",
            Keyword::If => b"if",
            Keyword::Int => b"int",
            Keyword::Long => b"long",
            Keyword::Register => b"register",
            Keyword::Return => b"return",
            Keyword::Short => b"short",
            Keyword::Signed => b"signed",
            Keyword::Sizeof => b"sizeof",
            Keyword::Static => b"static",
            Keyword::Struct => b"struct",
            Keyword::Switch => b"switch",
            Keyword::Typedef => b"typedef",
            Keyword::Union => b"union",
            Keyword::Unsigned => b"unsigned",
            Keyword::Void => b"void",
            Keyword::Volatile => b"volatile",
            Keyword::While => b"while",
            Keyword::Inline => b"inline",
            Keyword::Restrict => b"restrict",
            Keyword::Cps => b"cps",
            Keyword::Detached => b"detached",
            Keyword::CpcSpawn => b"cpc_spawn",
            Keyword::CpcDetached => b"cpc_detached",
            Keyword::CpcCondvar => b"cpc_condvar",
        }
    }
}

/// A punctuator (C11 6.4.6).
#[derive(Clone, Copy, PartialEq, Eq)]
pub enum Punctuator {
    /// `(`
    LeftParen,
    /// `)`
    RightParen,
    /// `{`
    LeftBrace,
    /// `}`
    RightBrace,
    /// `[`
    LeftBracket,
    /// `]`
    RightBracket,
    /// `;`
    Semicolon,
    /// `,`
    Comma,
    /// `:`
    Colon,
    /// `?`
    Question,
    /// `.`
    Dot,
    /// `->`
    Arrow,
    /// `++`
    Increment,
    /// `--`
    Decrement,
    /// `+`
    Plus,
    /// `-`
    Minus,
    /// `*`
    Star,
    /// `/`
    Slash,
    /// `%`
    Percent,
    /// `&`
    Ampersand,
    /// `|`
    Bar,
    /// `^`
    Caret,
    /// `~`
    Tilde,
    /// `!`
    Exclamation,
    /// `<`
    Less,
    /// `>`
    Greater,
    /// `<=`
    LessEqual,
    /// `>=`
    GreaterEqual,
    /// `==`
    EqualEqual,
    /// `!=`
    NotEqual,
    /// `&&`
    AndAnd,
    /// `||`
    OrOr,
    /// `<<`
    ShiftLeft,
    /// `>>`
    ShiftRight,
    /// `=`
    Equal,
    /// `+=`
    PlusEqual,
    /// `-=`
    MinusEqual,
    /// `*=`
    StarEqual,
    /// `/=`
    SlashEqual,
    /// `%=`
    PercentEqual,
    /// `&=`
    AmpersandEqual,
    /// `|=`
    BarEqual,
    /// `^=`
    CaretEqual,
    /// `<<=`
    ShiftLeftEqual,
    /// `>>=`
    ShiftRightEqual,
}

impl Punctuator {
    /// How the punctuator is spelled.
    pub fn spelling(self) -> &'static [u8]
        ensures { result.now ≡ punctuator_spelling self }
    {
        match self {
            Punctuator::LeftParen => b"(",
            Punctuator::RightParen => b")",
            Punctuator::LeftBrace => b"{",
            Punctuator::RightBrace => b"}",
            Punctuator::LeftBracket => b"[",
            Punctuator::RightBracket => b"]",
            Punctuator::Semicolon => b";",
            Punctuator::Comma => b",",
            Punctuator::Colon => b":",
            Punctuator::Question => b"?",
            Punctuator::Dot => b".",
            Punctuator::Arrow => b"->",
            Punctuator::Increment => b"++",
            Punctuator::Decrement => b"--",
            Punctuator::Plus => b"+",
            Punctuator::Minus => b"-",
            Punctuator::Star => b"*",
            Punctuator::Slash => b"/",
            Punctuator::Percent => b"%",
            Punctuator::Ampersand => b"&",
            Punctuator::Bar => b"|",
            Punctuator::Caret => b"^",
            Punctuator::Tilde => b"~",
            Punctuator::Exclamation => b"!",
            Punctuator::Less => b"<",
            Punctuator::Greater => b">",
            Punctuator::LessEqual => b"<=",
            Punctuator::GreaterEqual => b">=",
            Punctuator::EqualEqual => b"==",
            Punctuator::NotEqual => b"!=",
            Punctuator::AndAnd => b"&&",
            Punctuator::OrOr => b"||",
            Punctuator::ShiftLeft => b"<<",
            Punctuator::ShiftRight => b">>",
            Punctuator::Equal => b"=",
            Punctuator::PlusEqual => b"+=",
            Punctuator::MinusEqual => b"-=",
            Punctuator::StarEqual => b"*=",
            Punctuator::SlashEqual => b"/=",
            Punctuator::PercentEqual => b"%=",
            Punctuator::AmpersandEqual => b"&=",
            Punctuator::BarEqual => b"|=",
            Punctuator::CaretEqual => b"^=",
            Punctuator::ShiftLeftEqual => b"<<=",
            Punctuator::ShiftRightEqual => b">>=",
        }
    }
}

/// What a token is.
#[derive(Drop)]
pub enum TokenKind {
    Keyword(Keyword),
    Punctuator(Punctuator),
    /// An identifier that is no keyword (C11 6.4.2), by its number in the table of names.
    Name(Name),
    /// An integer constant (C11 6.4.4.1) with its type.
    Integer(Kind, i128),
    /// A character constant (C11 6.4.4.4); its type is `int`.
    Character(i128),
    /// A string literal (C11 6.4.5), by its bytes without a final zero.
    Text(Vec<u8>),
}

/// Whether a byte may stand in a name: a letter, a digit or `_` (C11 6.4.2).
#[tactic(auto, unfolding(crate::specs::Pieces::in_word))]
pub fn is_in_word(b: u8) -> bool
    ensures { result ≡ in_word b }
{
    b.is_ascii_alphanumeric() || b == b'_'
}

/// A token, and where its first byte stands.
#[derive(Drop)]
pub struct Token {
    pub place: Place,
    pub kind: TokenKind,
}
