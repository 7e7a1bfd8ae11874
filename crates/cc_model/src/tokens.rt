//! Tokens.

/// A sign.
#[derive(Clone, Copy)]
pub enum Punct {
    /// `{`
    OpenBrace,
    /// `}`
    CloseBrace,
    /// `(`
    Open,
    /// `)`
    Close,
    /// `[`
    OpenSquare,
    /// `]`
    CloseSquare,
    /// `;`
    Semicolon,
    /// `,`
    Comma,
    /// `.`
    Dot,
    /// `->`
    Arrow,
    /// `*`
    Star,
    /// `&`
    Ampersand,
    /// `!`
    Bang,
    /// `+`
    Plus,
    /// `-`
    Dash,
    /// `/`
    Slash,
    /// `%`
    Percent,
    /// `<`
    Less,
    /// `>`
    Greater,
    /// `<=`
    AtMost,
    /// `>=`
    AtLeast,
    /// `==`
    Equal,
    /// `!=`
    Unequal,
    /// `&&`
    Both,
    /// `||`
    Either,
    /// `=`
    Assign,
    /// `+=`
    AddTo,
    /// `-=`
    SubFrom,
    /// `*=`
    MulBy,
    /// `/=`
    DivBy,
    /// `%=`
    RemBy,
    /// `++`
    Increase,
    /// `--`
    Decrease,
}

/// A word with a meaning of its own: the words that the grammar uses, then the other keywords of C11, which no rule
/// uses.
#[derive(Clone, Copy)]
pub enum Keyword {
    Int,
    Struct,
    Typedef,
    Void,
    If,
    Else,
    While,
    Do,
    For,
    Return,
    Break,
    Continue,
    Sizeof,
    Null,
    Malloc,
    Assert,
    Assume,
    Abort,
    CrestInt,
    Auto,
    Case,
    Char,
    Const,
    Default,
    Double,
    Enum,
    Extern,
    Float,
    Goto,
    Inline,
    Long,
    Register,
    Restrict,
    Short,
    Signed,
    Static,
    Switch,
    Union,
    Unsigned,
    Volatile,
    Alignas,
    Alignof,
    Atomic,
    Bool,
    Complex,
    Generic,
    Imaginary,
    Noreturn,
    StaticAssert,
    ThreadLocal,
}

/// What a token is. A number is at most 2147483647.
#[derive(Clone, Copy)]
pub enum Kind {
    Name,
    Number(i32),
    Key(Keyword),
    Punct(Punct),
}

/// A token: the source from `start` to `end`, which begins in line `line` at column `col`, both from 1.
///
/// A line is 1 plus the newlines before it, a column 1 plus the bytes since the last newline.
#[derive(Clone, Copy)]
pub struct Token {
    pub kind: Kind,
    pub start: u32,
    pub end: u32,
    pub line: u32,
    pub col: u32,
}
