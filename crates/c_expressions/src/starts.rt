//! What a token begins or goes on.

use cc_model::Punct;

/// What goes on behind a postfix expression.
#[derive(Clone, Copy)]
pub enum Step {
    /// A field, by its `.` or `->`.
    Field(Punct),
    Index,
}

/// What begins a primary expression.
#[derive(Clone, Copy)]
pub enum Start {
    Name,
    Number(i32),
    Null,
    Malloc,
    Paren,
    Other,
}

/// What begins a type.
#[derive(Clone, Copy)]
pub enum TypeStart {
    Int,
    Struct,
    Alias,
    Other,
}
