//! The trees of the grammar, one variant for each alternative. Parentheses leave no node.
//!
//! A `u32` is a token's index: that of a name, an operator, the `=` of an initialiser, the `[` of an index, or the word
//! of a statement. A number has its value beside it.

use sqlite_items::{Boxed, Items};

/// An expression. The first index is that of its first token, the outermost `(` where it stands in parentheses; the
/// second that of its operator, name, number or word.
#[derive(Drop)]
pub enum Expr {
    Or(u32, u32, Boxed<Expr>, Boxed<Expr>),
    And(u32, u32, Boxed<Expr>, Boxed<Expr>),
    Equal(u32, u32, Boxed<Expr>, Boxed<Expr>),
    Unequal(u32, u32, Boxed<Expr>, Boxed<Expr>),
    Less(u32, u32, Boxed<Expr>, Boxed<Expr>),
    Greater(u32, u32, Boxed<Expr>, Boxed<Expr>),
    AtMost(u32, u32, Boxed<Expr>, Boxed<Expr>),
    AtLeast(u32, u32, Boxed<Expr>, Boxed<Expr>),
    Sum(u32, u32, Boxed<Expr>, Boxed<Expr>),
    Difference(u32, u32, Boxed<Expr>, Boxed<Expr>),
    Product(u32, u32, Boxed<Expr>, Boxed<Expr>),
    Quotient(u32, u32, Boxed<Expr>, Boxed<Expr>),
    Remainder(u32, u32, Boxed<Expr>, Boxed<Expr>),
    Minus(u32, u32, Boxed<Expr>),
    Not(u32, u32, Boxed<Expr>),
    Deref(u32, u32, Boxed<Expr>),
    Address(u32, u32, Boxed<Expr>),
    /// `e.name`, with the name.
    Dot(u32, u32, Boxed<Expr>, u32),
    /// `e->name`, with the name.
    Arrow(u32, u32, Boxed<Expr>, u32),
    /// `e[i]`
    Index(u32, u32, Boxed<Expr>, Boxed<Expr>),
    Name(u32, u32),
    Number(u32, u32, i32),
    /// `NULL`
    Null(u32, u32),
    /// `name(e, ..)`
    Call(u32, u32, Items<Expr>),
    /// `malloc(sizeof(type))`, with the type of the cast before it, where there is one.
    Malloc(u32, u32, Option<TypeName>, TypeName),
}

/// The name of a type: `int`, a struct by its tag, or the name of a typedef.
#[derive(Clone, Copy)]
pub enum Base {
    Int,
    Struct(u32),
    Alias(u32),
}

/// A type and the number of stars behind it.
#[derive(Clone, Copy)]
pub struct TypeName {
    pub base: Base,
    pub stars: u32,
}

/// What a function gives: nothing, or a value of a type.
#[derive(Clone, Copy)]
pub enum ResultType {
    Void,
    Value(TypeName),
}

/// An array's length.
#[derive(Clone, Copy)]
pub struct Length {
    pub token: u32,
    pub value: i32,
}

/// The stars, the name and the lengths of what is declared.
#[derive(Drop)]
pub struct Declarator {
    pub stars: u32,
    pub name: u32,
    pub lengths: Items<Length>,
}

/// `= e`
#[derive(Drop)]
pub struct Initializer {
    pub equals: u32,
    pub value: Expr,
}

/// A declarator of a declaration, with its initialiser where it has one.
#[derive(Drop)]
pub struct Declared {
    pub declarator: Declarator,
    pub initializer: Option<Initializer>,
}

/// A declaration in a block or in the head of a `for`.
#[derive(Drop)]
pub struct Decl {
    pub base: Base,
    pub parts: Items<Declared>,
}

/// A statement without its `;`: an assignment, a call, or one of the words with parentheses.
#[derive(Drop)]
pub enum Simple {
    Assign(u32, Expr, Expr),
    AddTo(u32, Expr, Expr),
    SubFrom(u32, Expr, Expr),
    MulBy(u32, Expr, Expr),
    DivBy(u32, Expr, Expr),
    RemBy(u32, Expr, Expr),
    /// `e++`
    Increase(u32, Expr),
    /// `e--`
    Decrease(u32, Expr),
    /// `++e`
    IncreaseFirst(u32, Expr),
    /// `--e`
    DecreaseFirst(u32, Expr),
    /// `name(e, ..)`
    Call(u32, Items<Expr>),
    Assert(u32, Expr),
    Assume(u32, Expr),
    Abort(u32),
    CrestInt(u32, Expr),
}

/// What stands before the first `;` of a `for`.
#[derive(Drop)]
pub enum Head {
    Decl(Decl),
    Simple(Option<Simple>),
}

/// A statement, with its word where it has one.
#[cycle(statements)]
#[derive(Drop)]
pub enum Stmt {
    Empty,
    Block(Items<Part>),
    If(u32, Expr, Boxed<Stmt>),
    IfElse(u32, Expr, Boxed<Stmt>, Boxed<Stmt>),
    While(u32, Expr, Boxed<Stmt>),
    /// `do s while (e);`
    Do(u32, Boxed<Stmt>, Expr),
    /// The head, the condition, what comes after each turn, and the body.
    For(u32, Head, Option<Expr>, Option<Simple>, Boxed<Stmt>),
    Return(u32, Option<Expr>),
    Break(u32),
    Continue(u32),
    Simple(Simple),
}

/// What stands in a block.
#[cycle(statements)]
#[derive(Drop)]
pub enum Part {
    Decl(Decl),
    Stmt(Stmt),
}

/// A parameter of a function with a body.
#[derive(Clone, Copy)]
pub struct Param {
    pub ty: TypeName,
    pub name: u32,
}

/// A parameter of a prototype, whose name may be left out.
#[derive(Clone, Copy)]
pub struct ProtoParam {
    pub ty: TypeName,
    pub name: Option<u32>,
}

/// A function with a body.
#[derive(Drop)]
pub struct Func {
    pub result: ResultType,
    pub name: u32,
    pub params: Items<Param>,
    pub body: Items<Part>,
}

/// A line of fields of one type.
#[derive(Drop)]
pub struct Field {
    pub base: Base,
    pub parts: Items<Declarator>,
}

/// The definition of a struct.
#[derive(Drop)]
pub enum StructDef {
    /// `struct tag { .. };`
    Tagged(u32, Items<Field>),
    /// `typedef struct [tag] { .. } name;`
    Named(Option<u32>, Items<Field>, u32),
}

/// The start value of a global.
#[derive(Clone, Copy)]
pub enum StartValue {
    Number(u32, i32),
    /// The `-`, the number and the value behind the `-`.
    Negative(u32, u32, i32),
    Null(u32),
}

/// `= ..` behind a global's declarator.
#[derive(Clone, Copy)]
pub struct GlobalStart {
    pub equals: u32,
    pub value: StartValue,
}

/// A declarator of a global, with its start value where it has one.
#[derive(Drop)]
pub struct GlobalPart {
    pub declarator: Declarator,
    pub start: Option<GlobalStart>,
}

/// What a file is made of.
#[derive(Drop)]
pub enum Item {
    /// `typedef struct tag name;`
    Alias(u32, u32),
    Struct(StructDef),
    Globals(Base, Items<GlobalPart>),
    Func(Func),
    /// The result, the name and the parameters.
    Prototype(ResultType, u32, Items<ProtoParam>),
}

/// A source file.
pub struct Program {
    pub items: Items<Item>,
}

/// Written by hand, so that the crates above call this function, and don't each prove the drops of all trees.
impl Drop for Program {
    fn drop(self) {
        let Program { items: _items } = self;
    }
}
