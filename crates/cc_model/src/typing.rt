//! What is declared in a program, and what is said of its tokens.

use crate::checked::Target;
use sqlite_items::Items;

/// The text of a name.
pub type Text = Items<u8>;

/// What a type is made of. A struct is told by its number in order of definition in the file.
#[derive(Clone, Copy)]
pub enum BaseType {
    Int,
    Void,
    Struct(u32),
}

/// A type: its base, the number of stars behind it, and the lengths of the arrays that are made of these, the outermost
/// first. No pointer leads to an array.
#[derive(Drop)]
pub struct CType {
    pub base: BaseType,
    pub stars: u32,
    pub lengths: Items<u32>,
}

/// What is wrong at a token.
#[derive(Clone, Copy)]
pub enum Wrong {
    Unknown,
    Twice,
    Mismatch,
    TooLarge,
}

/// What is said of a token.
#[derive(Drop)]
pub enum Note {
    /// A fault.
    Fault(Wrong, u32),
    /// What the name there means, of a declarator's and a parameter's name too.
    Means(u32, Target),
    /// The type of the expression whose operator, name, number or word it is.
    Typed(u32, CType),
    /// The number there stands for NULL.
    Null(u32),
    /// The type of the variable, parameter or field whose name is declared there.
    Declares(u32, CType),
}

/// What an expression is.
#[derive(Drop)]
pub enum Shape {
    /// It is not well typed.
    Unclear,
    /// NULL itself, which is no pointer.
    Null,
    /// The number 0, and its token.
    Zero(u32),
    Value(CType),
    Place(CType),
}

/// An argument: its first token, and what it is.
#[derive(Drop)]
pub struct Operand {
    pub first: u32,
    pub shape: Shape,
}

/// A variable. It has no type where its declaration names none.
#[derive(Drop)]
pub struct Variable {
    pub name: Text,
    pub ty: Option<CType>,
    pub target: Target,
}

/// A typedef's name, and the number of its struct, where its tag is known.
#[derive(Drop)]
pub struct Alias {
    pub name: Text,
    pub number: Option<u32>,
}

/// A field of a struct.
#[derive(Drop)]
pub struct Member {
    pub name: Text,
    pub ty: Option<CType>,
}

/// A function as its first declaration says.
#[derive(Drop)]
pub struct Function {
    pub name: Text,
    pub result: Option<CType>,
    pub params: Items<Option<CType>>,
}

/// What the file's scope has before a place, in order: typedef names, how many structs are defined, globals, functions,
/// and functions with a body.
#[derive(Drop)]
pub struct Before {
    pub aliases: Items<Alias>,
    pub structs: u32,
    pub globals: Items<Variable>,
    pub functions: Items<Text>,
    pub bodies: Items<Text>,
}

/// What is visible in the whole file: the structs in order of definition, with their tags, fields and sizes; the
/// functions in order of first declaration, and those that have a body.
#[derive(Drop)]
pub struct File {
    pub tags: Items<Option<Text>>,
    pub structs: Items<Items<Member>>,
    /// A struct's number of cells; above 256 it is 257.
    pub sizes: Items<u32>,
    pub functions: Items<Function>,
    pub bodies: Items<Text>,
}
