//! A program with its types, names and sites resolved.

use crate::trees::Program;
use cc_base::{CellTy, TyId};
use sqlite_items::Items;

/// A type. A struct is told by its number in order of definition.
#[derive(Clone, Copy)]
pub enum Ty {
    Int,
    Void,
    Ptr(TyId),
    Struct(u32),
    /// The element's type and the length, 1 to 256.
    Array(TyId, u32),
}

/// A type's cells, with structs and arrays flattened in order.
pub type Layout = Items<CellTy>;

/// What a name means.
#[derive(Clone, Copy)]
pub enum Target {
    /// A global, in order of declarator.
    Global(u32),
    /// A local of its function: the parameters first, then the declarators in order.
    Local(u32),
    /// A function, in order of first declaration.
    Func(u32),
    /// A field, by its offset in cells.
    Field(u32),
}

/// What happens at a site.
#[derive(Clone, Copy)]
pub enum SiteKind {
    Decision,
    Fit,
    Divisor,
    Index,
    Access,
}

/// A place of the source at which an event can come.
#[derive(Clone, Copy)]
pub struct Site {
    pub token: u32,
    pub line: u32,
    pub col: u32,
    pub kind: SiteKind,
}

/// A site, by its number in order of token and then of kind.
#[derive(Clone, Copy, Debug, PartialEq, Eq)]
pub struct SiteId(pub u32);

/// A function: the types of its parameters, of its result, and of its locals; it has no locals where it has no body.
#[derive(Drop)]
pub struct Sig {
    pub params: Items<TyId>,
    pub result: TyId,
    pub slots: Items<TyId>,
}

/// A checked program.
#[derive(Drop)]
pub struct Checked {
    pub program: Program,
    /// Each type of a declaration or an expression, each type that one of these is made of, and `Void`, each once.
    pub tys: Items<Ty>,
    /// A type's cells, for each type; none for `Void`.
    pub layouts: Items<Layout>,
    /// The type of each expression, in order of first token and then from the outside in; `Void` for `NULL`, and for a
    /// number 0 that stands for it.
    pub expr_tys: Items<TyId>,
    /// What each token names, where it names a variable, a function or a field.
    pub names: Items<Option<Target>>,
    /// The line of each token.
    pub lines: Items<u32>,
    pub sites: Items<Site>,
    pub funcs: Items<Sig>,
    /// The type of each global.
    pub globals: Items<TyId>,
    /// The tested function.
    pub entry: u32,
}
