//! The language, its meaning and what the tool says of a program: the one place that a reader has to believe.
#![tactic(auto)]

pub mod checked;
pub mod commands;
pub mod terms;
pub mod tokens;
pub mod trees;
pub mod typing;

pub use cc_base as base;
pub use checked::{Checked, Layout, Sig, Site, SiteId, SiteKind, Target, Ty};
pub use commands::{Command, ReplayWords, RunWords, Strategy, TraceWords};
pub use terms::TermKind;
pub use tokens::{Keyword, Kind, Punct, Token};
pub use trees::{Expr, Func, Program, Stmt, StructDef};
