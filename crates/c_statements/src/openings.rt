//! What a token begins as a statement, and what stands behind an expression.

ghost use Rattle.std.specs.Prelude.{◌≡◌, IfNone, IfSome, IsNone, Some, None};
ghost use Rattle.cc_model.specs.declared.tokens.Kind.{Kind};
ghost use Rattle.cc_model.specs.declared.trees.Expr.{Expr};
ghost use Rattle.c_expressions.specs.Descent.{prefix_at};
ghost use Rattle.c_statements.specs.DescentStatements.{assign_at, behind_at, number_at, simple_at, stmt_at};
ghost use Rattle.c_statements.specs.DescentStatements.{is_declared as declared_at, is_left_out as left_out_at};
ghost use Rattle.c_statements.specs.DescentStatements.{call_of as call_is};
ghost use Rattle.c_statements.specs.ShownStatements.{BehindAt, simple_is, stmt_is, assign_maker};
ghost use Rattle.c_statements.specs.ShownStatements.{behind_maker, before_maker};

use c_expressions::operators::prefix_in;
use cc_model::trees::Simple;
use cc_model::{Expr, Keyword, Kind, Punct};
use sqlite_items::Items;

/// What stands behind a unary expression.
#[derive(Clone, Copy)]
pub enum Behind {
    /// An assignment operator.
    Assign(Punct),
    /// `++` or `--`, where no prefix operator stands before the expression.
    Step(Punct),
    Nothing,
}

/// What begins a simple statement.
#[derive(Clone, Copy)]
pub enum SimpleStart {
    Assert,
    Assume,
    Abort,
    CrestInt,
    /// `++` or `--`.
    Step(Punct),
    Unary,
}

/// What begins a statement.
#[derive(Clone, Copy)]
pub enum StmtStart {
    Empty,
    Block,
    If,
    While,
    Do,
    For,
    Return,
    Break,
    Continue,
    Simple,
}

/// The number that the token is.
#[tactic(auto, unfolding(crate::specs::DescentStatements::number_at))]
pub fn number_in(kind: Option<Kind>) -> Option<i32>
    ensures none { IfNone result (number_at kind ≡ None) }
    ensures some { IfSome result (λ z. number_at kind ≡ Some z) }
    ensures there { IsNone kind → IsNone result }
{
    match kind {
        Some(Kind::Number(value)) => Some(value),
        _ => None,
    }
}

/// Whether the second token of a declaration that begins with a name is this one.
#[tactic(auto, unfolding(crate::specs::DescentStatements::is_declared))]
pub fn is_declared(kind: Option<Kind>) -> bool
    ensures value { result ≡ declared_at kind }
{
    match kind {
        Some(Kind::Name) => true,
        Some(Kind::Punct(Punct::Star)) => true,
        _ => false,
    }
}

/// Whether a simple statement is left out at the token.
#[tactic(auto, unfolding(crate::specs::DescentStatements::is_left_out))]
pub fn is_left_out(kind: Option<Kind>) -> bool
    ensures value { result ≡ left_out_at kind }
{
    match kind {
        Some(Kind::Punct(Punct::Semicolon)) => true,
        Some(Kind::Punct(Punct::Close)) => true,
        _ => false,
    }
}

/// The assignment operator that the token is.
#[tactic(auto, unfolding(crate::specs::DescentStatements::assign_at))]
fn assign_in(kind: Option<Kind>) -> Option<Punct>
    ensures none { IfNone result (assign_at kind ≡ None) }
    ensures some { IfSome result (λ p. assign_at kind ≡ Some (assign_maker p)) }
    ensures there { IsNone kind → IsNone result }
{
    match kind {
        Some(Kind::Punct(Punct::Assign)) => Some(Punct::Assign),
        Some(Kind::Punct(Punct::AddTo)) => Some(Punct::AddTo),
        Some(Kind::Punct(Punct::SubFrom)) => Some(Punct::SubFrom),
        Some(Kind::Punct(Punct::MulBy)) => Some(Punct::MulBy),
        Some(Kind::Punct(Punct::DivBy)) => Some(Punct::DivBy),
        Some(Kind::Punct(Punct::RemBy)) => Some(Punct::RemBy),
        _ => None,
    }
}

/// The `++` or `--` that the token is, behind an expression without prefix operator.
#[tactic(auto, unfolding(crate::specs::DescentStatements::behind_at))]
fn step_behind(kind: Option<Kind>) -> Option<Punct>
    ensures none { IfNone result (behind_at None kind ≡ None) }
    ensures some { IfSome result (λ p. behind_at None kind ≡ Some (behind_maker p)) }
    ensures there { IsNone kind → IsNone result }
{
    match kind {
        Some(Kind::Punct(Punct::Increase)) => Some(Punct::Increase),
        Some(Kind::Punct(Punct::Decrease)) => Some(Punct::Decrease),
        _ => None,
    }
}

/// What stands behind a unary expression: its first token and the one behind it.
#[tactic(auto, unfolding(crate::specs::DescentStatements::behind_at))]
pub fn behind_in(first: Option<Kind>, kind: Option<Kind>) -> Behind
    ensures here { BehindAt result (prefix_at first) kind }
    ensures there { (kind ≡ None) → result ≡ Behind.Nothing }
{
    if let Some(sign) = assign_in(kind) {
        return Behind::Assign(sign);
    }
    if prefix_in(first).is_some() {
        return Behind::Nothing;
    }
    match step_behind(kind) {
        Some(sign) => Behind::Step(sign),
        None => Behind::Nothing,
    }
}

/// What the token begins as a simple statement.
#[tactic(auto, unfolding(crate::specs::DescentStatements::simple_at, crate::specs::DescentStatements::step_or))]
pub fn simple_in(kind: Option<Kind>) -> SimpleStart
    ensures here { simple_at kind ≡ simple_is result }
    ensures there { (kind ≡ None) → result ≡ SimpleStart.Unary }
{
    match kind {
        Some(Kind::Key(Keyword::Assert)) => SimpleStart::Assert,
        Some(Kind::Key(Keyword::Assume)) => SimpleStart::Assume,
        Some(Kind::Key(Keyword::Abort)) => SimpleStart::Abort,
        Some(Kind::Key(Keyword::CrestInt)) => SimpleStart::CrestInt,
        Some(Kind::Punct(Punct::Increase)) => SimpleStart::Step(Punct::Increase),
        Some(Kind::Punct(Punct::Decrease)) => SimpleStart::Step(Punct::Decrease),
        _ => SimpleStart::Unary,
    }
}

/// What the token begins as a statement.
#[tactic(auto, unfolding(crate::specs::DescentStatements::stmt_at))]
pub fn stmt_in(kind: Option<Kind>) -> StmtStart
    ensures here { stmt_at kind ≡ stmt_is result }
    ensures there { (kind ≡ None) → result ≡ StmtStart.Simple }
{
    match kind {
        Some(Kind::Punct(Punct::Semicolon)) => StmtStart::Empty,
        Some(Kind::Punct(Punct::OpenBrace)) => StmtStart::Block,
        Some(Kind::Key(Keyword::If)) => StmtStart::If,
        Some(Kind::Key(Keyword::While)) => StmtStart::While,
        Some(Kind::Key(Keyword::Do)) => StmtStart::Do,
        Some(Kind::Key(Keyword::For)) => StmtStart::For,
        Some(Kind::Key(Keyword::Return)) => StmtStart::Return,
        Some(Kind::Key(Keyword::Break)) => StmtStart::Break,
        Some(Kind::Key(Keyword::Continue)) => StmtStart::Continue,
        _ => StmtStart::Simple,
    }
}

/// The tree of an assignment.
pub fn make_assign(sign: Punct, at: u32, left: Expr, right: Expr) -> Simple
    ensures { result ≡ assign_maker sign at left right }
{
    match sign {
        Punct::AddTo => Simple::AddTo(at, left, right),
        Punct::SubFrom => Simple::SubFrom(at, left, right),
        Punct::MulBy => Simple::MulBy(at, left, right),
        Punct::DivBy => Simple::DivBy(at, left, right),
        Punct::RemBy => Simple::RemBy(at, left, right),
        _ => Simple::Assign(at, left, right),
    }
}

/// The tree of a `++` or `--` behind an expression.
pub fn make_behind(sign: Punct, at: u32, value: Expr) -> Simple
    ensures { result ≡ behind_maker sign at value }
{
    match sign {
        Punct::Decrease => Simple::Decrease(at, value),
        _ => Simple::Increase(at, value),
    }
}

/// The tree of a `++` or `--` before an expression.
pub fn make_before(sign: Punct, at: u32, value: Expr) -> Simple
    ensures { result ≡ before_maker sign at value }
{
    match sign {
        Punct::Decrease => Simple::DecreaseFirst(at, value),
        _ => Simple::IncreaseFirst(at, value),
    }
}

/// The arguments of an expression that is a call and begins with a name.
#[tactic(auto, unfolding(crate::specs::DescentStatements::call_of, crate::specs::DescentStatements::args_of))]
pub fn call_of(named: bool, value: Expr) -> Option<Items<Expr>>
    ensures none { IfNone result (call_is named value ≡ None) }
    ensures some { IfSome result (λ l. call_is named value ≡ Some l) }
{
    if !named {
        return None;
    }
    match value {
        Expr::Call(_, _, args) => Some(args),
        _ => None,
    }
}
