//! What tokens begin as an item or as a start value.

ghost use Rattle.std.specs.Prelude.{◌≡◌, true, IsNone, None};
ghost use Rattle.cc_model.specs.declared.tokens.Kind.{Kind};
ghost use Rattle.c_parse.specs.DescentItems.{item_at, is_end as end_at};
ghost use Rattle.c_parse.specs.ShownItems.{ValueAt, item_is};

use c_expressions::operators::is_sign;
use cc_model::{Keyword, Kind, Punct};

/// What begins an item: a `struct` is one where a `{` stands behind its tag.
#[derive(Clone, Copy)]
pub enum ItemStart {
    Typedef,
    Struct,
    Void,
    Typed,
}

/// What begins the start value of a global: what is neither a number nor a `-` has to be `NULL`.
#[derive(Clone, Copy)]
pub enum ValueStart {
    Number(i32),
    Negative,
    Null,
}

/// Whether there is no token.
#[tactic(auto, unfolding(crate::specs::DescentItems::is_end))]
pub fn is_end(kind: Option<Kind>) -> bool
    ensures value { result ≡ end_at kind }
    ensures there { IsNone kind → result ≡ true }
{
    kind.is_none()
}

/// What the first token, with the third one, begins as an item.
#[tactic(auto, unfolding(crate::specs::DescentItems::item_at, crate::specs::DescentItems::struct_or))]
pub fn item_in(kind: Option<Kind>, third: Option<Kind>) -> ItemStart
    ensures here { item_at kind third ≡ item_is result }
    ensures there { (kind ≡ None) → result ≡ ItemStart.Typed }
{
    match kind {
        Some(Kind::Key(Keyword::Typedef)) => ItemStart::Typedef,
        Some(Kind::Key(Keyword::Struct)) => {
            if is_sign(Punct::OpenBrace, third) {
                ItemStart::Struct
            } else {
                ItemStart::Typed
            }
        }
        Some(Kind::Key(Keyword::Void)) => ItemStart::Void,
        _ => ItemStart::Typed,
    }
}

/// What the token begins as the start value of a global.
#[tactic(auto, unfolding(c_statements::specs::DescentStatements::number_at, c_expressions::specs::Descent::is_sign))]
pub fn value_in(kind: Option<Kind>) -> ValueStart
    ensures here { ValueAt result kind }
    ensures there { (kind ≡ None) → result ≡ ValueStart.Null }
{
    match kind {
        Some(Kind::Number(value)) => ValueStart::Number(value),
        Some(Kind::Punct(Punct::Dash)) => ValueStart::Negative,
        _ => ValueStart::Null,
    }
}
