//! What a run does not follow symbolically.

/// Why a run concretised at a site: the product of two values that depend on the input, a quotient or remainder with
/// such an operand, an index that depends on the input, or a form that passes the limits of forms.
#[derive(Clone, Copy)]
pub enum TermKind {
    Product,
    Quotient,
    Index,
    Wide,
}
