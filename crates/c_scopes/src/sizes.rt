//! The sizes of fields.

ghost use Rattle.std.specs.Prelude.{◌≡◌, ◌+◌};
ghost use Rattle.cc_model.specs.Scopes as scopes;
ghost use Rattle.cc_model.specs.Types.{up_to_257};

use crate::types::{size_of, up_to_257};
use cc_model::typing::Member;

/// The size of a field; 0 where its type isn't known.
fn field_size(sizes: &[u32], member: &Member) -> u32
    ensures { result ≡ scopes.field_size sizes.now member.now }
{
    match &member.ty {
        Some(ty) => size_of(sizes, ty),
        None => 0,
    }
}

/// The size of fields and of one more, where one above 256 is told as 257.
pub fn with_field(sizes: &[u32], size: u32, member: &Member) -> u32
    ensures { result ≡ up_to_257 (size + scopes.field_size sizes.now member.now) }
{
    up_to_257(u64::from(size) + u64::from(field_size(sizes, member)))
}

/// The size of fields, where one above 256 is told as 257.
pub fn fields_size(sizes: &[u32], members: &[Member]) -> u32
    ensures { result ≡ scopes.fields_size sizes.now members.now }
{
    let mut size = 0;
    for member in members {
        size = with_field(sizes, size, member);
    }
    size
}
