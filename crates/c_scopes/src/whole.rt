//! Whether all types of a declaration are known.

ghost use Rattle.std.specs.Prelude.{◌≡◌};
ghost use Rattle.cc_model.specs.Faults as faults;
ghost use Rattle.c_scopes.specs.FileNames as names;

use cc_model::typing::{CType, Function};

/// Whether all those types are known.
fn all_known(params: &[Option<CType>]) -> bool
    ensures { result ≡ faults.all_known params.now }
{
    for param in params {
        if param.is_none() {
            return false;
        }
    }
    true
}

/// Whether all types of a declaration are known.
pub fn is_whole(function: &Function) -> bool
    ensures { result ≡ names.is_whole function.now }
{
    function.result.is_some() && all_known(function.params.as_slice())
}
