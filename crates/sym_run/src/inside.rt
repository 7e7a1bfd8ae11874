//! Pointers into objects that a run has met.

ghost use Rattle.std.specs.Prelude.{◌≡◌, true};
ghost use Rattle.sym_run.specs.Inside.{IsInside};
ghost use Rattle.sym_run.specs.Remembers.{names_in};

use crate::objects::Objects;
use checked_memory::Value;

impl Objects {
    /// Whether a value is NULL, or a pointer into an object that the run made or a touched block.
    pub(crate) fn is_inside(&self, value: Value) -> bool
        ensures { result ≡ true → IsInside (names_in self.now) value }
    {
        match value {
            Value::Int(_) => false,
            Value::Null => true,
            Value::Made(_, _) => true,
            Value::Block(address, _) => match self.memory.rank_of(address) {
                Some(_) => true,
                None => false,
            },
        }
    }
}
