// Reading whole files.
ghost use Rattle.std.specs.Prelude.{◌≡◌, ℕ, ◌^◌, ◌<◌, ◌≤◌, List, Option, None, Some, IfOk, IsErrOf, length, vec_len};
ghost use Rattle.cc_outside.specs.Faults.{Rose};
ghost use Rattle.cc_outside.specs.Held.{Held, file_of};
ghost use Rattle.cc_outside.specs.Endings.{EndsBy};

use std::alloc::Global;
use thiserror::Error;

/// Why a file was not loaded.
#[derive(Clone, Copy, Debug, PartialEq, Eq, Error)]
pub enum LoadFault {
    /// There is no file of that name.
    #[error("no such file")]
    Missing,
    /// The file has more bytes than the limit.
    #[error("the file is too long")]
    TooLong,
    /// The outside failed, as at a disk's error or a file that may not be read.
    #[error("the file can't be read")]
    Failed,
    /// Memory ran out.
    #[error("out of memory")]
    NoMemory,
}

/// Where whole files are read from.
pub trait Files {
    // The files held, or `None` where the kind does not tell them.
    ghost held: { Self → Option Held };

    // How many faults there were, up to the last value of 64 bits, at which it stays.
    ghost faults: { Self → ℕ };

    /// The bytes of the file of that name, at most `limit` of them.
    ///
    /// `Missing` comes where there is no such file, and `TooLong` where it has more than `limit`
    /// bytes. `Failed` and `NoMemory` may come in place of any answer.
    fn load(&mut self, alloc: Global, name: &str, limit: usize) -> Result<Vec<u8>, LoadFault>
        ensures held { held self.new ≡ held self.old }
        ensures never_falls { faults self.old ≤ faults self.new }
        ensures bounded { faults self.new < 2 ^ 64 }
        ensures within_limit { IfOk result (λ v. vec_len v ≤ limit) }
        ensures failed { IsErrOf result LoadFault.Failed
            → Rose (faults self.old) (faults self.new) }

        // What each answer means where the files are told.
        ensures bytes { (h : Held) → held self.old ≡ Some h
            → IfOk result (λ v. file_of name.now h ≡ Some v.items) }
        ensures missing_only { (h : Held) → held self.old ≡ Some h
            → IsErrOf result LoadFault.Missing → file_of name.now h ≡ None }
        ensures too_long_only { (h : Held) → held self.old ≡ Some h
            → IsErrOf result LoadFault.TooLong
            → (b : List ℕ) × (file_of name.now h ≡ Some b) × (limit < length b) }

        // Which answer comes where the files are told.
        ensures missing { (h : Held) → held self.old ≡ Some h
            → file_of name.now h ≡ None → EndsBy LoadFault.Missing result }
        ensures too_long { (h : Held) (b : List ℕ) → held self.old ≡ Some h
            → file_of name.now h ≡ Some b → limit < length b → EndsBy LoadFault.TooLong result };
}
