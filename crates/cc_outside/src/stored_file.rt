// One file in memory.
ghost use Rattle.std.specs.Prelude.{◌≡◌, ◌<◌, IfOk, option_copied, position};
ghost use Rattle.std.specs.Str.{bytes_eq};
ghost use Rattle.cc_outside.specs.Held.{file_of};

use cc_base::NoMemory;
use std::alloc::Global;
use std::marker::Model;

/// A file that is held in memory.
#[derive(Drop)]
pub(crate) struct StoredFile {
    name: String,
    bytes: Vec<u8>,
}

impl Model for StoredFile {
    ghost use Rattle.std.specs.Prelude.{string_bytes};
    ghost use Rattle.cc_outside.specs.Held.{NamedFile};

    ghost Value = { NamedFile };

    ghost view = { λ f. record { name = string_bytes f.name; bytes = f.bytes.items } };
}

impl StoredFile {
    pub(crate) fn new(alloc: Global, name: &str, bytes: &[u8]) -> Result<StoredFile, NoMemory>
        ensures { IfOk result (λ f. f ≡ record { name = name.now; bytes = bytes.now }) }
    {
        Ok(StoredFile {
            name: String::from_str(alloc, name)?,
            bytes: Vec::from_slice(alloc, bytes)?,
        })
    }

    pub(crate) fn has_name(&self, name: &str) -> bool
        ensures { result ≡ bytes_eq self.now.name name.now }
    {
        self.name.as_str() == name
    }

    pub(crate) fn bytes(&self) -> &[u8]
        ensures { result.now ≡ self.now.bytes }
    {
        self.bytes.as_slice()
    }
}

/// The bytes of the first file of that name.
pub(crate) fn bytes_named<'a>(files: &'a [StoredFile], name: &str) -> Option<&'a [u8]>
    ensures { option_copied result ≡ file_of name.now files.now }
{
    let file = files.iter().find(|file| file.has_name(name))?;
    Some(file.bytes())
}

/// The place of the first file of that name.
pub(crate) fn place_named(files: &[StoredFile], name: &str) -> Option<usize>
    ensures { result ≡ position (λ f. bytes_eq f.name name.now) files.now }
{
    files.iter().position(|file| file.has_name(name))
}
