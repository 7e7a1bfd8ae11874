//! A file that is being checked.

ghost use Rattle.std.specs.Prelude.{◌≡◌, ◌<◌, ◌^◌, length, map};
ghost use Rattle.cc_model.specs.declared.typing.Function.{Function as DeclaredFunction};
ghost use Rattle.c_scopes.specs.FileNames.{is_whole, member_names, offsets_in};

use c_names::TagIndex;
use c_scopes::file_names::FileNames;
use cc_model::Token;
use cc_model::typing::File;
use std::alloc::Global;

/// A file's source and tokens, what it declares, and the names of its functions.
#[derive(Clone, Copy)]
pub struct Sources<'a> {
    pub alloc: Global,
    pub source: &'a [u8],
    pub tokens: &'a [Token],
    pub file: &'a File,
    pub names: &'a FileNames,
    ghost few_tags: { length file.now.tags < 2 ^ 32 },
    ghost few_functions: { length file.now.functions < 2 ^ 32 },
    ghost function_names: { names.now.functions ≡ map (λ (f : DeclaredFunction). f.name) file.now.functions },
    ghost body_names: { names.now.bodies ≡ file.now.bodies },
    ghost tag_names: { names.now.tags ≡ file.now.tags },
    ghost whole_functions: { names.now.whole ≡ map is_whole file.now.functions },
    ghost field_names: { names.now.fields ≡ map member_names file.now.structs },
    ghost field_offsets: { names.now.offsets ≡ map (offsets_in file.now.sizes 0) file.now.structs },
}

impl Sources<'_> {
    /// The tags of the file's structs.
    pub fn tags(&self) -> &TagIndex
        ensures { result.now ≡ self.now.file.now.tags }
    {
        &self.names.tags
    }
}
