//! What is kept of a file, so that a name is found without a walk.

ghost use Rattle.std.specs.Prelude.{◌≡◌, ◌++◌, ◌∷◌, [], map, OnOk, IfOk};
ghost use Rattle.cc_model.specs.declared.typing.Function.{Function as DeclaredFunction};
ghost use Rattle.c_scopes.specs.FileNames as kept;

use crate::sizes::with_field;
use crate::whole::is_whole;
use c_names::{NameIndex, TagIndex};
use cc_model::base::NoMemory;
use cc_model::typing::{File, Function, Member, Text};
use sqlite_items::Items;
use std::alloc::Global;

/// The tags of a file's structs; the names of its functions, and of those with a body; whether all types of a
/// function's first declaration are known; and the names and the offsets in cells of the fields of each struct.
#[derive(Drop)]
pub struct FileNames {
    pub tags: TagIndex,
    pub functions: NameIndex,
    pub bodies: NameIndex,
    pub whole: Items<bool>,
    pub fields: Items<NameIndex>,
    pub offsets: Items<Items<u32>>,
}

/// Adds the tag of a struct, which may have none.
fn add_tag(index: &mut TagIndex, tag: &Option<Text>) -> Result<(), NoMemory>
    ensures { OnOk result (index.new ≡ index.old ++ tag.now ∷ []) }
{
    match tag {
        Some(tag) => index.add(tag.as_slice()),
        None => index.add_untagged(),
    }
}

/// Tags, indexed.
pub fn tag_index(alloc: Global, tags: &[Option<Text>]) -> Result<TagIndex, NoMemory>
    ensures { IfOk result (λ l. l ≡ tags.now) }
{
    let mut index = TagIndex::new(alloc);
    for tag in tags {
        add_tag(&mut index, tag)?;
    }
    Ok(index)
}

/// The names of functions.
fn function_names(alloc: Global, functions: &[Function]) -> Result<NameIndex, NoMemory>
    ensures { IfOk result (λ l. l ≡ map (λ (f : DeclaredFunction). f.name) functions.now) }
{
    let mut names = NameIndex::new(alloc);
    for function in functions {
        names.add(function.name.as_slice())?;
    }
    Ok(names)
}

/// Names, indexed.
fn indexed(alloc: Global, texts: &[Text]) -> Result<NameIndex, NoMemory>
    ensures { IfOk result (λ l. l ≡ texts.now) }
{
    let mut names = NameIndex::new(alloc);
    for text in texts {
        names.add(text.as_slice())?;
    }
    Ok(names)
}

/// Of which functions all types are known.
fn whole_functions(alloc: Global, functions: &[Function]) -> Result<Items<bool>, NoMemory>
    ensures { IfOk result (λ l. l ≡ map kept.is_whole functions.now) }
{
    let mut whole = Items::new(alloc);
    for function in functions {
        whole.push(is_whole(function))?;
    }
    Ok(whole)
}

/// The names of a struct's fields.
fn member_names(alloc: Global, members: &[Member]) -> Result<NameIndex, NoMemory>
    ensures { IfOk result (λ l. l ≡ kept.member_names members.now) }
{
    let mut names = NameIndex::new(alloc);
    for member in members {
        names.add(member.name.as_slice())?;
    }
    Ok(names)
}

/// The names of the fields of each struct.
fn all_member_names(alloc: Global, structs: &[Items<Member>]) -> Result<Items<NameIndex>, NoMemory>
    ensures { IfOk result (λ l. l ≡ map kept.member_names structs.now) }
{
    let mut all = Items::new(alloc);
    for members in structs {
        all.push(member_names(alloc, members.as_slice())?)?;
    }
    Ok(all)
}

/// The offsets of a struct's fields in cells.
fn offsets_in(alloc: Global, sizes: &[u32], members: &[Member]) -> Result<Items<u32>, NoMemory>
    ensures { IfOk result (λ l. l ≡ kept.offsets_in sizes.now 0 members.now) }
{
    let mut offsets = Items::new(alloc);
    let mut size = 0;
    for member in members {
        offsets.push(size)?;
        size = with_field(sizes, size, member);
    }
    Ok(offsets)
}

/// The offsets of the fields of each struct in cells.
fn all_offsets(
    alloc: Global,
    sizes: &[u32],
    structs: &[Items<Member>],
) -> Result<Items<Items<u32>>, NoMemory>
    ensures { IfOk result (λ l. l ≡ map (kept.offsets_in sizes.now 0) structs.now) }
{
    let mut all = Items::new(alloc);
    for members in structs {
        all.push(offsets_in(alloc, sizes, members.as_slice())?)?;
    }
    Ok(all)
}

/// What is kept of a file; all but the fields is given.
fn with_fields(
    alloc: Global,
    file: &File,
    tags: TagIndex,
    functions: NameIndex,
    bodies: NameIndex,
    whole: Items<bool>,
) -> Result<FileNames, NoMemory>
    ensures tags { IfOk result (λ n. n.tags ≡ tags) }
    ensures functions { IfOk result (λ n. n.functions ≡ functions) }
    ensures bodies { IfOk result (λ n. n.bodies ≡ bodies) }
    ensures whole { IfOk result (λ n. n.whole ≡ whole) }
    ensures fields { IfOk result (λ n. n.fields ≡ map kept.member_names (file.now).structs) }
    ensures offsets { IfOk result (λ n. n.offsets ≡ map (kept.offsets_in (file.now).sizes 0) (file.now).structs) }
{
    let fields = all_member_names(alloc, file.structs.as_slice())?;
    let offsets = all_offsets(alloc, file.sizes.as_slice(), file.structs.as_slice())?;
    Ok(FileNames {
        tags,
        functions,
        bodies,
        whole,
        fields,
        offsets,
    })
}

/// What is kept of a file; the tags and the names of functions are given.
fn with_bodies(
    alloc: Global,
    file: &File,
    tags: TagIndex,
    functions: NameIndex,
) -> Result<FileNames, NoMemory>
    ensures tags { IfOk result (λ n. n.tags ≡ tags) }
    ensures functions { IfOk result (λ n. n.functions ≡ functions) }
    ensures bodies { IfOk result (λ n. n.bodies ≡ (file.now).bodies) }
    ensures whole { IfOk result (λ n. n.whole ≡ map kept.is_whole (file.now).functions) }
    ensures fields { IfOk result (λ n. n.fields ≡ map kept.member_names (file.now).structs) }
    ensures offsets { IfOk result (λ n. n.offsets ≡ map (kept.offsets_in (file.now).sizes 0) (file.now).structs) }
{
    let bodies = indexed(alloc, file.bodies.as_slice())?;
    let whole = whole_functions(alloc, file.functions.as_slice())?;
    with_fields(alloc, file, tags, functions, bodies, whole)
}

/// What is kept of a file.
pub fn file_names(alloc: Global, file: &File) -> Result<FileNames, NoMemory>
    ensures functions { IfOk result (λ n. n.functions ≡ map (λ (f : DeclaredFunction). f.name) (file.now).functions) }
    ensures bodies { IfOk result (λ n. n.bodies ≡ (file.now).bodies) }
    ensures tags { IfOk result (λ n. n.tags ≡ (file.now).tags) }
    ensures whole { IfOk result (λ n. n.whole ≡ map kept.is_whole (file.now).functions) }
    ensures fields { IfOk result (λ n. n.fields ≡ map kept.member_names (file.now).structs) }
    ensures offsets { IfOk result (λ n. n.offsets ≡ map (kept.offsets_in (file.now).sizes 0) (file.now).structs) }
{
    let tags = tag_index(alloc, file.tags.as_slice())?;
    let functions = function_names(alloc, file.functions.as_slice())?;
    with_bodies(alloc, file, tags, functions)
}
