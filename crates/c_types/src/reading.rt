//! What a program's items declare, what is said of them, and the first fault of that.

ghost use Rattle.std.specs.Prelude.{◌≡◌, ◌<◌, ◌^◌, ℕ, List, length, IfOk};
ghost use Rattle.cc_model.specs.declared.trees.Item.{Item as SourceItem};
ghost use Rattle.cc_model.specs.declared.tokens.Token.{Token as SourceToken};
ghost use Rattle.cc_model.specs.Source.{text_at};
ghost use Rattle.cc_model.specs.Scopes as scopes;
ghost use Rattle.cc_model.specs.Faults as faults;
ghost use Rattle.c_types.specs.FirstFault.{IsLeast};
ghost use Rattle.c_types.specs.Resolving.{AreRead};

use crate::least::{Found, first_fault, sites_fault};
use crate::sites::sites_in;
use c_rules::items::items;
use c_scopes::file::file_of;
use cc_model::base::NoMemory;
use cc_model::trees::Item;
use cc_model::typing::{File, Note};
use cc_model::{Site, Token};
use sqlite_items::Items;
use std::alloc::Global;

/// What the items of a program declare, what is said of them, and their sites in order.
#[derive(Drop)]
pub struct Reading {
    pub file: File,
    pub notes: Items<Note>,
    pub sites: Items<Site>,
}

/// What items declare, what is said of them, and their sites.
pub fn read(
    alloc: Global,
    source: &[u8],
    tokens: &[Token],
    parts: &[Item],
) -> Result<Reading, NoMemory>
    ensures read { IfOk result (λ r. AreRead
        (text_at source.now tokens.now) tokens.now parts.now r.file r.notes r.sites) }
    ensures few_tags { IfOk result (λ r. length (r.file).tags < 2 ^ 32) }
    ensures few_functions { IfOk result (λ r. length (r.file).functions < 2 ^ 32) }
{
    let file = file_of(alloc, source, tokens, parts)?;
    let mut notes = Items::new(alloc);
    items(alloc, source, tokens, &file, parts, &mut notes)?;
    let sites = sites_in(alloc, tokens, parts)?;
    Ok(Reading { file, notes, sites })
}

/// The first fault of what was read.
pub fn fault_in(reading: &Reading) -> Option<Found>
    ensures { (text : ℕ → scopes.Text) (tokens : List SourceToken) (l : List SourceItem)
        → AreRead text tokens l (reading.now).file (reading.now).notes (reading.now).sites
        → IsLeast (faults.faults_in text l) result }
{
    first_fault(
        reading.notes.as_slice(),
        sites_fault(reading.sites.as_slice()),
    )
}
