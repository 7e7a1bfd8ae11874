//! The tables of a checked program.

ghost use Rattle.std.specs.Prelude.{◌≡◌, ◌<◌, ℕ, EachIndex, length, nat_eq, position, slice_get, slice_index};
ghost use Rattle.std.specs.Prelude.{slice_set, IfOk, OnOk};
ghost use Rattle.cc_model.specs.declared.checked.SiteKind.{SiteKind};
ghost use Rattle.cc_model.specs.CheckedProgram.{flat, cells_at, cells_of_all};
ghost use Rattle.tac_lower.specs.Seen.{site_token};
ghost use Rattle.tac_lower.specs.Adding.{HasSite};
ghost use Rattle.tac_lower.specs.Tables.{AreTables, site_in};
ghost use Rattle.tac_lower.specs.Marking.{no_sites, with_site, marked, IsSpan, AreFirst};
ghost use Rattle.tac_lower.specs.Written.{Narrow};

use crate::emit::counted;
use crate::known::{SitesAt, Tables};
use c_trees::expression_tokens;
use cc_model::base::{Items, NoMemory, TyId};
use cc_model::{Checked, Site, SiteId, SiteKind};
use std::alloc::Global;

/// One more than the greatest of the numbers; 0 where there is none.
fn length_over(tokens: &[u32]) -> usize
    ensures { EachIndex tokens.now (λ k. slice_index tokens.now k < result) }
{
    match tokens.iter().copied().max() {
        Some(most) => most as usize + 1,
        None => 0,
    }
}

/// Sets the number at a token, where the token is in the table.
fn set_number(table: &mut Items<Option<u32>>, token: u32, number: u32)
    ensures { table.new ≡ slice_set table.old token (Some number) }
{
    let at = token as usize;
    if at < table.len() {
        table.set(at, Some(number));
    }
}

/// The first number of each token.
fn numbers(alloc: Global, tokens: &[u32]) -> Result<Items<Option<u32>>, NoMemory>
    ensures { IfOk result (λ l. (k : ℕ) → flat (slice_get l k) ≡ position (nat_eq k) tokens.now) }
{
    let mut table = Items::from_vec(vec![in alloc; None; length_over(tokens)]?);
    let mut left = tokens.len();
    while left > 0 {
        left -= 1;
        let number = counted(left)?;
        set_number(&mut table, tokens[left], number);
    }
    Ok(table)
}

/// No sites, where `none` is no site's number.
fn no_sites(none: u32) -> SitesAt
    ensures { result ≡ no_sites none }
{
    SitesAt {
        decision: SiteId(none),
        divisor: SiteId(none),
        fit: SiteId(none),
        index: SiteId(none),
        access: SiteId(none),
    }
}

/// The sites at a token with this one of its kind.
fn with_site(kind: SiteKind, id: SiteId, sites: SitesAt) -> SitesAt
    ensures { result ≡ with_site kind id sites }
{
    match kind {
        SiteKind::Decision => SitesAt {
            decision: id,
            ..sites
        },
        SiteKind::Divisor => SitesAt {
            divisor: id,
            ..sites
        },
        SiteKind::Fit => SitesAt { fit: id, ..sites },
        SiteKind::Index => SitesAt { index: id, ..sites },
        SiteKind::Access => SitesAt {
            access: id,
            ..sites
        },
    }
}

/// Puts a site into the table, where its token is in it.
fn mark(table: &mut Items<SitesAt>, site: Site, id: SiteId)
    ensures { table.new ≡ marked site id table.old }
{
    let at = site.token as usize;
    if let Some(sites) = table.get(at) {
        let sites = with_site(site.kind, id, *sites);
        table.set(at, sites);
    }
}

/// How long a table is that has an entry for each token and for each site's.
fn span(checked: &Checked) -> Result<usize, NoMemory>
    ensures { IfOk result (λ n. IsSpan checked.now 0 n) }
{
    let mut span = counted(checked.lines.len())? as usize + 1;
    let sites = checked.sites.as_slice();
    let mut left = sites.len();
    while left > 0 {
        left -= 1;
        span = span.max(sites[left].token as usize + 1);
    }
    Ok(span)
}

/// The sites at each token.
fn sites(alloc: Global, checked: &Checked) -> Result<Items<SitesAt>, NoMemory>
    ensures { IfOk result (λ l. (kind : SiteKind) (k : ℕ) → HasSite checked.now kind k
        → site_token checked.now kind (site_in kind (slice_get l k)) ≡ k) }
{
    let none = no_sites(counted(checked.sites.len())?);
    let mut table = Items::from_vec(vec![in alloc; none; span(checked)?]?);
    let sites = checked.sites.as_slice();
    let mut left = sites.len();
    while left > 0 {
        left -= 1;
        let id = SiteId(counted(left)?);
        mark(&mut table, sites[left], id);
    }
    Ok(table)
}

/// The number of cells of a type.
fn cells_in(checked: &Checked, ty: TyId) -> usize
    ensures { result ≡ length (cells_at checked.now ty.0) }
{
    match checked.layouts.get(ty.0 as usize) {
        Some(layout) => layout.len(),
        None => 0,
    }
}

/// The first cell of each global, and the number of cells of all.
#[derive(Drop)]
struct FirstCells {
    each: Items<u32>,
    all: u32,
}

/// The first cell of each global.
fn first_cells(alloc: Global, checked: &Checked) -> Result<FirstCells, NoMemory>
    ensures { IfOk result (λ f. AreFirst checked.now (length checked.now.globals) f.each f.all) }
{
    let mut each = Items::new(alloc);
    let mut all = 0;
    for ty in checked.globals.as_slice() {
        each.push(all)?;
        let more = counted(cells_in(checked, *ty))?;
        all = counted(all as usize + more as usize)?;
    }
    Ok(FirstCells { each, all })
}

/// Refuses a program with a type of 2^32 cells or more.
pub fn narrow(checked: &Checked) -> Result<(), NoMemory>
    ensures { OnOk result (Narrow checked.now) }
{
    let layouts = checked.layouts.as_slice();
    let mut left = layouts.len();
    while left > 0 {
        left -= 1;
        counted(layouts[left].len())?;
    }
    Ok(())
}

/// The tables of a checked program.
pub fn tables(alloc: Global, checked: &Checked) -> Result<Tables, NoMemory>
    ensures right { IfOk result (λ t. AreTables checked.now t) }
    ensures cells { IfOk result (λ t. t.all_cells ≡ length (cells_of_all checked.now checked.now.globals)) }
{
    let tokens = expression_tokens(alloc, checked.program.items.as_slice())?;
    let numbers = numbers(alloc, tokens.as_slice())?;
    let sites = sites(alloc, checked)?;
    let cells = first_cells(alloc, checked)?;
    Ok(Tables {
        numbers,
        sites,
        cells: cells.each,
        all_cells: cells.all,
    })
}
