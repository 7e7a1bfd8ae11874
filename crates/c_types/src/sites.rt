//! The sites of a program in order, and the lines of its tokens.

ghost use Rattle.std.specs.Prelude.{◌≡◌, ◌<◌, map, IfOk};
ghost use Rattle.cc_model.specs.CheckedProgram as program;
ghost use Rattle.cc_model.specs.Sites as places;
ghost use Rattle.cc_model.specs.Sites.{kind_rank};
ghost use Rattle.c_trees.specs.Walks.{mark};
ghost use Rattle.c_types.specs.Ranks.{place};

use c_trees::{Mark, marks};
use cc_model::base::NoMemory;
use cc_model::trees::Item;
use cc_model::{Site, SiteKind, Token};
use sqlite_items::{Items, at};
use std::alloc::Global;

/// Where a kind stands among the sites of one token.
fn rank(kind: SiteKind) -> u64
    ensures is { result ≡ kind_rank kind }
    ensures small { result < 8 }
{
    match kind {
        SiteKind::Decision => 0,
        SiteKind::Divisor => 1,
        SiteKind::Fit => 2,
        SiteKind::Index => 3,
        SiteKind::Access => 4,
    }
}

/// A number by which sites are in order.
fn place_of(site: &Mark) -> u64
    ensures { result ≡ place (mark site.now) }
{
    8 * u64::from(site.token) + rank(site.kind)
}

/// The site with its line.
fn site_of(tokens: &[Token], site: &Mark) -> Site
    ensures { result ≡ program.site_of tokens.now (mark site.now) }
{
    match at(tokens, site.token as usize) {
        Some(token) => Site {
            token: site.token,
            line: token.line,
            col: token.col,
            kind: site.kind,
        },
        None => Site {
            token: site.token,
            line: 0,
            col: 0,
            kind: site.kind,
        },
    }
}

/// The sites with their lines.
fn sites_at(alloc: Global, tokens: &[Token], marks: &[Mark]) -> Result<Items<Site>, NoMemory>
    ensures { IfOk result (λ l. l ≡ map (λ m. program.site_of tokens.now (mark m)) marks.now) }
{
    let mut sites = Items::new(alloc);
    for mark in marks {
        sites.push(site_of(tokens, mark))?;
    }
    Ok(sites)
}

/// The sites of a program in order: by token, and at one token by kind.
pub fn sites_in(alloc: Global, tokens: &[Token], items: &[Item]) -> Result<Items<Site>, NoMemory>
    ensures { IfOk result (λ l. l ≡ map (program.site_of tokens.now) (places.sites_in items.now)) }
{
    let found = marks(alloc, items)?;
    let mut sites = Vec::from_slice(alloc, found.as_slice())?;
    sites.sort_unstable_by_key(|m| place_of(m));
    sites_at(alloc, tokens, sites.as_slice())
}

/// The line of each token.
pub fn lines_of(alloc: Global, tokens: &[Token]) -> Result<Items<u32>, NoMemory>
    ensures { IfOk result (λ l. l ≡ map (λ t. t.line) tokens.now) }
{
    let lines = tokens.iter().map(|t| t.line).collect(alloc)?;
    Ok(Items::from_vec(lines))
}
