//! The terms of listed runs, in order.

ghost use Rattle.std.specs.Prelude.{◌≡◌, ◌⊎◌, ◌↔◌, false, map, OnOk, IsTrue};
ghost use Rattle.cc_base.specs.Paths.{In};
ghost use Rattle.cc_model.specs.CheckedProgram.{core_of};
ghost use Rattle.cc_model.specs.Tested.{Term as Found};
ghost use Rattle.search_base.specs.Inserting.{IsPlace};
ghost use Rattle.search_base.specs.Readable.{IsNarrow};
ghost use Rattle.search_base.specs.Setting.{column_in};
ghost use Rattle.search_base.specs.Terms.{token_in, found_at, seen_term, rank_of, Comes, InOrder};

use cc_model::base::NoMemory;
use cc_model::{Checked, Site, SiteId, TermKind};
use sym_run::Term;

/// A site at which a listed run concretised, by its line and column, and why.
#[derive(Clone, Copy)]
pub struct FoundTerm {
    pub line: u32,
    pub col: u32,
    pub kind: TermKind,
}

/// The token of a site.
pub fn token_at(checked: &Checked, site: SiteId) -> u32
    ensures { result ≡ token_in (checked.now).sites site.0 }
{
    token_of(checked, site.0 as usize)
}

/// The token of the site with this number.
pub fn token_of(checked: &Checked, site: usize) -> u32
    ensures { result ≡ token_in (checked.now).sites site }
{
    match checked.sites.get(site) {
        Some(site) => site.token,
        None => 0,
    }
}

/// The column of a token that has a site.
#[tactic(auto, unfolding(crate::specs::Setting::column_in))]
fn column_at(sites: &[Site], token: u32) -> u32
    ensures { result ≡ column_in sites.now token }
{
    for site in sites {
        if site.token == token {
            return site.col;
        }
    }
    0
}

/// The line of a token; 0 where there is none.
fn line_at(checked: &Checked, token: u32) -> u32
    ensures { result ≡ (core_of checked.now).line token }
{
    match checked.lines.get(token as usize) {
        Some(line) => *line,
        None => 0,
    }
}

/// A term by its line and column.
fn found(checked: &Checked, term: &Term) -> FoundTerm
    ensures { seen_term result ≡ found_at checked.now term.now }
{
    let token = token_at(checked, term.site);
    FoundTerm {
        line: line_at(checked, token),
        col: column_at(checked.sites.as_slice(), token),
        kind: term.kind,
    }
}

/// Where a kind stands among the kinds.
fn rank(kind: TermKind) -> u32
    ensures { result ≡ rank_of kind }
{
    match kind {
        TermKind::Index => 0,
        TermKind::Product => 1,
        TermKind::Quotient => 2,
        TermKind::Wide => 3,
    }
}

/// Whether a term comes before another.
fn comes(a: FoundTerm, b: FoundTerm) -> bool
    ensures yes { IsTrue result → Comes (seen_term a) (seen_term b) }
    ensures no { result ≡ false → Comes (seen_term a) (seen_term b) → ⊥ }
{
    if a.line != b.line {
        return a.line < b.line;
    }
    if a.col != b.col {
        return a.col < b.col;
    }
    rank(a.kind) < rank(b.kind)
}

/// The place of a term among terms in order.
fn place_of(terms: &[FoundTerm], term: FoundTerm) -> usize
    ensures { IsPlace (λ x. Comes (seen_term x) (seen_term term)) terms.now result }
{
    for i in 0..terms.len() {
        if !comes(terms[i], term) {
            return i;
        }
    }
    terms.len()
}

/// Puts a term among terms in order, where it isn't there.
fn add_term(terms: &mut Vec<FoundTerm>, term: FoundTerm) -> Result<(), NoMemory>
    ensures all { OnOk result ((x : Found)
        → In x (map seen_term (terms.new).items) ↔ (In x (map seen_term (terms.old).items) ⊎ (x ≡ seen_term term))) }
    ensures order { OnOk result (InOrder (terms.old).items → InOrder (terms.new).items) }
{
    let at = place_of(terms.as_slice(), term);
    if at < terms.len() {
        if !comes(term, terms[at]) {
            return Ok(());
        }
    }
    terms.insert(at, term)?;
    Ok(())
}

/// Puts the terms of a run among terms in order.
pub fn add_terms(
    checked: &Checked,
    terms: &[Term],
    all: &mut Vec<FoundTerm>,
) -> Result<(), NoMemory>
    ensures all { OnOk result ((x : Found)
        → In x (map seen_term (all.new).items)
        ↔ (In x (map seen_term (all.old).items) ⊎ In x (map (found_at checked.now) terms.now))) }
    ensures order { OnOk result (InOrder (all.old).items → InOrder (all.new).items) }
{
    for term in terms {
        add_term(all, found(checked, term))?;
    }
    Ok(())
}

/// The line and the column of a term have 64 bits.
fn narrow_one(term: FoundTerm)
    ensures { IsNarrow (seen_term term) }
{}

/// The same of all terms.
pub fn narrow(terms: &[FoundTerm])
    ensures { (e : Found) → In e (map seen_term terms.now) → IsNarrow e }
{
    for term in terms {
        narrow_one(*term);
    }
}
