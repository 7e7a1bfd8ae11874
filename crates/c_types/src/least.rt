//! The first fault.

ghost use Rattle.std.specs.Prelude.{◌≡◌, ◌++◌, List, ◌∷◌, map, Option};
ghost use Rattle.cc_model.specs.declared.typing.Note.{Note};
ghost use Rattle.cc_model.specs.declared.tokens.Token.{Token};
ghost use Rattle.cc_model.specs.declared.trees.Item.{Item};
ghost use Rattle.cc_model.specs.CheckedProgram as program;
ghost use Rattle.cc_model.specs.Sites as places;
ghost use Rattle.cc_model.specs.Faults as faults;
ghost use Rattle.cc_model.specs.Faults.{faults_among, wrong_rank};
ghost use Rattle.c_types.specs.FirstFault.{fault, is_first, faults_of, IsLeast};

use cc_model::Site;
use cc_model::typing::{Note, Wrong};
use sqlite_items::at;

/// A fault and its token.
#[derive(Clone, Copy)]
pub struct Found {
    pub what: Wrong,
    pub token: u32,
}

/// Where a fault stands among those of one token.
fn rank(what: Wrong) -> u32
    ensures { result ≡ wrong_rank what }
{
    match what {
        Wrong::Unknown => 0,
        Wrong::Twice => 1,
        Wrong::Mismatch => 2,
        Wrong::TooLarge => 3,
    }
}

/// Whether a fault stands before another one, or is no later one of the same token.
fn not_after(f: Found, g: Found) -> bool
    ensures { result ≡ is_first f g }
{
    f.token < g.token || (f.token == g.token && rank(f.what) <= rank(g.what))
}

/// The first of a fault and of what was found.
fn earlier(f: Found, least: Option<Found>) -> Option<Found>
    ensures { (l : List faults.Found) → IsLeast l least → IsLeast (fault f ∷ l) result }
{
    match least {
        Some(g) => { if not_after(f, g) { Some(f) } else { Some(g) } }
        None => Some(f),
    }
}

/// The first of the fault that a note tells and of what was found.
fn with_note(note: &Note, least: Option<Found>) -> Option<Found>
    ensures { (l : List Note) (r : List faults.Found) → IsLeast (faults_among l ++ r) least
        → IsLeast (faults_among (note.now ∷ l) ++ r) result }
{
    match note {
        Note::Fault(what, token) => earlier(
            Found {
                what: *what,
                token: *token,
            },
            least,
        ),
        Note::Means(_, _) => least,
        Note::Typed(_, _) => least,
        Note::Null(_) => least,
        Note::Declares(_, _) => least,
    }
}

/// The first fault that the notes tell, and one of the sites: that of the least token, and at one token by kind; none
/// where there is no fault.
pub fn first_fault(notes: &[Note], site: Option<Found>) -> Option<Found>
    ensures { IsLeast (faults_among notes.now ++ faults_of site) result }
{
    let mut least = site;
    let mut left = notes.len();
    while left > 0 {
        left -= 1;
        least = with_note(&notes[left], least);
    }
    least
}

/// The most sites that a program may have.
const MOST_SITES: usize = 4096;

/// The fault of the first site past the most that a program may have.
pub fn sites_fault(sites: &[Site]) -> Option<Found>
    ensures { (tokens : List Token) (items : List Item)
        → sites.now ≡ map (program.site_of tokens) (places.sites_in items)
        → faults_of result ≡ faults.sites_fault items }
{
    match at(sites, MOST_SITES) {
        Some(site) => Some(Found {
            what: Wrong::TooLarge,
            token: site.token,
        }),
        None => None,
    }
}
