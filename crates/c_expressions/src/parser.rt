//! The tokens, and how one is taken.

ghost use Rattle.std.specs.Prelude.{◌≡◌, ◌<◌, ◌≤◌, ◌+◌, IsSome, IfOk, length};
ghost use Rattle.cc_model.specs.Spots.{kind_at, shallow, opened, passed};
ghost use Rattle.c_expressions.specs.Descent as of;
ghost use Rattle.c_expressions.specs.Shown.{place, ShowsSpot};

use crate::fault::ParseFault;
use crate::operators::{is_key, is_name, is_sign};
use crate::spot::Spot;
use cc_model::{Keyword, Kind, Punct, Token};
use std::alloc::Global;

/// The greatest level of a token.
const DEEPEST: u32 = 200;

/// The tokens that are parsed. Each function reads one rule of the grammar from a place on, and gives what it read with
/// the place behind it.
#[derive(Drop)]
pub struct Parser<'a> {
    pub alloc: Global,
    pub tokens: &'a [Token],
    ghost few: { length tokens.now ≤ 1048576 },
}

impl Parser<'_> {
    /// The kind of the token there.
    pub fn kind(&self, at: u32) -> Option<Kind>
        ensures value { result ≡ kind_at self.now.tokens.now at }
        ensures within { IsSome result → at < 1048576 }
    {
        match self.tokens.get(at as usize) {
            Some(token) => Some(token.kind),
            None => None,
        }
    }

    /// Takes the token there, which stays open.
    #[tactic(auto, using(crate::proofs::Taken::take_deep, crate::proofs::Taken::take_opened))]
    pub fn take_open(&self, here: Spot) -> Result<Spot, ParseFault>
        requires { here.at < 1048576 }
        ensures shown { ShowsSpot (of.take (kind_at self.now.tokens.now) shallow opened) (place here) result }
        ensures next { IfOk result (λ t. (here.level ≤ 200) × (t.at ≡ here.at + 1) × (t.level ≡ here.level + 1)) }
    {
        if here.level > DEEPEST {
            return Err(ParseFault::TooDeep(here.at));
        }
        Ok(Spot {
            at: here.at + 1,
            level: here.level + 1,
        })
    }

    /// Takes the token there, which does not stay open.
    #[tactic(auto, using(crate::proofs::Taken::take_deep, crate::proofs::Taken::take_passed))]
    pub fn take_pass(&self, here: Spot) -> Result<Spot, ParseFault>
        requires { here.at < 1048576 }
        ensures shown { ShowsSpot (of.take (kind_at self.now.tokens.now) shallow passed) (place here) result }
        ensures next { IfOk result (λ t. (here.level ≤ 200) × (t.at ≡ here.at + 1) × (t.level ≡ here.level)) }
    {
        if here.level > DEEPEST {
            return Err(ParseFault::TooDeep(here.at));
        }
        Ok(Spot {
            at: here.at + 1,
            level: here.level,
        })
    }

    /// Takes the sign that has to stand there, and stays open.
    #[tactic(auto, using(crate::proofs::Taken::sign_bad, crate::proofs::Taken::sign_taken))]
    pub fn open(&self, sign: Punct, here: Spot) -> Result<Spot, ParseFault>
        ensures shown { ShowsSpot (of.expect (kind_at self.now.tokens.now) shallow sign opened) (place here) result }
        ensures next { IfOk result (λ t. (here.level ≤ 200) × (t.at ≡ here.at + 1) × (t.level ≡ here.level + 1)) }
    {
        if is_sign(sign, self.kind(here.at)) {
            self.take_open(here)
        } else {
            Err(ParseFault::Syntax(here.at))
        }
    }

    /// Takes the sign that has to stand there, and does not stay open.
    #[tactic(auto, using(crate::proofs::Taken::sign_bad, crate::proofs::Taken::sign_taken))]
    pub fn pass(&self, sign: Punct, here: Spot) -> Result<Spot, ParseFault>
        ensures shown { ShowsSpot (of.expect (kind_at self.now.tokens.now) shallow sign passed) (place here) result }
        ensures next { IfOk result (λ t. (here.level ≤ 200) × (t.at ≡ here.at + 1) × (t.level ≡ here.level)) }
    {
        if is_sign(sign, self.kind(here.at)) {
            self.take_pass(here)
        } else {
            Err(ParseFault::Syntax(here.at))
        }
    }

    /// Takes the closing bracket, comma or `;` that has to stand there, where `level` tokens are open.
    #[tactic(auto, unfolding(crate::specs::Descent::close))]
    pub fn close(&self, sign: Punct, here: Spot, level: u32) -> Result<Spot, ParseFault>
        ensures shown { ShowsSpot (of.close (kind_at self.now.tokens.now) shallow sign level) (place here) result }
        ensures next { IfOk result (λ t. (level ≤ 200) × (t.at ≡ here.at + 1) × (t.level ≡ level)) }
    {
        self.pass(sign, Spot { at: here.at, level })
    }

    /// Takes the word that has to stand there.
    #[tactic(auto, using(crate::proofs::Taken::key_bad, crate::proofs::Taken::key_taken))]
    pub fn word(&self, word: Keyword, here: Spot) -> Result<Spot, ParseFault>
        ensures shown { ShowsSpot (of.expect_key (kind_at self.now.tokens.now) shallow word) (place here) result }
        ensures next { IfOk result (λ t. (here.level ≤ 200) × (t.at ≡ here.at + 1) × (t.level ≡ here.level)) }
    {
        if is_key(word, self.kind(here.at)) {
            self.take_pass(here)
        } else {
            Err(ParseFault::Syntax(here.at))
        }
    }

    /// Takes the name that has to stand there.
    #[tactic(auto, using(crate::proofs::Taken::name_bad, crate::proofs::Taken::name_taken))]
    pub fn name(&self, here: Spot) -> Result<Spot, ParseFault>
        ensures shown { ShowsSpot (of.expect_name (kind_at self.now.tokens.now) shallow) (place here) result }
        ensures next { IfOk result (λ t. (here.level ≤ 200) × (t.at ≡ here.at + 1) × (t.level ≡ here.level)) }
    {
        if is_name(self.kind(here.at)) {
            self.take_pass(here)
        } else {
            Err(ParseFault::Syntax(here.at))
        }
    }
}
