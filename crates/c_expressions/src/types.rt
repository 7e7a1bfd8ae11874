//! The names of types, casts and `malloc`.

ghost use Rattle.std.specs.Prelude.{◌≡◌, ◌<◌, ◌≤◌, ◌-◌, IfOk};
ghost use Rattle.cc_model.specs.Spots as by;
ghost use Rattle.cc_model.specs.Spots.{kind_at, shallow};
ghost use Rattle.c_expressions.specs.Descent as of;
ghost use Rattle.c_expressions.specs.Descent.{got, Ends};
ghost use Rattle.c_expressions.specs.Shown.{place, Shows};

use crate::fault::ParseFault;
use crate::operators::{is_sign, type_start_in};
use crate::parser::Parser;
use crate::spot::Spot;
use crate::starts::TypeStart;
use cc_model::trees::{Base, TypeName};
use cc_model::{Expr, Keyword, Punct};

impl Parser<'_> {
    /// The name of a type that stands there.
    pub fn base_type(&self, spot: Spot) -> Result<(Base, Spot), ParseFault>
        ensures shown { Shows (λ _. of.base_type (kind_at self.now.tokens.now) shallow) (place spot) result }
        ensures onward { IfOk result (λ x. (spot.at ≤ x.1.at) × (x.1.level ≡ spot.level)) }
    {
        match type_start_in(self.kind(spot.at)) {
            TypeStart::Int => {
                let after = self.take_pass(spot)?;
                Ok((Base::Int, after))
            }
            TypeStart::Struct => {
                let tag = self.take_pass(spot)?;
                let after = self.name(tag)?;
                Ok((Base::Struct(tag.at), after))
            }
            TypeStart::Alias => {
                let after = self.take_pass(spot)?;
                Ok((Base::Alias(spot.at), after))
            }
            TypeStart::Other => Err(ParseFault::Syntax(spot.at)),
        }
    }

    /// The number of stars that stand there. Behind them none of them is open.
    #[cycle(stars)]
    pub fn stars(&self, spot: Spot) -> Result<(u32, Spot), ParseFault>
        ensures shown { Shows (λ n. of.stars (kind_at self.now.tokens.now) shallow n) (place spot) result }
        ensures onward { IfOk result (λ x. (spot.at ≤ x.1.at) × (x.1.level ≡ spot.level) × (x.0 ≤ 201 - spot.level)) }
    {
        if !is_sign(Punct::Star, self.kind(spot.at)) {
            return Ok((0, spot));
        }
        let inner = self.take_open(spot)?;
        let (count, end) = self.stars(inner)?;
        let after = Spot {
            at: end.at,
            level: spot.level,
        };
        Ok((count + 1, after))
    }

    /// The type with its stars that stands there.
    pub fn type_name(&self, spot: Spot) -> Result<(TypeName, Spot), ParseFault>
        ensures shown { Shows (λ n. of.type_name (kind_at self.now.tokens.now) shallow n) (place spot) result }
        ensures onward { IfOk result (λ x. (spot.at ≤ x.1.at) × (x.1.level ≡ spot.level)) }
    {
        let (base, here) = self.base_type(spot)?;
        let (stars, after) = self.stars(here)?;
        Ok((TypeName { base, stars }, after))
    }

    /// `sizeof` with a type in parentheses.
    fn sized(&self, spot: Spot) -> Result<(TypeName, Spot), ParseFault>
        ensures shown { Shows (λ n. of.sized (kind_at self.now.tokens.now) shallow n) (place spot) result }
        ensures onward { IfOk result (λ x. (spot.at ≤ x.1.at) × (x.1.level ≡ spot.level)) }
    {
        let bracket = self.word(Keyword::Sizeof, spot)?;
        let inner = self.open(Punct::Open, bracket)?;
        let (named, end) = self.type_name(inner)?;
        let after = self.close(Punct::Close, end, spot.level)?;
        Ok((named, after))
    }

    /// `malloc` with its `sizeof` in parentheses.
    fn allocation(&self, spot: Spot) -> Result<(TypeName, Spot), ParseFault>
        ensures shown { Shows (λ n. of.allocation (kind_at self.now.tokens.now) shallow n) (place spot) result }
        ensures onward { IfOk result (λ x. (spot.at ≤ x.1.at) × (x.1.level ≡ spot.level)) }
    {
        let bracket = self.word(Keyword::Malloc, spot)?;
        let inner = self.open(Punct::Open, bracket)?;
        let (named, end) = self.sized(inner)?;
        let after = self.close(Punct::Close, end, spot.level)?;
        Ok((named, after))
    }

    /// The `malloc` that stands there, of an expression that begins at `first`, with the type of its cast.
    pub fn allocated(
        &self,
        first: u32,
        cast: Option<TypeName>,
        spot: Spot,
    ) -> Result<(Expr, Spot), ParseFault>
        ensures shown { Shows (λ n. of.allocated (kind_at self.now.tokens.now) shallow n first cast)
            (place spot) result }
        ensures onward { IfOk result (λ x. (spot.at ≤ x.1.at) × (x.1.level ≡ spot.level)) }
    {
        let (named, after) = self.allocation(spot)?;
        Ok((Expr::Malloc(first, spot.at, cast, named), after))
    }

    /// The parentheses of a cast.
    fn cast_type(&self, spot: Spot) -> Result<(TypeName, Spot), ParseFault>
        ensures shown { Shows (λ n. of.cast_type (kind_at self.now.tokens.now) shallow n) (place spot) result }
        ensures onward { IfOk result (λ x. (spot.at ≤ x.1.at) × (x.1.level ≡ spot.level)) }
    {
        let inner = self.open(Punct::Open, spot)?;
        let (base, star) = self.base_type(inner)?;
        let more = self.open(Punct::Star, star)?;
        let (count, end) = self.stars(more)?;
        let after = self.close(Punct::Close, end, spot.level)?;
        let stars = count + 1;
        Ok((TypeName { base, stars }, after))
    }

    /// `malloc` with a cast.
    pub fn cast(&self, spot: Spot) -> Result<(Expr, Spot), ParseFault>
        ensures shown { Shows (λ n. of.cast (kind_at self.now.tokens.now) shallow n) (place spot) result }
        ensures onward { IfOk result (λ x. (spot.at ≤ x.1.at) × (x.1.level ≡ spot.level)) }
    {
        let (named, word) = self.cast_type(spot)?;
        self.allocated(spot.at, Some(named), word)
    }

    /// Whether a `)` stands behind the stars from there on.
    fn closes(&self, from: u32) -> bool
        ensures shown { (s : by.Spot) → Ends (λ n. of.closes (kind_at self.now.tokens.now) shallow n from) s
            (got result s) }
    {
        let mut at = from;
        while is_sign(Punct::Star, self.kind(at)) {
            at += 1;
        }
        is_sign(Punct::Close, self.kind(at))
    }

    /// Whether the `(` there begins a cast.
    pub fn casts(&self, spot: Spot) -> bool
        requires { spot.at < 1048576 }
        ensures shown { Ends (λ n. of.casts (kind_at self.now.tokens.now) shallow n) (place spot)
            (got result (place spot)) }
    {
        match type_start_in(self.kind(spot.at + 1)) {
            TypeStart::Int => true,
            TypeStart::Struct => true,
            TypeStart::Alias => {
                is_sign(Punct::Star, self.kind(spot.at + 2)) && self.closes(spot.at + 2)
            }
            TypeStart::Other => false,
        }
    }
}
