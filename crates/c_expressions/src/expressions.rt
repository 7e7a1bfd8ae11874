//! Expressions.

ghost use Rattle.std.specs.Prelude.{◌≡◌, ℕ, ◌<◌, ◌≤◌, IfOk};
ghost use Rattle.cc_model.specs.Spots.{kind_at, shallow};
ghost use Rattle.c_expressions.specs.Descent as of;
ghost use Rattle.c_expressions.specs.Shown.{place, Shows, Steps, StepAt};

use crate::fault::ParseFault;
use crate::operators::{
    binary_in, is_sign, make_binary, make_field, make_prefix, prefix_in, start_in, step_in,
    with_first,
};
use crate::parser::Parser;
use crate::spot::Spot;
use crate::starts::{Start, Step};
use cc_model::{Expr, Punct};
use sqlite_items::{Boxed, Items};

/// The rank of a whole expression.
const WHOLE: u32 = 6;

impl Parser<'_> {
    /// The expression that stands there.
    pub fn expression(&self, spot: Spot) -> Result<(Expr, Spot), ParseFault>
        ensures shown { Shows (λ n. of.chain (kind_at self.now.tokens.now) shallow n 6) (place spot) result }
        ensures further { IfOk result (λ x. spot.level ≤ x.1.level) }
        ensures onward { IfOk result (λ x. spot.at ≤ x.1.at) }
    {
        self.chain(WHOLE, spot)
    }

    /// The expression of the rank that stands there: 6 is a whole one, 0 a unary one.
    #[cycle(descent)]
    fn chain(&self, rank: u32, spot: Spot) -> Result<(Expr, Spot), ParseFault>
        requires { rank ≤ 6 }
        ensures shown { Shows (λ n. of.chain (kind_at self.now.tokens.now) shallow n rank) (place spot) result }
        ensures further { IfOk result (λ x. spot.level ≤ x.1.level) }
        ensures onward { IfOk result (λ x. spot.at ≤ x.1.at) }
    {
        if rank == 0 {
            return self.unary(spot);
        }
        let (mut left, mut here) = self.chain(rank - 1, spot)?;
        while let Some(sign) = binary_in(rank, self.kind(here.at)) {
            let held = Boxed::new(self.alloc, left)?;
            let inner = self.take_open(here)?;
            let (right, after) = self.chain(rank - 1, inner)?;
            left = make_binary(self.alloc, sign, spot.at, here.at, held, right)?;
            here = after;
        }
        Ok((left, here))
    }

    /// The unary expression that stands there.
    #[cycle(descent)]
    pub fn unary(&self, spot: Spot) -> Result<(Expr, Spot), ParseFault>
        ensures shown { Shows (λ n. of.unary (kind_at self.now.tokens.now) shallow n) (place spot) result }
        ensures further { IfOk result (λ x. spot.level ≤ x.1.level) }
        ensures onward { IfOk result (λ x. spot.at ≤ x.1.at) }
    {
        let Some(sign) = prefix_in(self.kind(spot.at)) else {
            return self.postfix(spot);
        };
        let inner = self.take_open(spot)?;
        let (operand, after) = self.unary(inner)?;
        Ok((make_prefix(self.alloc, sign, spot.at, operand)?, after))
    }

    /// The postfix expression that stands there.
    #[cycle(descent)]
    pub fn postfix(&self, spot: Spot) -> Result<(Expr, Spot), ParseFault>
        ensures shown { Shows (λ n. of.postfix (kind_at self.now.tokens.now) shallow n) (place spot) result }
        ensures further { IfOk result (λ x. spot.level ≤ x.1.level) }
        ensures onward { IfOk result (λ x. spot.at ≤ x.1.at) }
    {
        let (mut value, mut here) = self.primary(spot)?;
        while let Some(step) = step_in(self.kind(here.at)) {
            let (longer, after) = self.step(step, spot.at, value, here)?;
            value = longer;
            here = after;
        }
        Ok((value, here))
    }

    /// The value, which begins at `first`, with the field or the index that stands there.
    #[cycle(descent)]
    fn step(
        &self,
        step: Step,
        first: u32,
        value: Expr,
        here: Spot,
    ) -> Result<(Expr, Spot), ParseFault>
        requires there { here.at < 1048576 }
        requires seen { StepAt step (kind_at self.now.tokens.now here.at) }
        ensures shown { Steps (λ e n. of.more (kind_at self.now.tokens.now) shallow n first e) value
            (place here) result }
        ensures further { IfOk result (λ x. (here.level < x.1.level) × (here.level ≤ 200)) }
        ensures onward { IfOk result (λ x. here.at ≤ x.1.at) }
    {
        let held = Boxed::new(self.alloc, value)?;
        let inner = self.take_open(here)?;
        match step {
            Step::Field(sign) => {
                let after = self.name(inner)?;
                Ok((make_field(sign, first, here.at, held, inner.at), after))
            }
            Step::Index => {
                let (index, end) = self.chain(WHOLE, inner)?;
                let index = Boxed::new(self.alloc, index)?;
                let after = self.close(Punct::CloseSquare, end, inner.level)?;
                Ok((Expr::Index(first, here.at, held, index), after))
            }
        }
    }

    /// The primary expression that stands there.
    #[cycle(descent)]
    fn primary(&self, spot: Spot) -> Result<(Expr, Spot), ParseFault>
        ensures shown { Shows (λ n. of.primary (kind_at self.now.tokens.now) shallow n) (place spot) result }
        ensures further { IfOk result (λ x. spot.level ≤ x.1.level) }
        ensures onward { IfOk result (λ x. spot.at ≤ x.1.at) }
    {
        match start_in(self.kind(spot.at)) {
            Start::Name => {
                let after = self.take_pass(spot)?;
                self.named(spot.at, after)
            }
            Start::Number(value) => {
                let after = self.take_pass(spot)?;
                Ok((Expr::Number(spot.at, spot.at, value), after))
            }
            Start::Null => {
                let after = self.take_pass(spot)?;
                Ok((Expr::Null(spot.at, spot.at), after))
            }
            Start::Malloc => self.allocated(spot.at, None, spot),
            Start::Paren => self.parens(spot),
            Start::Other => Err(ParseFault::Syntax(spot.at)),
        }
    }

    /// The `malloc` with a cast, or the expression in parentheses, that stands there.
    #[cycle(descent)]
    fn parens(&self, spot: Spot) -> Result<(Expr, Spot), ParseFault>
        requires there { spot.at < 1048576 }
        ensures shown { Shows (λ n. of.parens (kind_at self.now.tokens.now) shallow n) (place spot) result }
        ensures further { IfOk result (λ x. spot.level ≤ x.1.level) }
        ensures onward { IfOk result (λ x. spot.at ≤ x.1.at) }
    {
        if self.casts(spot) {
            return self.cast(spot);
        }
        let (value, after) = self.bracketed(spot)?;
        Ok((with_first(spot.at, value), after))
    }

    /// The name, or the call of it, where `here` is behind the name.
    #[cycle(descent)]
    fn named(&self, name: u32, here: Spot) -> Result<(Expr, Spot), ParseFault>
        ensures shown { Shows (λ n. of.named (kind_at self.now.tokens.now) shallow n name) (place here) result }
        ensures further { IfOk result (λ x. here.level ≤ x.1.level) }
        ensures onward { IfOk result (λ x. here.at ≤ x.1.at) }
    {
        if !is_sign(Punct::Open, self.kind(here.at)) {
            return Ok((Expr::Name(name, name), here));
        }
        let (args, after) = self.arguments(here)?;
        Ok((Expr::Call(name, name, args), after))
    }

    /// The expression in parentheses that stands there.
    #[cycle(descent)]
    pub fn bracketed(&self, spot: Spot) -> Result<(Expr, Spot), ParseFault>
        ensures shown { Shows (λ n. of.bracketed (kind_at self.now.tokens.now) shallow n) (place spot) result }
        ensures further { IfOk result (λ x. x.1.level ≡ spot.level) }
        ensures onward { IfOk result (λ x. spot.at ≤ x.1.at) }
    {
        let inner = self.open(Punct::Open, spot)?;
        let (value, end) = self.chain(WHOLE, inner)?;
        let value = Boxed::new(self.alloc, value)?;
        let after = self.close(Punct::Close, end, spot.level)?;
        Ok((value.into_inner(), after))
    }

    /// The arguments of a call in their parentheses that stand there.
    #[cycle(descent)]
    pub fn arguments(&self, spot: Spot) -> Result<(Items<Expr>, Spot), ParseFault>
        ensures shown { Shows (λ n. of.arguments (kind_at self.now.tokens.now) shallow n) (place spot) result }
        ensures further { IfOk result (λ x. spot.level ≤ x.1.level) }
        ensures onward { IfOk result (λ x. spot.at ≤ x.1.at) }
    {
        let inner = self.open(Punct::Open, spot)?;
        let (args, end) = self.args(inner)?;
        let after = self.close(Punct::Close, end, inner.level)?;
        Ok((args, after))
    }

    /// The arguments that stand there, up to the `)`.
    #[cycle(descent)]
    fn args(&self, spot: Spot) -> Result<(Items<Expr>, Spot), ParseFault>
        ensures shown { Shows (λ n. of.args (kind_at self.now.tokens.now) shallow n) (place spot) result }
        ensures onward { IfOk result (λ x. spot.at ≤ x.1.at) }
    {
        let mut items = Items::new(self.alloc);
        if is_sign(Punct::Close, self.kind(spot.at)) {
            return Ok((items, spot));
        }
        let (first, after) = self.chain(WHOLE, spot)?;
        items.push(first)?;
        let mut here = after;
        while is_sign(Punct::Comma, self.kind(here.at)) {
            let inner = self.close(Punct::Comma, here, spot.level)?;
            let (value, end) = self.chain(WHOLE, inner)?;
            items.push(value)?;
            here = end;
        }
        Ok((items, here))
    }
}
