//! The instructions with events on numbers, and decisions.

ghost use Rattle.std.specs.Prelude.{◌≡◌, suc, IfOk};
ghost use Rattle.cc_model.specs.Instructions.{i_arith, i_divisor, i_negate, i_index, i_compare, i_truth, i_offset};
ghost use Rattle.tac_lower.specs.Seen.{site_token, comparison as seen_comparison};
ghost use Rattle.sym_run.specs.Numbers.{op_of, cmp_of};
ghost use Rattle.sym_run.specs.Stands.{Setting, setting, Did};

use crate::acted::Acted;
use crate::decisions::test;
use crate::events::Spot;
use crate::machine::{Fixed, Machine};
use crate::number_acts::{arithmetic, divide_check, index, moved, negate};
use crate::numbers::{Comparison, Operation};
use cc_model::base::{End, FaultKind, NoMemory};
use cc_model::{SiteId, SiteKind};
use checked_memory::Cell;

/// A comparison of the code.
fn comparison_of(comparison: tac_lower::Comparison) -> Comparison
    ensures { cmp_of result ≡ seen_comparison comparison }
{
    match comparison {
        tac_lower::Comparison::Equal => Comparison::Equal,
        tac_lower::Comparison::Unequal => Comparison::Unequal,
        tac_lower::Comparison::Less => Comparison::Less,
        tac_lower::Comparison::Greater => Comparison::Greater,
        tac_lower::Comparison::AtMost => Comparison::AtMost,
        tac_lower::Comparison::AtLeast => Comparison::AtLeast,
    }
}

impl Machine {
    /// A sum or its kin into a temporary.
    pub(crate) fn arith(
        &mut self,
        fixed: &Fixed<'_>,
        site: SiteId,
        operation: Operation,
        dst: u32,
        a: u32,
        b: u32,
    ) -> Result<Option<End>, NoMemory>
        ensures { IfOk result (λ end. Did (setting fixed.now.checked.now fixed.now.tac.now fixed.now.bounds.now
            fixed.now.input.now) self.old self.new
            (i_arith (site_token fixed.now.checked.now SiteKind.Fit site) (op_of operation) dst a b) end) }
    {
        let left = self.temp(a)?;
        let right = self.temp(b)?;
        let acted = arithmetic(fixed.alloc, &mut self.symbols, operation, left, right)?;
        let spot = Spot {
            site,
            kind: SiteKind::Fit,
            fault: FaultKind::Overflow,
        };
        self.settle(fixed, spot, Some(dst), acted)
    }

    /// The check of a divisor.
    pub(crate) fn divisor(
        &mut self,
        fixed: &Fixed<'_>,
        site: SiteId,
        a: u32,
        b: u32,
    ) -> Result<Option<End>, NoMemory>
        ensures { IfOk result (λ end. Did (setting fixed.now.checked.now fixed.now.tac.now fixed.now.bounds.now
            fixed.now.input.now) self.old self.new
            (i_divisor (site_token fixed.now.checked.now SiteKind.Divisor site) a b) end) }
    {
        let left = self.temp(a)?;
        let right = self.temp(b)?;
        let decided = divide_check(&self.symbols, left, right);
        let acted = Acted {
            outcome: decided.outcome,
            asked: decided.asked,
            cell: right,
        };
        let spot = Spot {
            site,
            kind: SiteKind::Divisor,
            fault: FaultKind::Divide,
        };
        self.settle(fixed, spot, None, acted)
    }

    /// The opposite of a number into a temporary.
    pub(crate) fn opposite(
        &mut self,
        fixed: &Fixed<'_>,
        site: SiteId,
        dst: u32,
        a: u32,
    ) -> Result<Option<End>, NoMemory>
        ensures { IfOk result (λ end. Did (setting fixed.now.checked.now fixed.now.tac.now fixed.now.bounds.now
            fixed.now.input.now) self.old self.new
            (i_negate (site_token fixed.now.checked.now SiteKind.Fit site) dst a) end) }
    {
        let cell = self.temp(a)?;
        let acted = negate(fixed.alloc, &mut self.symbols, cell)?;
        let spot = Spot {
            site,
            kind: SiteKind::Fit,
            fault: FaultKind::Overflow,
        };
        self.settle(fixed, spot, Some(dst), acted)
    }

    /// An element of an array into a temporary. No memory, too, where the pointer is into no object that the run has
    /// met.
    pub(crate) fn element(
        &mut self,
        fixed: &Fixed<'_>,
        site: SiteId,
        dst: u32,
        pointer: u32,
        i: u32,
        length: u32,
        width: u32,
    ) -> Result<Option<End>, NoMemory>
        ensures { IfOk result (λ end. Did (setting fixed.now.checked.now fixed.now.tac.now fixed.now.bounds.now
            fixed.now.input.now) self.old self.new
            (i_index (site_token fixed.now.checked.now SiteKind.Index site) dst pointer i length width) end) }
    {
        let base = self.temp(pointer)?;
        let number = self.temp(i)?;
        if !self.objects.is_inside(base.value) {
            return Err(NoMemory);
        }
        let acted = index(&self.symbols, base, number, length, width)?;
        let spot = Spot {
            site,
            kind: SiteKind::Index,
            fault: FaultKind::Index,
        };
        self.settle(fixed, spot, Some(dst), acted)
    }

    /// A pointer some cells further into a temporary. No memory, too, where the pointer is into no object that the run
    /// has met.
    pub(crate) fn offset(
        &mut self,
        dst: u32,
        pointer: u32,
        by: u32,
    ) -> Result<Option<End>, NoMemory>
        ensures { IfOk result (λ end. (w : Setting) → Did w self.old self.new (i_offset dst pointer by) end) }
    {
        let base = self.temp(pointer)?;
        if !self.objects.is_inside(base.value) {
            return Err(NoMemory);
        }
        let value = moved(base.value, by)?;
        self.give(dst, Cell { value, shadow: 0 })?;
        Ok(None)
    }

    /// A comparison, as 1 or 0, into a temporary.
    pub(crate) fn comparison(
        &mut self,
        fixed: &Fixed<'_>,
        site: SiteId,
        comparison: tac_lower::Comparison,
        dst: u32,
        a: u32,
        b: u32,
    ) -> Result<Option<End>, NoMemory>
        ensures { IfOk result (λ end. Did (setting fixed.now.checked.now fixed.now.tac.now fixed.now.bounds.now
            fixed.now.input.now) self.old self.new
            (i_compare (site_token fixed.now.checked.now SiteKind.Decision site)
            (seen_comparison comparison) dst a b) end) }
    {
        let left = self.temp(a)?;
        let right = self.temp(b)?;
        let comparison = comparison_of(comparison);
        let decided = self
            .objects
            .compare(fixed.alloc, &self.symbols, comparison, left, right)?;
        self.decide(fixed, site, dst, decided)
    }

    /// A test, as 1 or 0, into a temporary.
    pub(crate) fn truth(
        &mut self,
        fixed: &Fixed<'_>,
        site: SiteId,
        dst: u32,
        a: u32,
    ) -> Result<Option<End>, NoMemory>
        ensures { IfOk result (λ end. Did (setting fixed.now.checked.now fixed.now.tac.now fixed.now.bounds.now
            fixed.now.input.now) self.old self.new
            (i_truth (site_token fixed.now.checked.now SiteKind.Decision site) dst a) end) }
    {
        let cell = self.temp(a)?;
        let decided = test(fixed.alloc, &self.symbols, cell)?;
        self.decide(fixed, site, dst, decided)
    }
}
