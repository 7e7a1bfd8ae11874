//! The instructions on memory.

ghost use Rattle.std.specs.Prelude.{◌≡◌, ◌+◌, ◌<◌, true, false, suc, Some, slice_set, IfOk, OnOk};
ghost use Rattle.cc_model.specs.CheckedProgram.{layout_at};
ghost use Rattle.cc_model.specs.Instructions.{i_load, i_store, i_take, i_local, i_malloc, i_access};
ghost use Rattle.tac_lower.specs.Seen.{site_token};
ghost use Rattle.sym_run.specs.Acting.{access_end};
ghost use Rattle.sym_run.specs.Stands.{Setting, setting, Did};

use crate::access::layout_at;
use crate::acted::Acted;
use crate::machine::{Fixed, Machine};
use cc_model::base::{End, FaultKind, NoMemory, Outcome, TyId};
use cc_model::{SiteId, SiteKind};
use checked_memory::Cell;

/// How a run ends at an access, where `objects` input objects may be accessed; None where it goes on.
fn access_end(outcome: Outcome, objects: u8, line: u32) -> Option<End>
    ensures { result ≡ access_end outcome objects (End.Fault FaultKind.Null line) }
{
    match outcome {
        Outcome::Zero => Some(End::Fault(FaultKind::Null, line)),
        Outcome::Object(rank) => {
            if rank < objects {
                None
            } else {
                Some(End::Objects)
            }
        }
        Outcome::High => None,
        Outcome::Low => None,
        Outcome::Plain => None,
        Outcome::False => None,
        Outcome::True => None,
    }
}

impl Machine {
    /// What a pointer points to into a temporary. No memory, too, where that isn't there.
    pub(crate) fn load(&mut self, dst: u32, pointer: u32) -> Result<Option<End>, NoMemory>
        ensures { IfOk result (λ end. (w : Setting) → Did w self.old self.new (i_load dst pointer) end) }
    {
        let at = self.temp(pointer)?;
        match self.objects.load(at) {
            None => Err(NoMemory),
            Some(cell) => {
                self.give(dst, cell)?;
                Ok(None)
            }
        }
    }

    /// A temporary to where a pointer points. No memory, too, where that isn't there.
    pub(crate) fn store(&mut self, pointer: u32, source: u32) -> Result<Option<End>, NoMemory>
        ensures { IfOk result (λ end. (w : Setting) → Did w self.old self.new (i_store pointer source) end) }
    {
        let at = self.temp(pointer)?;
        let cell = self.temp(source)?;
        self.objects.store(at, cell)?;
        self.advance()?;
        Ok(None)
    }

    /// The next number of the stream to where a pointer points. No memory, too, where that isn't there.
    pub(crate) fn take(&mut self, fixed: &Fixed<'_>, pointer: u32) -> Result<Option<End>, NoMemory>
        ensures { IfOk result (λ end. Did (setting fixed.now.checked.now fixed.now.tac.now fixed.now.bounds.now
            fixed.now.input.now) self.old self.new (i_take pointer) end) }
    {
        let at = self.temp(pointer)?;
        let base = fixed.bounds.base();
        self.objects.take(&mut self.symbols, fixed.input, base, at)?;
        self.advance()?;
        Ok(None)
    }

    /// Takes so many steps; false where fewer are left.
    fn spend(&mut self, count: usize) -> bool
        ensures enough { result ≡ true → self.old.steps ≡ count + self.new.steps }
        ensures fewer { result ≡ false → self.old.steps < count }
        ensures kept { self.new ≡ record self.old { steps = self.new.steps } }
    {
        if (self.steps as usize) < count {
            return false;
        }
        self.steps -= count as u32;
        true
    }

    /// Puts a pointer into a slot. No memory, too, where there is no such slot.
    pub(crate) fn bind(&mut self, slot: u32, pointer: Cell) -> Result<(), NoMemory>
        ensures { OnOk result (self.new ≡ record self.old { slots = slice_set self.old.slots slot (Some pointer) }) }
    {
        if slot as usize >= self.slots.len() {
            return Err(NoMemory);
        }
        self.slots.set(slot as usize, Some(pointer));
        Ok(())
    }

    /// A new object of a type, with a step for each cell, for a local.
    pub(crate) fn local(
        &mut self,
        fixed: &Fixed<'_>,
        slot: u32,
        ty: TyId,
    ) -> Result<Option<End>, NoMemory>
        ensures { IfOk result (λ end. Did (setting fixed.now.checked.now fixed.now.tac.now fixed.now.bounds.now
            fixed.now.input.now) self.old self.new (i_local slot (layout_at fixed.now.checked.now ty.0)) end) }
    {
        let cells = layout_at(fixed.checked.layouts.as_slice(), ty);
        if !self.spend(cells.len()) {
            return Ok(Some(End::Steps));
        }
        let pointer = self.objects.make(fixed.alloc, cells)?;
        self.bind(slot, pointer)?;
        self.advance()?;
        Ok(None)
    }

    /// A new object of a type, with a step for each cell; a pointer to it into a temporary.
    pub(crate) fn malloc(
        &mut self,
        fixed: &Fixed<'_>,
        dst: u32,
        ty: TyId,
    ) -> Result<Option<End>, NoMemory>
        ensures { IfOk result (λ end. Did (setting fixed.now.checked.now fixed.now.tac.now fixed.now.bounds.now
            fixed.now.input.now) self.old self.new (i_malloc dst (layout_at fixed.now.checked.now ty.0)) end) }
    {
        let cells = layout_at(fixed.checked.layouts.as_slice(), ty);
        if !self.spend(cells.len()) {
            return Ok(Some(End::Steps));
        }
        let pointer = self.objects.make(fixed.alloc, cells)?;
        self.give(dst, pointer)?;
        Ok(None)
    }

    /// An access through a pointer: the object that it reaches into a temporary.
    pub(crate) fn access(
        &mut self,
        fixed: &Fixed<'_>,
        site: SiteId,
        dst: u32,
        pointer: u32,
    ) -> Result<Option<End>, NoMemory>
        ensures { IfOk result (λ end. Did (setting fixed.now.checked.now fixed.now.tac.now fixed.now.bounds.now
            fixed.now.input.now) self.old self.new
            (i_access (site_token fixed.now.checked.now SiteKind.Access site) dst pointer) end) }
    {
        let at = self.temp(pointer)?;
        if self.events_left == 0 {
            return Ok(Some(End::Cut));
        }
        let token = fixed.token(site, SiteKind::Access)?;
        let _low = fixed.bounds.lo();
        let _high = fixed.bounds.hi();
        let places = self.objects.places.len();
        let layouts = fixed.checked.layouts.as_slice();
        let acted = self
            .objects
            .access(fixed.alloc, &mut self.symbols, layouts, fixed.input, at)?;
        let Acted {
            outcome,
            asked,
            cell,
        } = acted;
        self.happen(fixed.alloc, site, outcome, asked, places)?;
        match access_end(outcome, fixed.bounds.objects(), fixed.line(token)) {
            Some(end) => Ok(Some(end)),
            None => {
                self.give(dst, cell)?;
                Ok(None)
            }
        }
    }
}
