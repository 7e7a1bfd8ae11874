//! What a checked program tells of the tokens of one of its functions.

ghost use Rattle.std.specs.Prelude.{◌≡◌, ◌<◌, length, slice_get, position, nat_eq};
ghost use Rattle.cc_model.specs.declared.checked.SiteKind.{SiteKind};
ghost use Rattle.cc_model.specs.Core.{local, global};
ghost use Rattle.cc_model.specs.CheckedProgram.{name_at, cells_at, layout_at, facts_in, expression_type, target_id};
ghost use Rattle.cc_model.specs.CheckedProgram.{array_length, element_id, is_void_ty};
ghost use Rattle.cc_model.specs.CheckedProgram.{expression_tokens};
ghost use Rattle.cc_model.specs.Resolve.{slot_named, function_named, offset_named, variable_named};
ghost use Rattle.tac_lower.specs.Tables.{AreTables, facts_of, site_for};
ghost use Rattle.tac_lower.specs.Variables.{variable_place};
ghost use Rattle.tac_lower.specs.Seen.{site_token};
ghost use Rattle.tac_lower.specs.Adding.{HasSite};
ghost use Rattle.tac_lower.specs.Emitted.{line_in};

use crate::emit::short;
use cc_model::base::{Items, TyId};
use cc_model::{Checked, SiteId, SiteKind, Target, Ty};

/// The sites at a token, by kind.
#[derive(Clone, Copy)]
pub struct SitesAt {
    pub decision: SiteId,
    pub divisor: SiteId,
    pub fit: SiteId,
    pub index: SiteId,
    pub access: SiteId,
}

/// What is looked up by a token's index, and the first cell of each global.
#[derive(Drop)]
pub struct Tables {
    /// The number of the expression at each token.
    pub numbers: Items<Option<u32>>,
    /// The sites at each token.
    pub sites: Items<SitesAt>,
    /// The first cell of each global.
    pub cells: Items<u32>,
    /// The number of cells of all globals.
    pub all_cells: u32,
}

/// A variable: the slot of a local, or the first cell of a global.
#[derive(Clone, Copy)]
pub enum Variable {
    Local(u32),
    Global(u32),
}

/// What a checked program tells of the tokens of a function.
#[derive(Clone, Copy)]
pub struct Known<'a> {
    pub checked: &'a Checked,
    pub function: u32,
    pub tables: &'a Tables,
    ghost right: { AreTables checked.now tables.now },
}

/// What the name at a token means.
pub fn name(checked: &Checked, t: u32) -> Option<Target>
    ensures { result ≡ name_at checked.now t }
{
    match checked.names.get(t as usize) {
        Some(name) => *name,
        None => None,
    }
}

impl Known<'_> {
    /// What the name at a token means.
    pub fn name(&self, t: u32) -> Option<Target>
        ensures { result ≡ name_at self.now.checked.now t }
    {
        name(self.checked, t)
    }

    /// The slot of the local that the name at a token means.
    pub fn slot_at(&self, t: u32) -> u32
        ensures { result ≡ slot_named (name_at self.now.checked.now t) }
    {
        match self.name(t) {
            Some(Target::Local(slot)) => slot,
            _ => 0,
        }
    }

    /// The line of a token.
    pub fn line_at(&self, t: u32) -> u32
        ensures { result ≡ line_in self.now.checked.now t }
    {
        match self.checked.lines.get(t as usize) {
            Some(line) => *line,
            None => 0,
        }
    }

    /// The type of the variable that a declarator's name at a token declares.
    #[tactic(auto, unfolding(crate::specs::Tables::facts_of))]
    pub fn declared_at(&self, t: u32) -> TyId
        ensures { layout_at self.now.checked.now result.0
            ≡ (facts_of self.now.checked.now self.now.function).declared t }
    {
        let Some(sig) = self.checked.funcs.get(self.function as usize) else {
            return TyId(0);
        };
        let Some(Target::Local(slot)) = self.name(t) else {
            return TyId(0);
        };
        match sig.slots.get(slot as usize) {
            Some(ty) => *ty,
            None => TyId(0),
        }
    }

    /// The function that the name at a token means.
    pub fn function_at(&self, t: u32) -> u32
        ensures { result ≡ function_named (name_at self.now.checked.now t) }
    {
        match self.name(t) {
            Some(Target::Func(number)) => number,
            _ => 0,
        }
    }

    /// The offset of the field that the name at a token means.
    pub fn offset_at(&self, t: u32) -> u32
        ensures { result ≡ offset_named (name_at self.now.checked.now t) }
    {
        match self.name(t) {
            Some(Target::Field(cells)) => cells,
            _ => 0,
        }
    }

    /// The first cell of a global.
    #[tactic(auto, unfolding(crate::specs::Tables::facts_of))]
    fn first_cell(&self, number: u32) -> u32
        ensures { result ≡ (facts_of self.now.checked.now self.now.function).global_cells number }
    {
        match self.tables.cells.get(number as usize) {
            Some(cell) => *cell,
            None => self.tables.all_cells,
        }
    }

    /// The variable that the name at a token means.
    #[tactic(auto, unfolding(crate::specs::Tables::facts_of))]
    pub fn variable_at(&self, t: u32) -> Variable
        ensures { variable_place result ≡ variable_named (facts_of self.now.checked.now self.now.function)
            (name_at self.now.checked.now t) }
    {
        match self.name(t) {
            Some(Target::Local(slot)) => Variable::Local(slot),
            Some(Target::Global(number)) => Variable::Global(self.first_cell(number)),
            _ => Variable::Global(0),
        }
    }

    /// The number of the expression at a token.
    fn number_at(&self, t: u32) -> Option<u32>
        ensures { result ≡ position (nat_eq t) (expression_tokens (self.now.checked.now.program).items) }
    {
        match self.tables.numbers.get(t as usize) {
            Some(number) => *number,
            None => None,
        }
    }

    /// The type of the expression at a token, or of the one that is so many numbers behind it.
    fn type_at(&self, t: u32, behind: usize) -> Option<Ty>
        requires { behind < 2 }
        ensures { result ≡ expression_type self.now.checked.now
            (expression_tokens (self.now.checked.now.program).items) t behind }
    {
        let number = self.number_at(t)?;
        let ty = self.checked.expr_tys.get(number as usize + behind)?;
        let ty = self.checked.tys.get(ty.0 as usize)?;
        Some(*ty)
    }

    /// What a `malloc` makes, by its word.
    #[tactic(auto, unfolding(crate::specs::Tables::facts_of))]
    pub fn made_at(&self, t: u32) -> TyId
        ensures { layout_at self.now.checked.now result.0 ≡ (facts_of self.now.checked.now self.now.function).made t }
    {
        match self.type_at(t, 0) {
            Some(Ty::Ptr(target)) => target,
            _ => TyId(0),
        }
    }

    /// The length of the array that an index goes into, by its `[`.
    #[tactic(auto, unfolding(crate::specs::Tables::facts_of))]
    pub fn length_at(&self, t: u32) -> u32
        ensures { result ≡ (facts_of self.now.checked.now self.now.function).lengths t }
    {
        match self.type_at(t, 1) {
            Some(Ty::Array(_, length)) => length,
            _ => 0,
        }
    }

    /// The number of cells of that array's element, where it fits 32 bits.
    #[tactic(auto, unfolding(crate::specs::Tables::facts_of))]
    pub fn width_at(&self, t: u32) -> u32
        ensures { (facts_of self.now.checked.now self.now.function).widths t < 4294967296
            → result ≡ (facts_of self.now.checked.now self.now.function).widths t }
    {
        match self.type_at(t, 1) {
            Some(Ty::Array(element, _)) => self.cells_in(element.0),
            _ => self.cells_in(0),
        }
    }

    /// The number of cells of a type, where it fits 32 bits.
    fn cells_in(&self, ty: u32) -> u32
        ensures { length (cells_at self.now.checked.now ty) < 4294967296
            → result ≡ length (cells_at self.now.checked.now ty) }
    {
        match self.checked.layouts.get(ty as usize) {
            Some(layout) => short(layout.len()),
            None => 0,
        }
    }

    /// Whether the number at a token stands for NULL.
    #[tactic(auto, unfolding(crate::specs::Tables::facts_of))]
    pub fn is_null(&self, t: u32) -> bool
        ensures { result ≡ (facts_of self.now.checked.now self.now.function).is_null t }
    {
        matches!(self.type_at(t, 0), Some(Ty::Void))
    }

    /// The site of the kind at a token, where there is one.
    pub fn site_at(&self, kind: SiteKind, t: u32) -> SiteId
        ensures { HasSite self.now.checked.now kind t → site_token self.now.checked.now kind result ≡ t }
    {
        match self.tables.sites.get(t as usize) {
            None => SiteId(0),
            Some(sites) => site_for(kind, *sites),
        }
    }
}

/// The site of the kind.
fn site_for(kind: SiteKind, sites: SitesAt) -> SiteId
    ensures { result ≡ site_for kind sites }
{
    match kind {
        SiteKind::Decision => sites.decision,
        SiteKind::Divisor => sites.divisor,
        SiteKind::Fit => sites.fit,
        SiteKind::Index => sites.index,
        SiteKind::Access => sites.access,
    }
}
