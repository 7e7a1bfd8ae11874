//! What is said of the parts of a function's body that are no statements: parameters and declarations.

ghost use Rattle.std.specs.Prelude.{◌≡◌, ◌++◌, OnOk};
ghost use Rattle.cc_model.specs.Source.{text_at};
ghost use Rattle.cc_model.specs.Typing as typing;
ghost use Rattle.cc_model.specs.Faults as faults;
ghost use Rattle.c_scopes.specs.Places as places;
ghost use Rattle.c_scopes.specs.Places.{place, Leads};

use crate::bodies::Body;
use c_scopes::inside::Inside;
use cc_model::base::NoMemory;
use cc_model::trees::{Base, Declarator, Declared, Head, Initializer, Param};
use cc_model::typing::{CType, Note};
use sqlite_items::Items;

impl Body<'_> {
    /// The initialiser of a variable.
    fn start(
        &self,
        start: &Option<Initializer>,
        ty: &Option<CType>,
        inside: &Inside,
        notes: &mut Items<Note>,
    ) -> Result<(), NoMemory>
        ensures { OnOk result (notes.new ≡ notes.old
            ++ faults.start_notes (typing.judged (text_at self.now.view.source.now self.now.view.tokens.now))
            (text_at self.now.view.source.now self.now.view.tokens.now) self.now.view.file.now self.now.view.before.now
            self.now.gives.now start.now ty.now (place inside.now)) }
    {
        let view = self.with_scopes(inside.scopes.as_slice());
        view.start(start, ty, notes)
    }

    /// The declarator of the next local.
    fn local(
        &self,
        base: Base,
        declarator: &Declarator,
        ty: &Option<CType>,
        inside: &Inside,
        notes: &mut Items<Note>,
    ) -> Result<(), NoMemory>
        ensures { OnOk result (notes.new ≡ notes.old
            ++ faults.local_notes (typing.judged (text_at self.now.view.source.now self.now.view.tokens.now))
            (text_at self.now.view.source.now self.now.view.tokens.now) self.now.view.file.now self.now.view.before.now
            self.now.gives.now base declarator.now ty.now (place inside.now)) }
    {
        let view = self.with_scopes(inside.scopes.as_slice());
        view.local(inside.next, base, declarator, ty, notes)
    }

    /// A parameter, by its type.
    fn param_typed(
        &self,
        param: Param,
        ty: &Option<CType>,
        inside: &Inside,
        notes: &mut Items<Note>,
    ) -> Result<(), NoMemory>
        ensures { OnOk result (notes.new ≡ notes.old
            ++ faults.param_notes (text_at self.now.view.source.now self.now.view.tokens.now) self.now.view.file.now
            self.now.view.before.now param ty.now (place inside.now)) }
    {
        let view = self.with_scopes(inside.scopes.as_slice());
        view.param(inside.next, param, ty, notes)
    }

    /// A parameter, which is declared behind it.
    fn param(
        &self,
        param: Param,
        inside: &mut Inside,
        notes: &mut Items<Note>,
    ) -> Result<(), NoMemory>
        ensures { OnOk result (Leads (places.param_of
            (text_at self.now.view.source.now self.now.view.tokens.now) self.now.view.file.now self.now.view.before.now
            param) inside.old inside.new notes.old notes.new) }
    {
        let ty = self.view.param_type(param.ty);
        self.param_typed(param, &ty, inside, notes)?;
        inside.declare(self.view.alloc, self.view.text(param.name), &ty)
    }

    /// The parameters, which stand in the scope of the outermost block.
    pub fn params(
        &self,
        params: &[Param],
        inside: &mut Inside,
        notes: &mut Items<Note>,
    ) -> Result<(), NoMemory>
        ensures { OnOk result (Leads (faults.params_of
            (text_at self.now.view.source.now self.now.view.tokens.now) self.now.view.file.now self.now.view.before.now
            params.now) inside.old inside.new notes.old notes.new) }
    {
        for param in params {
            self.param(*param, inside, notes)?;
        }
        Ok(())
    }

    /// A declarator with its initialiser, which sees the variable already.
    fn declared(
        &self,
        base: Base,
        part: &Declared,
        inside: &mut Inside,
        notes: &mut Items<Note>,
    ) -> Result<(), NoMemory>
        ensures { OnOk result (Leads (faults.declared_of
            (typing.judged (text_at self.now.view.source.now self.now.view.tokens.now))
            (text_at self.now.view.source.now self.now.view.tokens.now) self.now.view.file.now self.now.view.before.now
            self.now.gives.now base part.now) inside.old inside.new notes.old notes.new) }
    {
        let ty = self.view.declared_type(base, &part.declarator)?;
        self.local(base, &part.declarator, &ty, inside, notes)?;
        let name = self.view.text(part.declarator.name);
        inside.declare(self.view.alloc, name, &ty)?;
        self.start(&part.initializer, &ty, inside, notes)
    }

    /// The declarators of a declaration.
    pub fn declareds(
        &self,
        base: Base,
        parts: &[Declared],
        inside: &mut Inside,
        notes: &mut Items<Note>,
    ) -> Result<(), NoMemory>
        ensures { OnOk result (Leads (faults.declareds_of
            (typing.judged (text_at self.now.view.source.now self.now.view.tokens.now))
            (text_at self.now.view.source.now self.now.view.tokens.now) self.now.view.file.now self.now.view.before.now
            self.now.gives.now base parts.now) inside.old inside.new notes.old notes.new) }
    {
        for part in parts {
            self.declared(base, part, inside, notes)?;
        }
        Ok(())
    }

    /// What stands before the first `;` of a `for`.
    pub fn head(
        &self,
        head: &Head,
        inside: &mut Inside,
        notes: &mut Items<Note>,
    ) -> Result<(), NoMemory>
        ensures { OnOk result (Leads (faults.head_of
            (typing.judged (text_at self.now.view.source.now self.now.view.tokens.now))
            (text_at self.now.view.source.now self.now.view.tokens.now) self.now.view.file.now self.now.view.before.now
            self.now.gives.now head.now) inside.old inside.new notes.old notes.new) }
    {
        match head {
            Head::Decl(decl) => self.declareds(decl.base, decl.parts.as_slice(), inside, notes),
            Head::Simple(simple) => self.simple_if(simple, inside, notes),
        }
    }
}
