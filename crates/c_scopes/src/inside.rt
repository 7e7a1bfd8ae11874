//! The place of a function where a checker stands.

ghost use Rattle.std.specs.Prelude.{◌≡◌, suc, IfOk, OnOk};
ghost use Rattle.cc_model.specs.Faults as faults;
ghost use Rattle.c_scopes.specs.Places.{place, outside};

use crate::types::copy;
use c_names::Named;
use cc_model::Target;
use cc_model::base::NoMemory;
use cc_model::typing::{CType, Variable};
use sqlite_items::Items;
use std::alloc::Global;

/// A place of a function: the variables of each scope around, the innermost scope last; the number of the next local;
/// whether a loop is around.
#[derive(Drop)]
pub struct Inside {
    pub scopes: Items<Named<Variable>>,
    pub next: u32,
    pub in_loop: bool,
}

/// The same type once more, where it is known.
fn copy_if(alloc: Global, ty: &Option<CType>) -> Result<Option<CType>, NoMemory>
    ensures { IfOk result (λ t. t ≡ ty.now) }
{
    match ty {
        Some(ty) => Ok(Some(copy(alloc, ty)?)),
        None => Ok(None),
    }
}

/// A variable of that name and type.
fn variable(
    alloc: Global,
    name: &[u8],
    ty: &Option<CType>,
    target: Target,
) -> Result<Variable, NoMemory>
    ensures { IfOk result (λ v. v ≡ record { name = name.now; ty = ty.now; target = target }) }
{
    let name = Items::from_slice(alloc, name)?;
    let ty = copy_if(alloc, ty)?;
    Ok(Variable { name, ty, target })
}

/// Puts a variable into the innermost scope.
fn put(
    alloc: Global,
    scopes: &mut Items<Named<Variable>>,
    variable: Variable,
) -> Result<(), NoMemory>
    ensures { OnOk result (scopes.new ≡ faults.with_variable variable scopes.old) }
{
    let mut scope = match scopes.pop() {
        Some(scope) => scope,
        None => return Ok(()),
    };
    scope.push(alloc, variable)?;
    scopes.push(scope)?;
    Ok(())
}

/// The number behind that of a local.
fn number_behind(number: u32) -> Result<u32, NoMemory>
    ensures { IfOk result (λ n. n ≡ suc number) }
{
    // No memory holds a program of so many locals.
    match number.checked_add(1) {
        Some(next) => Ok(next),
        None => Err(NoMemory),
    }
}

impl Inside {
    /// The start of a body.
    pub fn at_body(alloc: Global) -> Result<Inside, NoMemory>
        ensures { IfOk result (λ i. place i ≡ faults.at_body) }
    {
        let mut scopes = Items::new(alloc);
        scopes.push(Named::new(alloc))?;
        Ok(Inside {
            scopes,
            next: 0,
            in_loop: false,
        })
    }

    /// Opens a scope.
    pub fn open(&mut self, alloc: Global) -> Result<(), NoMemory>
        ensures { OnOk result (place self.new ≡ faults.opened (place self.old)) }
    {
        self.scopes.push(Named::new(alloc))?;
        Ok(())
    }

    /// Closes the innermost scope. The numbers of its locals stay taken.
    pub fn close(&mut self)
        ensures { place self.new ≡ outside (place self.old) }
    {
        self.scopes.pop();
    }

    /// Declares the next local in the innermost scope.
    pub fn declare(
        &mut self,
        alloc: Global,
        name: &[u8],
        ty: &Option<CType>,
    ) -> Result<(), NoMemory>
        ensures { OnOk result (place self.new ≡ faults.declare name.now ty.now (place self.old)) }
    {
        let next = number_behind(self.next)?;
        let variable = variable(alloc, name, ty, Target::Local(self.next))?;
        put(alloc, &mut self.scopes, variable)?;
        self.next = next;
        Ok(())
    }
}
