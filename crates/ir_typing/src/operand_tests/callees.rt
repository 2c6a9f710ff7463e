//! The functions of a module, each found by its name without a walk through the others.
ghost use Rattle.std.specs.Prelude.{◌≡◌};

use ir_core::{Declaration, Function, Name};
use std::alloc::{AllocError, Global};
use std::collections::HashMap;

/// A function that can be called.
#[derive(Clone, Copy)]
pub enum Callee<'a> {
    Defined(&'a Function),
    Declared(&'a Declaration),
}

/// The first function of each name.
pub(crate) struct Callees<'a> {
    first: HashMap<&'a Name, Callee<'a>>,
}

impl<'a> Drop for Callees<'a> {
    fn drop(self) {
        let Callees { first: _ } = self;
    }
}

impl<'a> Callees<'a> {
    ghost use Rattle.std.specs.Prelude.{[], ◌∷◌, ◌++◌, OnOk, IfOk};
    ghost use Rattle.std.specs.Option.{option_or};
    ghost use Rattle.ir_types.specs.declared.names.Name.{Name};
    ghost use Rattle.ir_typing.specs.OperandTests.Calls.{signature_in};
    ghost use Rattle.ir_typing.specs.OperandTests.Kept.{callee_in, declared, defined, signature_by, signature_of};

    pub(crate) fn get(&self, name: &Name) -> Option<Callee<'a>>
        ensures { result ≡ callee_in self.now name.now }
    {
        self.first.get(&name).copied()
    }

    fn put(&mut self, name: &'a Name, callee: Callee<'a>) -> Result<(), AllocError>
        ensures { OnOk result ((x : Name) → signature_by self.new x
            ≡ option_or (signature_by self.old x) (signature_in ((name.now, signature_of callee.entry) ∷ []) x)) }
    {
        match self.get(name) {
            Some(_) => Ok(()),
            None => {
                self.first.insert(name, callee)?;
                Ok(())
            }
        }
    }

    #[tactic(auto, using(crate::proofs::OperandTests::Firsts::one_more))]
    fn put_definitions(&mut self, functions: &'a [Function]) -> Result<(), AllocError>
        ensures { OnOk result ((x : Name) → signature_by self.new x
            ≡ option_or (signature_by self.old x) (signature_in (defined functions.now) x)) }
    {
        for function in functions {
            self.put(&function.name, Callee::Defined(function))?;
        }
        Ok(())
    }

    #[tactic(auto, using(crate::proofs::OperandTests::Firsts::one_more))]
    fn put_declarations(&mut self, declarations: &'a [Declaration]) -> Result<(), AllocError>
        ensures { OnOk result ((x : Name) → signature_by self.new x
            ≡ option_or (signature_by self.old x) (signature_in (declared declarations.now) x)) }
    {
        for declaration in declarations {
            self.put(&declaration.name, Callee::Declared(declaration))?;
        }
        Ok(())
    }

    /// Definitions come before declarations.
    pub(crate) fn of(
        alloc: Global,
        functions: &'a [Function],
        declarations: &'a [Declaration],
    ) -> Result<Callees<'a>, AllocError>
        ensures { IfOk result (λ it. (x : Name) → signature_by it x
            ≡ signature_in (defined functions.now ++ declared declarations.now) x) }
    {
        let count = functions.len().saturating_add(declarations.len());
        let mut callees = Callees {
            first: HashMap::with_capacity(alloc, count)?,
        };
        callees.put_definitions(functions)?;
        callees.put_declarations(declarations)?;
        Ok(callees)
    }
}
