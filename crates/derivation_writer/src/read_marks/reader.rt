ghost use Rattle.std.specs.Prelude.{◌≡◌, IfOk};
ghost use Rattle.module_grammar.specs.Sorts as sort;
ghost use Rattle.derivation_writer.specs.ReadMarks.Reading.{IsMarked};
ghost use Rattle.derivation_writer.specs.ReadMarks.Runs.{IsRun, IsStart, unread_by};

use crate::read_marks::unread::Unread;
use crate::{Stop, derivation_of};
use contents::Seq;
use module_derivations::start;
use std::alloc::{AllocError, Global};

/// Why tokens aren't of it, by why they have no derivation.
fn unread_by(stop: Stop) -> Unread
    ensures { result ≡ unread_by stop }
{
    match stop {
        Stop::Stuck(place) => Unread::Stuck(place),
        Stop::Limit(limit) => Unread::Limit(limit),
    }
}

/// The derivation of tokens of these kinds from a nonterminal, or why they aren't of it.
fn run(alloc: Global, kinds: &[u8], start: u8) -> Result<Result<Seq<u32>, Unread>, AllocError>
    requires { IsStart start }
    ensures { IfOk result (λ run. IsRun start kinds.now run) }
{
    match derivation_of(alloc, start, kinds)? {
        Err(stop) => Ok(Err(unread_by(stop))),
        Ok(numbers) => Ok(Ok(numbers)),
    }
}

/// The module that tokens of these kinds are written of, by the marks of the derivation.
pub fn read_module(alloc: Global, kinds: &[u8]) -> Result<Result<Seq<u32>, Unread>, AllocError>
    ensures { IfOk result (IsMarked sort.Module 0 kinds.now) }
{
    run(alloc, kinds, start::MODULE)
}

/// The types of parameters that tokens of these kinds are written of, by the marks of the derivation.
pub fn read_called(alloc: Global, kinds: &[u8]) -> Result<Result<Seq<u32>, Unread>, AllocError>
    ensures { IfOk result (IsMarked sort.Called 38 kinds.now) }
{
    run(alloc, kinds, start::CALLED)
}

/// The parameters of a declaration that tokens of these kinds are written of, by the marks of the derivation.
pub fn read_declared(alloc: Global, kinds: &[u8]) -> Result<Result<Seq<u32>, Unread>, AllocError>
    ensures { IfOk result (IsMarked sort.DeclaredParams 7 kinds.now) }
{
    run(alloc, kinds, start::DECLARED_PARAMS)
}

/// The type that tokens of these kinds are written of, by the marks of the derivation.
pub fn read_type(alloc: Global, kinds: &[u8]) -> Result<Result<Seq<u32>, Unread>, AllocError>
    ensures { IfOk result (IsMarked sort.AnyType 33 kinds.now) }
{
    run(alloc, kinds, start::TYPE)
}

/// The local name that tokens of these kinds are written of, by the marks of the derivation.
pub fn read_local(alloc: Global, kinds: &[u8]) -> Result<Result<Seq<u32>, Unread>, AllocError>
    ensures { IfOk result (IsMarked sort.LocalName 76 kinds.now) }
{
    run(alloc, kinds, start::LOCAL_NAME)
}

/// The global name that tokens of these kinds are written of, by the marks of the derivation.
pub fn read_global(alloc: Global, kinds: &[u8]) -> Result<Result<Seq<u32>, Unread>, AllocError>
    ensures { IfOk result (IsMarked sort.GlobalName 42 kinds.now) }
{
    run(alloc, kinds, start::GLOBAL_NAME)
}

/// The expression of the logic that tokens of these kinds are written of, by the marks of the derivation.
pub fn read_expression(alloc: Global, kinds: &[u8]) -> Result<Result<Seq<u32>, Unread>, AllocError>
    ensures { IfOk result (IsMarked sort.Expr 74 kinds.now) }
{
    run(alloc, kinds, start::EXPRESSION)
}
