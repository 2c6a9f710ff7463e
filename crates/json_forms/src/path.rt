ghost use Rattle.std.specs.Prelude.{◌≡◌, ◌++◌, ◌∷◌, OnOk, IfOk};
ghost use Rattle.std.specs.List.{flat_map};
ghost use Rattle.json_forms.specs.Answers.{IsMoved};
ghost use Rattle.json_forms.specs.Faults.{escaped, key_step, index_step};

use crate::{Failure, Fault};
use contents::Seq;
use std::alloc::{AllocError, Global};

/// A failure in the member of that key, seen from the object.
pub fn under_key(alloc: Global, key: &str, failure: Failure) -> Failure
    ensures { IsMoved (key_step key.now) failure result }
{
    match step_of_key(alloc, key) {
        Ok(step) => moved(step, failure),
        Err(_) => Failure::Memory,
    }
}

/// A failure in the item at that index, seen from the array.
pub fn under_index(alloc: Global, index: usize, failure: Failure) -> Failure
    ensures { IsMoved (index_step index) failure result }
{
    match step_of_index(alloc, index) {
        Ok(step) => moved(step, failure),
        Err(_) => Failure::Memory,
    }
}

fn moved(step: Vec<u8>, failure: Failure) -> Failure
    ensures { IsMoved step.items failure result }
{
    match failure {
        Failure::Form(Fault::At(path)) => match joined(step, path.as_slice()) {
            Ok(whole) => Failure::Form(Fault::At(whole)),
            Err(_) => Failure::Memory,
        },
        Failure::Form(Fault::Past(limit)) => Failure::Form(Fault::Past(limit)),
        Failure::Memory => Failure::Memory,
    }
}

fn joined(step: Vec<u8>, path: &[u8]) -> Result<Seq<u8>, AllocError>
    ensures { IfOk result (λ whole. whole ≡ step.items ++ path.now) }
{
    let mut whole = step;
    whole.extend_from_slice(path)?;
    Ok(Seq::from_vec(whole))
}

fn step_of_key(alloc: Global, key: &str) -> Result<Vec<u8>, AllocError>
    ensures { IfOk result (λ step. step.items ≡ key_step key.now) }
{
    let mut step = Vec::new(alloc);
    step.push(b'/')?;
    for byte in key.as_bytes() {
        push_escaped(&mut step, *byte)?;
    }
    Ok(step)
}

fn push_escaped(step: &mut Vec<u8>, byte: u8) -> Result<(), AllocError>
    ensures { OnOk result (step.new.items ≡ step.old.items ++ escaped byte) }
{
    match byte {
        b'~' => step.extend_from_slice(b"~0"),
        b'/' => step.extend_from_slice(b"~1"),
        _ => {
            step.push(byte)?;
            Ok(())
        }
    }
}

fn step_of_index(alloc: Global, index: usize) -> Result<Vec<u8>, AllocError>
    ensures { IfOk result (λ step. step.items ≡ index_step index) }
{
    let mut step = Vec::new(alloc);
    step.push(b'/')?;
    let digits = (index as u64).to_string(alloc)?;
    step.extend_from_slice(digits.as_bytes())?;
    Ok(step)
}
