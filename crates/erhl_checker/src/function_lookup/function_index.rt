//! A function, with what is looked up of it by a name.
ghost use Rattle.std.specs.Prelude.{◌≡◌, [], IfOk, IfSome};
ghost use Rattle.std.specs.List.{list_any};
ghost use Rattle.std.specs.Option.{option_map};
ghost use Rattle.ir_core.specs.Functions.{typed_of};
ghost use Rattle.erhl_assert.specs.Edges.{phis_at};
ghost use Rattle.erhl_assert.specs.Steps.{has_other_kind, is_other};

use crate::function_lookup::definitions::{Definition, definitions_of, other_among};
use ir_core::{Block, Expr0, Function, Name, Reg};
use line_align::{ByName, Named};
use postcondition::Phis;
use std::alloc::{AllocError, Global};
use std::marker::Model;

/// A block, of whose phis one is found without a walk.
struct IndexedBlock<'a> {
    block: &'a Block,
    phis: Phis<'a>,
}

impl<'a> Model for IndexedBlock<'a> {
    ghost use Rattle.std.specs.Prelude.{◌≡◌};
    ghost use Rattle.ir_core.specs.declared.functions.Block.{Block};
    ghost use Rattle.std.specs.Coded.{codes};
    ghost use Rattle.ir_types.specs.contracts.ty.Ty as ty;
    ghost use Rattle.ir_core.specs.contracts.operands.Const as constant;

    ghost Value = { Block };

    ghost coded = { Prim.hlevel (codes, ty.the_row.coded, constant.the_row.coded) };

    ghost view = { λ it. it.block.now };

    ghost invariant = { λ it. it.phis ≡ it.block.now.phis };
}

impl<'a> Drop for IndexedBlock<'a> {
    fn drop(self) {
        let IndexedBlock { block: _, phis: _ } = self;
    }
}

impl<'a> Named for IndexedBlock<'a> {
    ghost named = { λ block. block.name };

    fn name(&self) -> &Name {
        &self.block.name
    }
}

impl<'a> IndexedBlock<'a> {
    fn of(alloc: Global, block: &'a Block) -> Result<IndexedBlock<'a>, AllocError>
        ensures { IfOk result (λ it. it ≡ block.now) }
    {
        let phis = Phis::of(alloc, block.phis.as_slice())?;
        Ok(IndexedBlock { block, phis })
    }

    fn phis(&self) -> &Phis<'a>
        ensures { result.now ≡ self.now.phis }
    {
        &self.phis
    }
}

fn indexed<'a>(alloc: Global, blocks: &'a [Block]) -> Result<Vec<IndexedBlock<'a>>, AllocError>
    ensures { IfOk result (λ found. found.items ≡ blocks.now) }
{
    let mut found = Vec::new(alloc);
    for block in blocks {
        found.push(IndexedBlock::of(alloc, block)?)?;
    }
    Ok(found)
}

/// A function with its blocks' phis, and with the definitions of its registers where they are asked for often.
pub struct FunctionParts<'a> {
    defining: &'a Function,
    blocks: Vec<IndexedBlock<'a>>,
    definitions: Option<Vec<Definition<'a>>>,
}

impl<'a> Model for FunctionParts<'a> {
    ghost use Rattle.ir_core.specs.declared.functions.Function.{Function};
    ghost use Rattle.std.specs.Prelude.{◌≡◌, IfSome};
    ghost use Rattle.ir_core.specs.Functions.{typed_of};
    ghost use Rattle.std.specs.Coded.{codes};
    ghost use Rattle.ir_types.specs.contracts.ty.Ty as ty;
    ghost use Rattle.ir_core.specs.contracts.operands.Const as constant;

    ghost Value = { Function };

    ghost coded = { Prim.hlevel (codes, ty.the_row.coded, constant.the_row.coded) };

    ghost view = { λ it. it.defining.now };

    ghost invariant = { λ it. (it.blocks.items ≡ it.defining.now.blocks)
        × IfSome it.definitions (λ found. found.items ≡ typed_of it.defining.now) };
}

impl<'a> Drop for FunctionParts<'a> {
    fn drop(self) {
        let FunctionParts {
            defining: _,
            blocks: _,
            definitions: _,
        } = self;
    }
}

/// The definitions of a function's registers, where they are asked for.
fn definitions_if(
    alloc: Global,
    asked: bool,
    function: &Function,
) -> Result<Option<Vec<Definition<'_>>>, AllocError>
    ensures { IfOk result
        (λ found. IfSome found (λ all. all.items ≡ typed_of «function».now)) }
{
    if asked {
        Ok(Some(definitions_of(alloc, function)?))
    } else {
        Ok(None)
    }
}

impl<'a> FunctionParts<'a> {
    /// The parts of a function. Definitions are kept where they are asked for often.
    pub fn new(
        alloc: Global,
        defining: &'a Function,
        asked: bool,
    ) -> Result<FunctionParts<'a>, AllocError>
        ensures { IfOk result (λ parts. parts ≡ defining.now) }
    {
        let blocks = indexed(alloc, defining.blocks.as_slice())?;
        let definitions = definitions_if(alloc, asked, defining)?;
        Ok(FunctionParts {
            defining,
            blocks,
            definitions,
        })
    }
}

/// A function, whose blocks and definitions are found by their names.
pub struct FunctionIndex<'b, 'a> {
    defining: &'a Function,
    blocks: ByName<'b, IndexedBlock<'a>>,
    definitions: Option<ByName<'b, Definition<'a>>>,
    no_phis: Phis<'a>,
}

impl<'b, 'a> Model for FunctionIndex<'b, 'a> {
    ghost use Rattle.ir_core.specs.declared.functions.Function.{Function};
    ghost use Rattle.std.specs.Prelude.{◌≡◌, [], IfSome};
    ghost use Rattle.ir_core.specs.Functions.{typed_of};
    ghost use Rattle.std.specs.Coded.{codes};
    ghost use Rattle.ir_types.specs.contracts.ty.Ty as ty;
    ghost use Rattle.ir_core.specs.contracts.operands.Const as constant;

    ghost Value = { Function };

    ghost coded = { Prim.hlevel (codes, ty.the_row.coded, constant.the_row.coded) };

    ghost view = { λ it. it.defining.now };

    ghost invariant = { λ it. (it.blocks ≡ it.defining.now.blocks)
        × IfSome it.definitions (λ found. found ≡ typed_of it.defining.now)
        × (it.no_phis ≡ []) };
}

impl<'b, 'a> Drop for FunctionIndex<'b, 'a> {
    fn drop(self) {
        let FunctionIndex {
            defining: _,
            blocks: _,
            definitions: _,
            no_phis: _,
        } = self;
    }
}

/// Definitions by their names, where there are any.
fn by_name_if<'b, 'a>(
    alloc: Global,
    definitions: &'b Option<Vec<Definition<'a>>>,
) -> Result<Option<ByName<'b, Definition<'a>>>, AllocError>
    ensures { IfOk result (λ by_name. by_name ≡ option_map (λ all. all.items) definitions.now) }
{
    match definitions {
        None => Ok(None),
        Some(all) => Ok(Some(ByName::new(alloc, all.as_slice())?)),
    }
}

impl<'b, 'a> FunctionIndex<'b, 'a> {
    pub fn new(
        alloc: Global,
        parts: &'b FunctionParts<'a>,
    ) -> Result<FunctionIndex<'b, 'a>, AllocError>
        ensures { IfOk result (λ index. index ≡ parts.now) }
    {
        let blocks = ByName::new(alloc, parts.blocks.as_slice())?;
        let definitions = by_name_if(alloc, &parts.definitions)?;
        Ok(FunctionIndex {
            defining: parts.defining,
            blocks,
            definitions,
            no_phis: Phis::none(alloc),
        })
    }

    /// The function itself.
    pub fn function(&self) -> &'a Function
        ensures { result.now ≡ self.now }
    {
        self.defining
    }

    /// The phis of the first block of that name.
    pub fn phis_of(&self, block: &Name) -> &Phis<'a>
        ensures { result.now ≡ phis_at block.now self.now }
    {
        match self.blocks.first(block) {
            Some(found) => found.phis(),
            None => &self.no_phis,
        }
    }

    /// Whether the function defines a register of that name at another kind than the expression's, where its definitions aren't kept.
    fn is_found_otherwise(
        &self,
        alloc: Global,
        name: &Name,
        expr: &Expr0,
    ) -> Result<bool, AllocError>
        ensures { IfOk result (λ other. other ≡ list_any (is_other name.now expr.now) (typed_of self.now)) }
    {
        let definitions = definitions_of(alloc, self.defining)?;
        let by_name = ByName::new(alloc, definitions.as_slice())?;
        Ok(other_among(&by_name, name, expr))
    }

    /// Whether the function defines a register of that name at another kind than the expression's.
    fn is_defined_otherwise(
        &self,
        alloc: Global,
        name: &Name,
        expr: &Expr0,
    ) -> Result<bool, AllocError>
        ensures { IfOk result (λ other. other ≡ list_any (is_other name.now expr.now) (typed_of self.now)) }
    {
        match &self.definitions {
            Some(by_name) => Ok(other_among(by_name, name, expr)),
            None => self.is_found_otherwise(alloc, name, expr),
        }
    }

    /// Whether the function defines the register at another kind than the expression's.
    pub fn has_other_kind(
        &self,
        alloc: Global,
        register: &Reg,
        expr: &Expr0,
    ) -> Result<bool, AllocError>
        ensures { IfOk result (λ other. other ≡ has_other_kind self.now register.now expr.now) }
    {
        match register {
            Reg::Now(name) | Reg::Old(name) => self.is_defined_otherwise(alloc, name, expr),
            Reg::Ghost(_) => Ok(false),
        }
    }
}
