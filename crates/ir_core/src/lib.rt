//! The syntax tree of textual LLVM IR (Language Reference 3.7): modules with their named types, globals, declarations and functions, the phis,
//! lines and terminators of these, and the expressions over operations that facts of the logic speak of.
//!
//! A value of these types is plain data to a contract: two are equal exactly where `Exact::is` says so.
//!
//! `name_index` has names in an order, of which one is found without a walk through the others.
#![tactic(auto)]

mod bit_type;
mod bits;
mod expressions;
mod functions;
mod laws;
mod layout;
mod limits;
mod modules;
mod name_index;
mod operands;
mod same;
mod types;
mod values;
mod words;

pub use bit_type::BitType;
pub use bits::Bits;
pub use expressions::{Binary, Cast, Element, Expr, Expr0, Icmp, Load, Reg, Select};
pub use functions::{
    Alloca, Argument, Block, Call, Calm, Case, CondBr, Entry, Extensions, Function, Instr, Param,
    Phi, Store, Switch, Term,
};
pub use ir_types::{Name, NamedTy, NamedTypes, Shared, Sigil, SizeFault, Ty, same_name, same_ty};
pub use laws::{
    examples_of_addresses, examples_of_control_flow, examples_of_expressions, examples_of_kinds,
    examples_of_lines, examples_of_memory, examples_of_named_types, examples_of_names_and_blocks,
    examples_of_operations, examples_of_ranges, examples_of_types, examples_of_typing,
    examples_of_well_formedness, places_are_kept,
};
pub use layout::{align_of, field_offset, fits_block, size_of};
pub use limits::Limit;
pub use modules::{Declaration, DeclaredParam, GlobalVar, Init, Linkage, Module, TypedInit};
pub use name_index::{NameIndex, PlaceIndex};
pub use operands::{
    Atom, BinOp, CastOp, Const, ConstCast, ConstElement, Flags, Operand, Pred, TypedConst,
};
pub use same::{
    same_cast, same_const, same_expr, same_flags, same_name_atom, same_name_operand, same_op,
    same_pred, same_reg, same_reg_atom, same_reg_operand, tests_are_equality,
};
pub use types::{converts, fits, is_first_class, is_integer, is_pointer, is_width, kind_of};
pub use values::{BlockId, Byte, Kind, Value};
pub use words::{cast_word, op_word, pred_word};
