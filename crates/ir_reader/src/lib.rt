//! Textual LLVM IR (Language Reference 3.7) read as modules, exact in what it accepts and in the first fault.
//!
//! A text is cut into tokens, the tokens are read as a tree, and the tree is given names; each of these steps tells the first fault.
//! `read_well_formed` tells what is at fault in the module besides, once its text is read. Single expressions, types and names are read by
//! `expression_reader`.
#![tactic(auto)]

mod derivations;
mod fault;
mod fault_laws;
mod faults;
mod first_fault;
mod misnamed;
mod modules;
mod naming;
mod shapely;
mod tokens;

pub use expression_reader::{read_expr, read_name, read_type};
pub use fault::ModuleFault;
pub use fault_laws::{first_faults_agree, module_faults_are_one};
pub use first_fault::read_well_formed;
pub use misnamed::Misnamed;
pub use modules::read_module;
pub use naming::name_derivation;
