//! What is asked of constants, addresses, initialisers and calls beside a module (LangRef 3.7, Well-Formedness, Constants, getelementptr
//! and call Instructions).

mod addresses;
mod beside;
mod callees;
mod calls;
mod constants;
mod globals;
mod inits;
mod known;
mod numbers;
mod sized;

pub use addresses::{
    element_fits, element_kind, entered, leads_somewhere, number_in, number_of,
    pointed_by_constants, pointed_by_operands,
};
pub use beside::Beside;
pub use callees::Callee;
pub use calls::call_kind;
pub use constants::{constant_kind, is_due};
pub use globals::global_var_kind;
pub use known::{are_types_known, is_constant_known, is_type_known};
pub use numbers::is_number;
