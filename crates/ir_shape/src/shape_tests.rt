//! What is asked of one line, one terminator, one phi or one name of a function (LangRef 3.7, Well-Formedness), and the edges that
//! enter its blocks.

mod counts;
mod ends;
mod few;
mod incoming;
mod kinds;
mod names;
mod phis;
mod row;

pub use counts::Counts;
pub use ends::{branch_fits, cases_fit, leads_to, return_fits};
pub use incoming::{edges_of, have_phis, put_at, row_of};
pub use ir_typing::{LentNames, ShapeKind};
pub use kinds::{block_kind, is_result, name_kind, right_kind};
pub use names::{entries_are_labels, leads_to_labels};
pub use phis::{counts_of, fits_edges};
pub use row::Row;
