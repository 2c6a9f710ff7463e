//! The steps of a hint: what is known after them, or why one is refused.

mod steps;

pub use steps::after_steps;
