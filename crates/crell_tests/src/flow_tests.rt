//! What analyses find in graphs.

#[cfg(test)]
mod graphs;
#[cfg(test)]
mod large;
#[cfg(test)]
mod mark_tests;
#[cfg(test)]
mod sets;
#[cfg(test)]
mod sign_tests;
