//! Tests of the crates that hold, read and print texts, and of those that judge what was read, for what no contract and no row shows. Nothing
//! else stands here.

#[cfg(test)]
mod checking;
#[cfg(test)]
mod comparing;
#[cfg(test)]
mod copies;
#[cfg(test)]
mod expressions;
#[cfg(test)]
mod functions;
#[cfg(test)]
mod names;
#[cfg(test)]
mod numbers;
#[cfg(test)]
mod printing;
#[cfg(test)]
mod tokens;
#[cfg(test)]
mod told;
#[cfg(test)]
mod types;
