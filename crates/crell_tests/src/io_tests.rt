//! Tests of the shelf and the sink of the system, for what no contract and no row shows. Nothing else stands here.

#[cfg(test)]
mod system;
