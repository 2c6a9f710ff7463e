//! Tests of values, of the machine and of graphs, for what no contract and no row shows. Nothing else stands here.

#[cfg(test)]
mod flow;
#[cfg(test)]
mod running;
#[cfg(test)]
mod values;
