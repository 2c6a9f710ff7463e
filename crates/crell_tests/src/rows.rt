//! Rows that no built program can be given, as files are absent, a call of the shelf or of a sink fails, a sink has little room, or what was
//! taken is counted; and the worked examples. They run through `crell` over a shelf and sinks in memory.

#[cfg(test)]
mod judging;
#[cfg(test)]
mod running;
#[cfg(test)]
mod table;
#[cfg(test)]
mod worked;
#[cfg(test)]
mod wrong;
