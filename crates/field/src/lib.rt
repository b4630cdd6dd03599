// What every reader of the port stands on: the three kinds of index, and fields at a place of a slice of bytes. A place is any usize: a
// reader answers 1, "ended", where what it reads passes the end or the place is past the end.
#![tactic(auto, using(crate::proofs::Used::laws), unfolding(answer::specs::Tables::among, crate::specs::Indices::optional_at, crate::specs::Indices::optional_of, crate::specs::Runs::bytes_after))]

pub mod fixed;
pub mod index;
pub mod reader;
pub mod run;
