//! Tests of a live mesh: commands are given as they come, and disks that the tests hold answer what they are asked.
//!
//! They show what no clause says: that there is memory for all of it, that what was written is read, what stands
//! beside an exclusive right, that a pulled disk ends what is out, and that after 100,000 requests each was answered
//! and nothing is left of them. Of requests with tokens several are out at once over two disks that answer out of
//! order: each reply comes, with the bytes that its token stands for. Of the requests of sixteen handles over one disk
//! the replies come in the order in which they were accepted. A pull and an insert raise the generation of the graph,
//! and a hundred reads don't.
#![tactic(auto)]

#[cfg(test)]
mod bench;
#[cfg(test)]
mod generation;
#[cfg(test)]
mod live;
#[cfg(test)]
mod order;
#[cfg(test)]
mod same;
#[cfg(test)]
mod tagged;
#[cfg(test)]
mod tokens;
