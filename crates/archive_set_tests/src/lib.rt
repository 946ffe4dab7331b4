//! Tests of archives as streams, sets and selections, through their public calls. There is nothing to
//! call here.
#![tactic(auto)]

#[cfg(test)]
mod counts;
#[cfg(test)]
mod digests;
#[cfg(test)]
mod entries;
#[cfg(test)]
mod joins;
#[cfg(test)]
mod laws;
#[cfg(test)]
mod pages;
#[cfg(test)]
mod patterns;
#[cfg(test)]
mod proofs;
#[cfg(test)]
mod selections;
#[cfg(test)]
mod spills;
#[cfg(test)]
mod streams;
#[cfg(test)]
mod support;
#[cfg(test)]
mod trees;
