//! Tests of a server and of `collect` through their public calls. There is nothing to call here.
#![tactic(auto)]

#[cfg(test)]
mod allowing;
#[cfg(test)]
mod collecting;
#[cfg(test)]
mod rating;
#[cfg(test)]
mod serving;
#[cfg(test)]
mod sockets;
