//! Tests of devices, values, frames, senders and lines of JSON, through their public calls. There is
//! nothing to call here.
#![tactic(auto)]

#[cfg(test)]
mod facilities;
#[cfg(test)]
mod frames;
#[cfg(test)]
mod fuses;
#[cfg(test)]
mod instants;
#[cfg(test)]
mod lines;
#[cfg(test)]
mod loops;
#[cfg(test)]
mod masks;
#[cfg(test)]
mod messages;
#[cfg(test)]
mod names;
#[cfg(test)]
mod priorities;
#[cfg(test)]
mod records;
#[cfg(test)]
mod senders;
#[cfg(test)]
mod severities;
#[cfg(test)]
mod structured;
#[cfg(test)]
mod words;
