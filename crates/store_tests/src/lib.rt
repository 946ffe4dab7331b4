//! Tests of disks, checksums, journals and stores through their public calls. There is nothing to call here.
#![tactic(auto)]

#[cfg(test)]
mod checksums;
#[cfg(test)]
mod cramped;
#[cfg(test)]
mod disks;
#[cfg(test)]
mod durable;
#[cfg(test)]
mod folders;
#[cfg(test)]
mod journals;
#[cfg(test)]
mod older;
#[cfg(test)]
mod records;
