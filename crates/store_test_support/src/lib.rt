//! What the tests of stores ask of disks and of stores. No function here has a clause: each call whose contract is
//! large stands once, and a test is proved without that contract.
#![tactic(auto)]

pub mod calls;
pub mod stores;
