//! Archives on their way into one, step by step.

ghost use Rattle.std.specs.Prelude.{◌≡◌, map, vec_len};
ghost use Rattle.archive_join.specs.Heads.{fault_of, key_of};

use crate::fault::JoinFault;
use crate::head::Head;
use crate::heads::{Least, least_head};
use crate::kept::Kept;
use archive_streams::{EntriesFault, InputFault};
use octet_devices::{BufferedOutput, Input, Output, WriteFault};
use std::alloc::{AllocError, Global};

/// Archives on their way into one.
#[derive(Drop)]
pub struct Join {
    /// The head of each.
    pub heads: Vec<Head>,
    /// The key of each head.
    pub keys: Vec<i64>,
    /// Whether each has the entry that was joined last, so that its next one is due.
    pub holders: Vec<bool>,
    /// What is held back of what was kept.
    pub held: BufferedOutput,
    /// How many entries were kept.
    pub count: u64,
    pub ghost sizes: { vec_len holders ≡ vec_len heads },
    pub ghost are_keys: { keys.items ≡ map key_of heads.items },
}

// The fault of the input of this number.
fn fault_of(input: usize, fault: EntriesFault) -> JoinFault
    ensures { result ≡ fault_of input fault }
{
    match fault {
        EntriesFault::Archive(fault) => JoinFault::Archive { input, fault },
        EntriesFault::Input(InputFault::Device) => JoinFault::Read { input },
        EntriesFault::Input(InputFault::Endless) => JoinFault::Endless { input },
    }
}

impl Join {
    ghost use Rattle.std.specs.Prelude.{◌<◌, ℕ, List, false, length, slice_set, take};
    ghost use Rattle.std.specs.Prelude.{IfErr, IfOk, IsErrOf, MatchOption, OnOk};
    ghost use Rattle.archive_join.specs.Failures.{IsOfInputs, ReadFailures, WriteFailures};
    ghost use Rattle.archive_join.specs.Heads.{AreClosed, IsFound, IsLeast, total};
    ghost use Rattle.archive_join.specs.Joining.{AdvancesOrHalts, AreHolders, IsFresh, KeepsOutput};
    ghost use Rattle.archive_join.specs.Joining.{TakeHalts, Takes};
    ghost use Rattle.archive_join.specs.Sides.{AreIdle, Nears, NearsAt};

    /// As many archives as `size` says, before their first entries. Room for all of them is
    /// reserved; it fails only when out of memory.
    pub fn new(alloc: Global, size: usize) -> Result<Join, AllocError>
        ensures fresh { IfOk result IsFresh }
        ensures size { IfOk result (λ j. vec_len j.heads ≡ size) }
    {
        let mut heads = Vec::with_capacity(alloc, size)?;
        let mut keys = Vec::with_capacity(alloc, size)?;
        let mut holders = Vec::with_capacity(alloc, size)?;
        'heads: while heads.len() < size {
            let head = Head::new(alloc)?;
            keys.push(head.key())?;
            heads.push(head)?;
            holders.push(true)?;
        }
        Ok(Join {
            heads,
            keys,
            holders,
            held: BufferedOutput::new(),
            count: 0,
        })
    }

    /// The least of the next entries; None when all archives are at their ends.
    pub fn least(&self) -> Option<Least>
        ensures { MatchOption result (AreClosed self.now.heads.items)
            (IsFound self.now.heads.items self.now.heads.items) }
    {
        least_head(&self.heads, &self.keys)
    }

    // Notes which archives have the entry of the head of this number.
    fn mark(&mut self, least: usize)
        requires { least < vec_len self.old.heads }
        ensures holders { AreHolders self.old.heads.items self.new.holders.items least }
        ensures heads { self.new.heads ≡ self.old.heads }
        ensures output { KeepsOutput self.old self.new }
    {
        'heads: for at in 0..self.heads.len() {
            let entry = self.heads[least].entries.entry();
            let has = self.heads[at].is_next(&entry);
            self.holders[at] = has;
        }
    }

    /// Notes which archives have the least entry. No next entry may be due.
    pub fn note(&mut self, least: Least)
        requires idle { AreIdle self.old.holders.items }
        requires found { IsFound self.old.heads.items self.old.heads.items least }
        ensures holders { AreHolders self.old.heads.items self.new.holders.items least.at }
        ensures heads { self.new.heads ≡ self.old.heads }
        ensures output { KeepsOutput self.old self.new }
    {
        if least.shared {
            return self.mark(least.at);
        }
        self.holders[least.at] = true;
    }

    /// Puts the entry of the head with this number behind what was kept, if it is to be kept. It
    /// fails if the writer does.
    pub fn take<K: Kept, W: Output>(
        &mut self,
        kept: &K,
        least: usize,
        writer: &mut W,
    ) -> Result<(), JoinFault>
        requires least { IsLeast self.old.heads.items self.old.heads.items least }
        requires holders { AreHolders self.old.heads.items self.old.holders.items least }
        ensures heads { self.new.heads ≡ self.old.heads }
        ensures holders { self.new.holders ≡ self.old.holders }
        ensures takes { OnOk result (Takes (K.keeps kept.now) (K.text kept.now) self.old self.new
            (W.state writer.old).taken (W.state writer.new).taken) }
        ensures halts { IfErr result (λ fault. TakeHalts (K.keeps kept.now) (K.text kept.now) fault
            self.old self.new (W.state writer.old).taken (W.state writer.new).taken) }
        ensures told { WriteFailures result (W.state writer.old).failures
            (W.state writer.new).failures }
        ensures not_reader { (ns : List ℕ) → ReadFailures result ns ns }
        ensures not_memory { ¬ (IsErrOf result JoinFault.Memory) }
    {
        if !kept.is_kept(&self.holders) {
            return Ok(());
        }
        self.count = self.count.saturating_add(1);
        let entry = self.heads[least].entries.entry();
        match kept.put(&self.holders, &entry, &mut self.held, writer) {
            Ok(()) => Ok(()),
            Err(WriteFault { sent }) => Err(JoinFault::Write { sent }),
        }
    }

    // Reads the next entry of the archive of this number, where it is due.
    fn advance_at<R: Input>(&mut self, at: usize, inputs: &mut [R]) -> Result<(), JoinFault>
        requires at { at < vec_len self.old.heads }
        requires inputs { length inputs.old ≡ vec_len self.old.heads }
        requires idle { AreIdle (take at self.old.holders.items) }
        ensures size { vec_len self.new.heads ≡ vec_len self.old.heads }
        ensures output { KeepsOutput self.old self.new }
        ensures holders { OnOk result (self.new.holders.items
            ≡ slice_set self.old.holders.items at false) }
        ensures advances { AdvancesOrHalts result self.old self.new
            (map R.state inputs.old) (map R.state inputs.new) }
        ensures nears { OnOk result (NearsAt self.old.heads.items self.old.holders.items
            self.new.heads.items at) }
        ensures reads { IsOfInputs result (map R.state inputs.old) (map R.state inputs.new) }
    {
        if !self.holders[at] {
            return Ok(());
        }
        let advanced = self.heads[at].advance(&mut inputs[at]);
        self.keys[at] = self.heads[at].key();
        match advanced {
            Ok(()) => {
                self.holders[at] = false;
                Ok(())
            }
            Err(fault) => Err(fault_of(at, fault)),
        }
    }

    /// Reads the next entry of each archive for which it is due, in their order. It fails at the
    /// first fault that is met.
    pub fn advance<R: Input>(&mut self, inputs: &mut [R]) -> Result<(), JoinFault>
        requires { length inputs.old ≡ vec_len self.old.heads }
        ensures size { vec_len self.new.heads ≡ vec_len self.old.heads }
        ensures output { KeepsOutput self.old self.new }
        ensures idle { OnOk result (AreIdle self.new.holders.items) }
        ensures advances { AdvancesOrHalts result self.old self.new
            (map R.state inputs.old) (map R.state inputs.new) }
        ensures nears { OnOk result (Nears self.old.heads.items self.old.holders.items
            self.new.heads.items) }
        ensures reads { IsOfInputs result (map R.state inputs.old) (map R.state inputs.new) }
    {
        'heads: for at in 0..self.heads.len() {
            self.advance_at(at, inputs)?;
        }
        Ok(())
    }

    /// Reads the next entry of each archive that has the least entry, in their order. It fails at
    /// the first fault that is met.
    pub fn advance_holders<R: Input>(
        &mut self,
        least: Least,
        inputs: &mut [R],
    ) -> Result<(), JoinFault>
        requires inputs { length inputs.old ≡ vec_len self.old.heads }
        requires found { IsFound self.old.heads.items self.old.heads.items least }
        requires holders { AreHolders self.old.heads.items self.old.holders.items least.at }
        ensures size { vec_len self.new.heads ≡ vec_len self.old.heads }
        ensures output { KeepsOutput self.old self.new }
        ensures idle { OnOk result (AreIdle self.new.holders.items) }
        ensures advances { AdvancesOrHalts result self.old self.new
            (map R.state inputs.old) (map R.state inputs.new) }
        ensures nears { OnOk result (total self.new.heads.items < total self.old.heads.items) }
        ensures reads { IsOfInputs result (map R.state inputs.old) (map R.state inputs.new) }
    {
        if least.shared {
            return self.advance(inputs);
        }
        self.advance_at(least.at, inputs)
    }
}
