//! Records in memory.

ghost use Rattle.std.specs.Prelude.{◌≡◌, ◌++◌, ◌∷◌, [], IfErr, IfOk, OnErr, length};
ghost use Rattle.archive_text.specs.Entries.{Entry};
ghost use Rattle.archive_text.specs.Text.{IsArchive, entry_text, text_of};
ghost use Rattle.reconcile.specs.Texts.{IsReadingFault};

use crate::place::Place;
use crate::reading::push_read;
use crate::stopped::Stopped;
use archive_text::ENTRY_MAX;
use std::alloc::Global;
use std::marker::Model;

/// The entries of an archive, in memory.
#[derive(Debug, Drop)]
pub struct Records {
    entries: Vec<Place>,
}

impl Model for Records {
    ghost use Rattle.std.specs.Prelude.{List};
    ghost use Rattle.archive_text.specs.Entries.{Entry};
    ghost use Rattle.archive_text.specs.Text.{IsArchive};
    ghost use Rattle.archive_text.specs.declared.limits.TheConstants.{ENTRY_MAX};

    ghost Value = { List Entry };

    ghost view = { λ r. r.entries.items };

    ghost invariant = { λ r. IsArchive ENTRY_MAX r.entries.items };
}

impl Records {
    /// No records.
    pub fn new(alloc: Global) -> Records
        ensures { result ≡ [] }
    {
        Records {
            entries: Vec::new(alloc),
        }
    }

    // Those of an archive.
    pub(crate) fn of(entries: Vec<Place>) -> Records
        requires { IsArchive ENTRY_MAX entries.items }
        ensures { result ≡ entries.items }
    {
        Records { entries }
    }

    // The entries.
    pub(crate) fn into_entries(self) -> Vec<Place>
        ensures value { result.items ≡ self }
        ensures archive { IsArchive ENTRY_MAX result.items }
    {
        self.entries
    }

    /// Puts the entry that a text begins with behind the others, and gives what follows it. After a
    /// refusal nothing has changed.
    ///
    /// # Errors
    /// `Lied`: the text begins with no entry that goes on behind the others; `Memory`.
    pub fn push_read<'a>(&mut self, alloc: Global, text: &'a [u8]) -> Result<&'a [u8], Stopped>
        ensures ok { IfOk result (λ rest. (e : Entry) × (text.now ≡ entry_text e ++ rest.now)
            × (self.new ≡ self.old ++ e ∷ [])) }
        ensures err { OnErr result (self.new ≡ self.old) }
        ensures cause { IfErr result (IsReadingFault (text_of self.old) text.now) }
    {
        push_read(alloc, &mut self.entries, text)
    }

    /// How many there are.
    pub fn len(&self) -> usize
        ensures value { result ≡ length self.now }
        ensures archive { IsArchive ENTRY_MAX self.now }
    {
        self.entries.len()
    }

    /// The entries, in their order.
    pub fn entries(&self) -> &[Place]
        ensures value { result.now ≡ self.now }
        ensures archive { IsArchive ENTRY_MAX self.now }
    {
        self.entries.as_slice()
    }
}
