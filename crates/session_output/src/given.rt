//! The octets that a session was given. Proofs alone read them.

ghost use Rattle.std.specs.Prelude.{◌≡◌, ◌++◌, [], List, ℕ};
ghost use Rattle.std.specs.Borrow.{ftrue};

use std::marker::{Model, PhantomData};

/// The octets that a session was given. It takes no memory, and its methods do nothing at run time.
#[derive(Drop)]
pub struct Given {
    marker: PhantomData<u8>,
    pub ghost octets: { List ℕ },
}

impl Model for Given {
    ghost also_owns = { λ _. ftrue };
}

impl Given {
    /// No octets.
    pub fn new() -> Given
        ensures { result.octets ≡ [] }
    {
        Given {
            marker: PhantomData,
        }
    }

    /// These octets more.
    pub fn note(&mut self, _piece: &[u8])
        ensures { self.new.octets ≡ self.old.octets ++ _piece.now }
    {}
}
