//! Files by their names.

ghost use Rattle.std.specs.Prelude.{◌≡◌, ℕ, List, Option, IfSome};
ghost use Rattle.commands.specs.Files.{Finds, IsUnused};

use octet_devices::Input;

/// Files that are found by their names.
pub trait Files {
    /// The reader of a file.
    type Reader: Input + Drop;

    // the octets under each name that has a reader, where they are known
    ghost stored: { Self → Option (List ℕ → Option (List ℕ)) };

    /// A new reader of the file with this name, or None if there is none. No file changes.
    fn reader(&mut self, name: &str) -> Option<Self::Reader>
        ensures found { IfSome (stored self.old) (λ octets.
            Finds (λ reader. (Self.Reader.state reader).left) (octets name.now) result) }
        ensures unused { IfSome result (λ reader. IsUnused (Self.Reader.state reader)) }
        ensures same { stored self.new ≡ stored self.old };
}
