//! What a session began with.

ghost use Rattle.std.specs.Prelude.{ℕ, Option, None};
ghost use Rattle.session_output.specs.Runs.{Outputs, untouched};

use std::marker::Brand;

/// What a session began with. Proofs alone know it: a call at `Brand` picks it.
pub trait Beginning<S> {
    // the session before its first octet
    ghost first: { Option S };

    // its devices then
    ghost start: { Outputs };

    // the names of the borrows of its output and its diagnostics
    ghost output: { ℕ };

    ghost diagnostics: { ℕ };
}

impl<S> Beginning<S> for Brand {
    ghost first = { None };

    ghost start = { untouched };

    ghost output = { 0 };

    ghost diagnostics = { 0 };
}
