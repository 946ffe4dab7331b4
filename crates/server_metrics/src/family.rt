//! Families of samples.
ghost use Rattle.std.specs.Prelude.{◌≡◌, ◌++◌, OnOk};
ghost use Rattle.server_metrics.specs.Families.{head_text, help_line, kind_text, single_text, type_line};

use crate::text::{put, put_value};
use std::alloc::AllocError;

/// What the samples of a family are.
#[derive(Clone, Copy, Debug, PartialEq, Eq)]
pub(crate) enum Kind {
    /// A number that only grows, or begins again at 0.
    Counter,
    /// A number that goes up and down.
    Gauge,
    /// How many values there were up to each bound, and their sum.
    Histogram,
}

fn put_kind(out: &mut Vec<u8>, kind: Kind) -> Result<(), AllocError>
    ensures { OnOk result (out.new.items ≡ out.old.items ++ kind_text kind) }
{
    match kind {
        Kind::Counter => put(out, b"counter"),
        Kind::Gauge => put(out, b"gauge"),
        Kind::Histogram => put(out, b"histogram"),
    }
}

// Appends the line that says what a family is of.
#[tactic(auto, unfolding(crate::specs::Families::help_line))]
fn put_help(out: &mut Vec<u8>, name: &[u8], help: &[u8]) -> Result<(), AllocError>
    ensures { OnOk result (out.new.items ≡ out.old.items ++ help_line name.now help.now) }
{
    put(out, b"# HELP ")?;
    put(out, name)?;
    put(out, b" ")?;
    put(out, help)?;
    put(out, b"\n")
}

// Appends the line that says what the samples of a family are.
#[tactic(auto, unfolding(crate::specs::Families::type_line))]
fn put_type(out: &mut Vec<u8>, name: &[u8], kind: Kind) -> Result<(), AllocError>
    ensures { OnOk result (out.new.items ≡ out.old.items ++ type_line name.now kind) }
{
    put(out, b"# TYPE ")?;
    put(out, name)?;
    put(out, b" ")?;
    put_kind(out, kind)?;
    put(out, b"\n")
}

/// Appends the two lines at the head of a family.
#[tactic(auto, unfolding(crate::specs::Families::head_text))]
pub(crate) fn put_head(
    out: &mut Vec<u8>,
    name: &[u8],
    help: &[u8],
    kind: Kind,
) -> Result<(), AllocError>
    ensures { OnOk result (out.new.items ≡ out.old.items ++ head_text name.now help.now kind) }
{
    put_help(out, name, help)?;
    put_type(out, name, kind)
}

// Appends a family of one sample without labels.
#[tactic(auto, unfolding(crate::specs::Families::single_text))]
fn put_single(
    out: &mut Vec<u8>,
    name: &[u8],
    help: &[u8],
    kind: Kind,
    value: u64,
) -> Result<(), AllocError>
    ensures { OnOk result (out.new.items
        ≡ out.old.items ++ single_text name.now help.now kind value) }
{
    put_head(out, name, help, kind)?;
    put(out, name)?;
    put_value(out, value)
}

/// Appends a counter without labels.
pub(crate) fn put_counter(
    out: &mut Vec<u8>,
    name: &[u8],
    help: &[u8],
    value: u64,
) -> Result<(), AllocError>
    ensures { OnOk result (out.new.items
        ≡ out.old.items ++ single_text name.now help.now Kind.Counter value) }
{
    put_single(out, name, help, Kind::Counter, value)
}

/// Appends a gauge without labels.
pub(crate) fn put_gauge(
    out: &mut Vec<u8>,
    name: &[u8],
    help: &[u8],
    value: u64,
) -> Result<(), AllocError>
    ensures { OnOk result (out.new.items
        ≡ out.old.items ++ single_text name.now help.now Kind.Gauge value) }
{
    put_single(out, name, help, Kind::Gauge, value)
}
