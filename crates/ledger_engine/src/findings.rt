//! What a ledger says, beside the files that there are.
ghost use Rattle.std.specs.Prelude.{◌≡◌, ◌↔◌, Contains, IfErr, IfOk, IfSome, IsTrue, map};
ghost use Rattle.ledger_engine.specs.Findings.{IsCompared, IsExamined, IsFoundOf, IsListedAbsent};
ghost use Rattle.ledger_engine.specs.Findings.{OpensLedger, WasSetAside};
ghost use Rattle.ledger_engine.specs.Known.{AreThose, IsOfStore, IsUnlisted, ledger_text};
ghost use Rattle.store_reading.specs.Causes.{IsCause, open_causes};
ghost use Rattle.store_reading.specs.Folders.{AreNamesOf};

use crate::known::{is_of_store, is_segment, ledger_name};
use archive_streams::InputFault;
use disk::FileName;
use ledger::{LedgerFault, Listed, Standing, read_ledger};
use octet_devices::Input;
use std::alloc::{AllocError, Global};
use store_reading::{Folder, ReadFault, list, open_file};

/// What is wrong with a store's ledger, or with the files beside it.
#[derive(Debug, Drop)]
pub struct LedgerFindings {
    /// The octet at which the first line begins that is none, or does not go on with the chain. Nothing else is found then.
    pub broken: Option<u64>,
    /// Whether it lacks the line that it has to have.
    pub lacks_line: bool,
    /// The segments that it lists and that are not there, in the order of their names.
    pub missing: Vec<Vec<u8>>,
    /// The segments that are there and that it does not list, in the order of their names.
    pub unlisted: Vec<FileName>,
    /// The files that no store has, in the order of their names.
    pub foreign: Vec<FileName>,
}

impl LedgerFindings {
    ghost use Rattle.ledger_engine.specs.Findings.{FindsNoFile, FindsNothing, MayPass};

    // Nothing but these.
    fn nothing(alloc: Global, broken: Option<u64>, lacks_line: bool) -> LedgerFindings
        ensures broken { result.broken ≡ broken }
        ensures lacks_line { result.lacks_line ≡ lacks_line }
        ensures files { FindsNoFile result }
    {
        LedgerFindings {
            broken,
            lacks_line,
            missing: Vec::new(alloc),
            unlisted: Vec::new(alloc),
            foreign: Vec::new(alloc),
        }
    }

    /// Whether a segment is found that may just have got its name, or just have gone.
    pub fn may_pass(&self) -> bool
        ensures { IsTrue result ↔ MayPass self.now }
    {
        !self.missing.is_empty() || !self.unlisted.is_empty()
    }

    /// Whether the same segments are missing, and the same are not listed.
    pub(crate) fn is_like(&self, other: &LedgerFindings) -> bool {
        self.missing == other.missing && are_same(&self.unlisted, &other.unlisted)
    }

    /// Whether nothing is wrong.
    pub fn is_empty(&self) -> bool
        ensures { IsTrue result ↔ FindsNothing self.now }
    {
        self.broken.is_none()
            && !self.lacks_line
            && self.missing.is_empty()
            && self.unlisted.is_empty()
            && self.foreign.is_empty()
    }
}

// Whether a name is among others.
fn is_among(names: &[FileName], name: &[u8]) -> bool
    ensures { IsTrue result ↔ Contains names.now name.now }
{
    names.iter().any(|other| other.as_octets() == name)
}

// Whether these are the same names in the same order.
fn are_same(names: &[FileName], others: &[FileName]) -> bool {
    let mut pairs = names.iter().zip(others.iter());
    names.len() == others.len() && pairs.all(|(name, other)| name.as_octets() == other.as_octets())
}

// Whether a segment was set aside by its owner, who may do that with one that is not sealed.
fn was_set_aside(
    alloc: Global,
    names: &[FileName],
    name: &[u8],
    listed: &Listed,
) -> Result<bool, AllocError>
    ensures { IfOk result (λ aside. IsTrue aside
        ↔ WasSetAside (Contains names.now) name.now listed.now) }
{
    let mut aside = b"damaged.".to_vec(alloc)?;
    aside.extend_from_slice(name)?;
    Ok(!listed.sealed && is_among(names, &aside))
}

// The segments that are listed, of which none is there, without those that were set aside.
fn missing_of(
    alloc: Global,
    names: &[FileName],
    absent: &Standing,
) -> Result<Vec<Vec<u8>>, AllocError>
    ensures { IfOk result (λ missing. IsListedAbsent (Contains names.now) absent.now missing.items) }
{
    let mut missing = Vec::new(alloc);
    'listed: for (name, listed) in absent.listed() {
        if !was_set_aside(alloc, names, name, listed)? {
            missing.push(name.to_vec(alloc)?)?;
        }
    }
    Ok(missing)
}

// Whether a name is that of a segment that is not listed.
fn is_unlisted(standing: &Standing, name: &[u8]) -> bool
    ensures { IsTrue result ↔ IsUnlisted standing.now name.now }
{
    is_segment(name) && !standing.lists(name)
}

// The names of segments that are not listed.
fn unlisted_of(
    alloc: Global,
    names: &[FileName],
    standing: &Standing,
) -> Result<Vec<FileName>, AllocError>
    ensures { IfOk result (λ unlisted. AreThose (IsUnlisted standing.now) names.now unlisted.items) }
{
    let mut unlisted = Vec::new(alloc);
    'names: for name in names {
        if is_unlisted(standing, name.as_octets()) {
            unlisted.push(name.copy(alloc)?)?;
        }
    }
    Ok(unlisted)
}

// The names of files that no store has.
fn foreign_of(alloc: Global, names: &[FileName]) -> Result<Vec<FileName>, AllocError>
    ensures { IfOk result (λ foreign. AreThose (λ name. ¬ (IsOfStore name)) names.now foreign.items) }
{
    let mut foreign = Vec::new(alloc);
    'names: for name in names {
        if !is_of_store(name.as_octets()) {
            foreign.push(name.copy(alloc)?)?;
        }
    }
    Ok(foreign)
}

// The octets of names.
fn octets_of(alloc: Global, names: &[FileName]) -> Result<Vec<&[u8]>, AllocError>
    ensures { IfOk result (λ octets. map (λ b. b.now) octets.items ≡ names.now) }
{
    let mut octets = Vec::new(alloc);
    'names: for name in names {
        octets.push(name.as_octets())?;
    }
    Ok(octets)
}

// What a ledger that was read says, beside these names.
fn compare(
    alloc: Global,
    names: &[FileName],
    standing: Standing,
    lacks_line: bool,
) -> Result<LedgerFindings, AllocError>
    ensures compared { IfOk result (IsCompared (Contains names.now) standing) }
    ensures lacks_line { IfOk result (λ f. f.lacks_line ≡ lacks_line) }
{
    let unlisted = unlisted_of(alloc, names, &standing)?;
    let foreign = foreign_of(alloc, names)?;
    let octets = octets_of(alloc, names)?;
    let absent = standing.missing(&octets);
    let missing = missing_of(alloc, names, &absent)?;
    Ok(LedgerFindings {
        broken: None,
        lacks_line,
        missing,
        unlisted,
        foreign,
    })
}

// Reads a ledger, and compares it with these names.
fn examine_file<R: Input>(
    alloc: Global,
    input: &mut R,
    names: &[FileName],
    against: Option<&[u8]>,
) -> Result<LedgerFindings, LedgerFault>
    ensures { IfOk result (λ f. IfSome (R.state input.old).left
        (λ text. IsExamined (Contains names.now) against.entry text f)) }
{
    match read_ledger(alloc, input, against) {
        Ok(read) => {
            let lacks_line = against.is_some() && !read.has_line;
            Ok(compare(alloc, names, read.standing, lacks_line)?)
        }
        Err(LedgerFault::Broken { at }) => Ok(LedgerFindings::nothing(alloc, Some(at), false)),
        Err(fault) => Err(fault),
    }
}

// Opens the ledger, where the folder has one.
fn open_ledger<F: Folder>(
    alloc: Global,
    folder: &mut F,
    names: &[FileName],
) -> Result<Option<F::File>, ReadFault>
    ensures opened { F.tells folder.new → AreNamesOf (F.files folder.old) names.now
        → IfOk result (OpensLedger F.File.state (F.files folder.old)) }
    ensures same { F.tells folder.new → F.files folder.new ≡ F.files folder.old }
    ensures told { F.tells folder.new → F.tells folder.old }
    ensures cause { IfErr result (IsCause (open_causes (F.has_failed folder.new) ledger_text)) }
{
    let name = ledger_name(alloc)?;
    match open_file(alloc, folder, &name) {
        Ok(file) => Ok(Some(file)),
        Err(ReadFault::Gone) if !is_among(names, name.as_octets()) => Ok(None),
        Err(fault) => Err(fault),
    }
}

// Why the ledger was not examined.
fn ledger_fault(alloc: Global, fault: LedgerFault) -> Result<ReadFault, AllocError>
    ensures { IfOk result (IsCause (open_causes ⊥ ledger_text)) }
{
    match fault {
        LedgerFault::Memory => Ok(ReadFault::Memory),
        LedgerFault::Input(_) | LedgerFault::Broken { .. } => Ok(ReadFault::Read {
            name: ledger_name(alloc)?,
            fault: InputFault::Device,
        }),
    }
}

/// Reads the ledger of a store, and compares it with the names of the files that there are: which segments it lists
/// that are missing, which are there and not listed, and which files no store has; and whether it has a line, if one is
/// given. Where there is no ledger, nothing is found but that it lacks the line. A segment NAME that is not sealed is not
/// missing where a file `damaged.NAME` is there: its owner has set it aside.
///
/// A segment may be named or removed while this is done, and then is found though nothing is wrong with it: what is
/// wrong is found again.
///
/// # Errors
/// That the names or the ledger could not be read, that the ledger is gone when it is to be opened, or lack of memory.
pub fn examine_ledger<F: Folder>(
    alloc: Global,
    folder: &mut F,
    against: Option<&[u8]>,
) -> Result<LedgerFindings, ReadFault>
    ensures found { F.tells folder.new → IfOk result (IsFoundOf (F.files folder.old) against.entry) }
    ensures same { F.tells folder.new → F.files folder.new ≡ F.files folder.old }
    ensures told { F.tells folder.new → F.tells folder.old }

    // a fault is told only of the ledger, and the folder's only where it failed
    ensures cause { IfErr result (IsCause (open_causes (F.has_failed folder.new) ledger_text)) }
{
    let names = list(alloc, folder)?;
    let Some(mut file) = open_ledger(alloc, folder, &names)? else {
        return Ok(LedgerFindings::nothing(alloc, None, against.is_some()));
    };
    match examine_file(alloc, &mut file, &names, against) {
        Ok(findings) => Ok(findings),
        Err(fault) => Err(ledger_fault(alloc, fault)?),
    }
}
