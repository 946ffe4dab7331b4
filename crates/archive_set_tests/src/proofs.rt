//! Proofs that records are in an archive, or are not.

use archive_proof::{
    ASKED_MAX, Answer, AskFault, AskedRecord, Proof, Prover, RecordsFault, confirm, put_proof,
    read_proof, read_records,
};
use archive_text::{ArchiveFault, entry_of_octets};
use archive_tree::TreeHead;
use std::alloc::Global;
use std::process::Abort;
use std::test::Fail;

const RECORDS: [&[u8]; 5] = [
    b"<13>1 - h a - - - x",
    b"<12>1 2024-02-29T23:00:00.000000Z h a - - - z",
    b"<14>1 2024-02-29T23:30:00.000000Z h a - - - y",
    b"<14>1 2024-03-01T00:00:00.000000Z h a - - - y",
    b"<14>1 2024-03-01T00:00:00.000000Z h a - - - z",
];

// a record that is asked for
fn read(alloc: Global, octets: &[u8]) -> Result<AskedRecord, AskFault> {
    AskedRecord::read(alloc, octets)
}

// the records that are asked for
fn asked(alloc: Global, texts: &[&[u8]]) -> Result<Vec<AskedRecord>, Fail> {
    let mut records = Vec::new(alloc);
    for octets in texts {
        if let Ok(record) = read(alloc, octets) {
            records.push(record)?;
        }
    }
    Ok(records)
}

// the head of the records but one, and the texts of the proofs of those that are asked for
fn proved(alloc: Global, texts: &[&[u8]], without: usize) -> Result<(TreeHead, Vec<u8>), Fail> {
    let mut prover = Prover::new(alloc, asked(alloc, texts)?)?;
    for (n, octets) in RECORDS.iter().enumerate() {
        if n != without {
            if let Ok(entry) = entry_of_octets(octets) {
                prover.push(&entry)?;
            }
        }
    }
    Ok(prover.finish(alloc)?)
}

// the first proof of a text, and what is behind it
fn first_proof<'a>(alloc: Global, text: &'a [u8]) -> Result<Option<(Proof, &'a [u8])>, Fail> {
    Ok(read_proof(alloc, text)?)
}

// what a proof of a record shows to someone with this head
fn shown(head: &TreeHead, record: &AskedRecord, proof: &Proof) -> Answer {
    confirm(head, &record.entry(), proof)
}

// sees that the proofs of a text are confirmed with a head, and with that of all records only if
// none is missing
fn see_confirmed(
    rt: &(impl Abort + AllocGlobal),
    heads: (&TreeHead, &TreeHead),
    text: &[u8],
    without: usize,
) -> Result<(), Fail> {
    let mut rest = text;
    for (n, record) in asked(rt.alloc(), &RECORDS)?.iter().enumerate() {
        let (proof, behind) = first_proof(rt.alloc(), rest)?.ok_or("no proof")?;
        let right = if n == without {
            Answer::Absent
        } else {
            Answer::Present
        };
        let with_all = if without == 5 {
            right
        } else {
            Answer::NotShown
        };
        assert!(rt; shown(heads.0, record, &proof) == right);
        assert!(rt; shown(heads.1, record, &proof) == with_all);
        rest = behind;
    }
    assert!(rt; rest.is_empty());
    Ok(())
}

#[test]
fn proofs_are_confirmed_with_their_own_head_alone(rt: HostRuntime) -> Result<(), Fail> {
    let (all, none) = proved(rt.alloc(), &[], RECORDS.len())?;
    assert!(rt; none.is_empty());
    for without in 0..6 {
        let (head, text) = proved(rt.alloc(), &RECORDS, without)?;
        see_confirmed(&rt, (&head, &all), &text, without)?;
    }
    Ok(())
}

#[test]
fn a_proof_is_read_as_it_is_written(rt: HostRuntime) -> Result<(), Fail> {
    let (_, text) = proved(rt.alloc(), &RECORDS[2..3], 2)?;
    let octets = text.as_slice();
    assert!(rt;
        octets.starts_with(
            b"absent\nbefore 45 <12>1 2024-02-29T23:00:00.000000Z h a - - - z\n1 2\n"
        )
    );
    for cut in 0..octets.len() {
        assert!(rt; first_proof(rt.alloc(), &octets[..cut])?.is_none());
    }
    let (proof, rest) = first_proof(rt.alloc(), octets)?.ok_or("no proof")?;
    assert!(rt; rest.is_empty());
    let mut again = Vec::new(rt.alloc());
    put_proof(&mut again, &proof)?;
    assert_eq!(rt; again.as_slice(), octets);
    assert!(rt; matches!(&proof, Proof::Absent(Some(_), Some(_))));
    Ok(())
}

#[test]
fn a_record_is_asked_for_in_any_spelling(rt: HostRuntime) -> Result<(), Fail> {
    let spelled = read(rt.alloc(), b"<14>1 2024-02-29T23:30:00Z h a - - - y");
    assert_eq!(rt;
        spelled.ok().ok_or("a fault")?.octets.as_slice(),
        RECORDS[2]
    );
    assert!(rt; matches!(read(rt.alloc(), b"<14>1 "), Err(AskFault::Bad(_))));
    Ok(())
}

// how many records a text has
fn count_of(alloc: Global, text: &[u8]) -> Result<usize, RecordsFault> {
    match read_records(alloc, text) {
        Ok(records) => Ok(records.len()),
        Err(fault) => Err(fault),
    }
}

#[test]
fn records_are_read_from_a_text(rt: HostRuntime) -> Result<(), Fail> {
    let bad = count_of(rt.alloc(), b"19 <13>1 - h a - - - x9 <13>1 - -x");
    assert!(rt;
        matches!(
            bad,
            Err(RecordsFault::Bad(ArchiveFault::BadEntry { at: 22, .. }))
        )
    );
    let mut text = Vec::new(rt.alloc());
    for _ in 0..ASKED_MAX {
        text.extend_from_slice(b"19 <13>1 - h a - - - x")?;
    }
    assert!(rt; matches!(count_of(rt.alloc(), &text), Ok(ASKED_MAX)));
    text.extend_from_slice(b"1")?;
    assert!(rt; matches!(count_of(rt.alloc(), &text), Err(RecordsFault::TooMany)));
    Ok(())
}
