//! The commands of two sites, over pipes in memory.

use crate::sites::{ALL, EARLY, LATE, ROOM, UNDATED, has_just, set_of, store_of};
use crate::views::view_of;
use disk::MemoryDisk;
use octet_devices::{FromRead, ToWrite};
use site_engine::{Exchange, answer_read_only, answer_store, reconcile_store};
use std::alloc::Global;
use std::io::Cursor;
use std::str;
use std::test::Fail;
use store_test_support::calls::has;

// how often the asker begins anew, with one answer more
const TURNS: usize = 16;

// How a run ended: its status, what it wrote to the other site and to standard error, and the folder.
#[derive(Drop)]
struct Run {
    status: u8,
    sent: Vec<u8>,
    lines: Vec<u8>,
    disk: MemoryDisk,
}

// asks with the store of these records, and is answered so
fn ask(alloc: Global, texts: &[&[u8]], exchange: &Exchange, answers: &[u8]) -> Result<Run, Fail> {
    let mut disk = store_of(alloc, texts)?;
    let mut folder = view_of(alloc, &mut disk)?;
    let input = FromRead::new(Cursor::new(answers.to_vec(alloc)?));
    let mut sent = Vec::new(alloc);
    let mut lines = ToWrite::new(Vec::new(alloc));
    let output = ToWrite::new(&mut sent);
    let status = reconcile_store(
        alloc,
        &mut folder,
        &mut disk,
        exchange,
        input,
        output,
        &mut lines,
    );
    Ok(Run {
        status,
        sent,
        lines: lines.into_inner(),
        disk,
    })
}

// answers these requests from the store of these records
fn answer(
    alloc: Global,
    texts: &[&[u8]],
    is_read_only: bool,
    requests: &[u8],
) -> Result<Run, Fail> {
    let mut disk = store_of(alloc, texts)?;
    let mut folder = view_of(alloc, &mut disk)?;
    let input = FromRead::new(Cursor::new(requests.to_vec(alloc)?));
    let mut sent = Vec::new(alloc);
    let mut lines = ToWrite::new(Vec::new(alloc));
    let output = ToWrite::new(&mut sent);
    let status = if is_read_only {
        answer_read_only(alloc, &mut folder, input, output, &mut lines)
    } else {
        answer_store(
            alloc,
            &mut folder,
            &mut disk,
            ROOM,
            input,
            output,
            &mut lines,
        )
    };
    Ok(Run {
        status,
        sent,
        lines: lines.into_inner(),
        disk,
    })
}

// the runs of both sites: the asker begins anew with each answer more, until it needs no further one
fn meet(alloc: Global, exchange: &Exchange, is_read_only: bool) -> Result<(Run, Run), Fail> {
    let mut answers = Vec::new(alloc);
    for _ in 0..TURNS {
        let asker = ask(alloc, &[UNDATED, EARLY], exchange, answers.as_slice())?;
        let answerer = answer(alloc, &[EARLY, LATE], is_read_only, asker.sent.as_slice())?;
        if answerer.sent == answers {
            return Ok((asker, answerer));
        }
        answers = answerer.sent;
    }
    Err(Fail::new(format_args!("no end")))
}

// What is exchanged, and what comes of it.
#[derive(Clone, Copy)]
struct Row {
    pulls: bool,
    pushes: bool,
    is_dry: bool,
    is_read_only: bool,
    status: u8,
    line: &'static [u8],
    own: &'static [&'static [u8]],
    other: &'static [&'static [u8]],
}

const UNION: &[&[u8]] = &[UNDATED, EARLY, LATE];

const OWN: &[&[u8]] = &[UNDATED, EARLY];

const OTHER: &[&[u8]] = &[EARLY, LATE];

// exchanges so, and compares
fn is_as_said(alloc: Global, row: &Row) -> Result<(), Fail> {
    let exchange = Exchange {
        range: ALL,
        pulls: row.pulls,
        pushes: row.pushes,
        is_dry: row.is_dry,
        room: ROOM,
    };
    let (mut asker, mut answerer) = meet(alloc, &exchange, row.is_read_only)?;
    let own = set_of(alloc, &mut asker.disk, ALL, ROOM)?
        .ok()
        .ok_or("no set")?;
    let other = set_of(alloc, &mut answerer.disk, ALL, ROOM)?
        .ok()
        .ok_or("no set")?;
    if asker.status != row.status
        || answerer.status != 0
        || !has(asker.lines.as_slice(), row.line)
    {
        let line = str::from_utf8(asker.lines.as_slice())?;
        let status = asker.status;
        return Err(Fail::new(format_args!("{status} {line}")));
    }
    if !has_just(&own, row.own) || !has_just(&other, row.other) {
        return Err(Fail::new(format_args!("other records")));
    }
    Ok(())
}

// Both ways.
const BOTH: Row = Row {
    pulls: false,
    pushes: false,
    is_dry: false,
    is_read_only: false,
    status: 0,
    line: b"sent 1 records ",
    own: UNION,
    other: UNION,
};

#[test]
fn records_go_both_ways_or_one(rt: HostRuntime) -> Result<(), Fail> {
    let pull = Row {
        pulls: true,
        line: b"sent 0 records ",
        other: OTHER,
        ..BOTH
    };
    let push = Row {
        pushes: true,
        own: OWN,
        ..BOTH
    };
    for row in [BOTH, pull, push] {
        is_as_said(rt.alloc(), &row)?;
    }
    Ok(())
}

#[test]
fn a_dry_run_counts(rt: HostRuntime) -> Result<(), Fail> {
    let both = Row {
        is_dry: true,
        line: b"would send 1 records 19 octets, would get 1 records 48 octets, ",
        own: OWN,
        other: OTHER,
        ..BOTH
    };
    let push = Row {
        pushes: true,
        line: b"would send 1 records 19 octets, would get 0 records 0 octets, ",
        ..both
    };
    for row in [both, push] {
        is_as_said(rt.alloc(), &row)?;
    }
    Ok(())
}

#[test]
fn a_site_may_take_no_records(rt: HostRuntime) -> Result<(), Fail> {
    let both = Row {
        is_read_only: true,
        status: 1,
        line: b"1 records not taken\n",
        other: OTHER,
        ..BOTH
    };
    let push = Row {
        pushes: true,
        own: OWN,
        ..both
    };
    for row in [both, push] {
        is_as_said(rt.alloc(), &row)?;
    }
    Ok(())
}

#[test]
fn an_answer_that_cannot_be_so_is_told(rt: HostRuntime) -> Result<(), Fail> {
    let alloc = rt.alloc();
    let exchange = Exchange {
        range: ALL,
        pulls: false,
        pushes: false,
        is_dry: false,
        room: ROOM,
    };
    for (answers, line) in [
        (
            b"syslogbox answer 1\nparts x\n".as_slice(),
            b"what the other site says cannot be so\n".as_slice(),
        ),
        (
            b"syslogbox answer 2\n",
            b"the other site does not speak version 1 of the exchange: does its shell print something first?\n",
        ),
        (
            b"syslogbox answer 1\n",
            b"the other site ended the exchange\n",
        ),
        (b"syslogbox answer 1\nfailed\n", b"the other site failed\n"),
    ] {
        let mut run = ask(alloc, OWN, &exchange, answers)?;
        assert_eq!(rt; run.status, 2);
        assert!(rt; run.lines.as_slice() == line);
        let own = set_of(alloc, &mut run.disk, ALL, ROOM)?
            .ok()
            .ok_or("no set")?;
        assert!(rt; has_just(&own, OWN));
    }
    Ok(())
}
