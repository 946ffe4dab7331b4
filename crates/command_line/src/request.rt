//! The request that a command line makes.

use archive_counts::CountOptions;
use archive_digest::Period;
use archive_sets::{Conditions, InRange};
use archive_tree::TreeHead;
use collect_engine::CollectWords;
use driver::ReadLimit;
use frame_engine::InputFraming;
use send_engine::SendOptions;
use server_words::ServeWords;
use syslog_frame::Framing;
use syslog_legacy::FrameReading;
use syslog_value::Instant;

/// When the fields of a record are colored by its severity.
#[derive(Clone, Copy, Debug, PartialEq, Eq)]
pub enum ColorWhen {
    /// On a terminal.
    Auto,
    /// Always.
    Always,
    /// Never.
    Never,
}

/// What is done with the frames of standard input.
#[derive(Clone, Copy, Debug, PartialEq, Eq)]
pub enum FrameCommand {
    /// `check`: one line for each frame, and if `summary` says so, a last one with counts of the
    /// legacy packets.
    Check { summary: bool },
    /// `show`: the fields of each record, one line each, or the record as one line of JSON.
    Show { json: bool, color: ColorWhen },
    /// `convert`: the canonical octets of each record, in a framing, or bare if there is none.
    Convert { to: Option<Framing> },
    /// `archive`: the records of the input, as an archive.
    Archive,
}

/// How the frames of standard input are read, and what is done with them.
#[derive(Clone, Copy, Debug, PartialEq, Eq)]
pub struct FrameRequest {
    /// The framing of the input.
    pub input_framing: InputFraming,
    /// How much of the input is read; of `archive` always the standard limit.
    pub limit: ReadLimit,
    /// How each frame is read.
    pub reading: FrameReading,
    /// What is done with the frames.
    pub command: FrameCommand,
}

/// What is done with the archives of files, by their names.
#[derive(Debug, Drop)]
pub enum FileRequest<'a> {
    /// `merge`: the archive of the records of two archives.
    Merge { left: &'a str, right: &'a str },
    /// `migrate`: the archive into which one of the old form is brought.
    Migrate { file: &'a str },
    /// `union`: the archive of the records of 1 to 512 archives.
    Union { files: Vec<&'a str> },
    /// `common`: the archive of the records that both archives have.
    Common { left: &'a str, right: &'a str },
    /// `minus`: the archive of the records that the left archive has and the right one lacks.
    Minus { left: &'a str, right: &'a str },
    /// `diff`: one line for each record that only one of two archives has.
    Diff { left: &'a str, right: &'a str },
}

/// How old the records are that `expire` removes.
#[derive(Clone, Copy, Debug, PartialEq, Eq)]
pub enum ExpireBound {
    /// They are from before an instant.
    Before(Instant),
    /// They are older than so many days.
    Keep { days: u32 },
    /// They are the oldest ones, without which the segments have at most so many MiB, 1 to 16,777,216.
    Room { mib: u32 },
}

/// What `expire` removes.
#[derive(Clone, Copy, Debug, PartialEq, Eq)]
pub struct ExpireWords {
    /// How old the records are.
    pub bound: ExpireBound,
    /// Whether records without a time are removed, too.
    pub undated: bool,
    /// Whether the store stays as it is, and lines say what would be removed.
    pub dry_run: bool,
}

/// Which way records cross between a store and that of another site.
#[derive(Clone, Copy, Debug, PartialEq, Eq)]
pub enum ReconcileWay {
    /// Each store gets what it lacks.
    Both,
    /// This store gets what it lacks, and the other one nothing.
    Pull,
    /// The other store gets what it lacks, and this one nothing.
    Push,
}

impl ReconcileWay {
    ghost use Rattle.std.specs.Prelude.{◌≡◌};
    ghost use Rattle.command_line.specs.Sites.{pulls, pushes};

    /// Whether this store gets what it lacks.
    pub fn pulls(self) -> bool
        ensures { result ≡ pulls self }
    {
        match self {
            ReconcileWay::Both | ReconcileWay::Pull => true,
            ReconcileWay::Push => false,
        }
    }

    /// Whether the other store gets what it lacks.
    pub fn pushes(self) -> bool
        ensures { result ≡ pushes self }
    {
        match self {
            ReconcileWay::Both | ReconcileWay::Push => true,
            ReconcileWay::Pull => false,
        }
    }
}

/// What `reconcile` compares, and what it does then.
#[derive(Clone, Copy, Debug, PartialEq, Eq)]
pub struct ReconcileWords {
    /// Which records are compared.
    pub range: InRange,
    /// Which way those cross that only one side has.
    pub way: ReconcileWay,
    /// Whether the stores are only compared, and stay as they are.
    pub dry_run: bool,
    /// How many MiB of records are got in all, 1 to 1,048,576.
    pub room_mib: u32,
    /// After how many seconds of silence from the other side it fails, 1 to 86,400.
    pub timeout_seconds: u32,
}

/// What `answer` allows the other site.
#[derive(Clone, Copy, Debug, PartialEq, Eq)]
pub struct AnswerWords {
    /// Whether the store takes no records.
    pub read_only: bool,
    /// How many MiB of records it takes in all, 1 to 1,048,576.
    pub room_mib: u32,
    /// After how many seconds of silence from the other side it fails, 1 to 86,400.
    pub timeout_seconds: u32,
}

/// What is written of the records that a store holds.
#[derive(Clone, Copy, Debug, PartialEq, Eq)]
pub enum ReadForm {
    /// Their archive.
    Archive,
    /// Their canonical octets, one record a line.
    Lines,
    /// One JSON object a line.
    Json,
    /// Their fields, as `show` writes them.
    Show,
}

/// Which of the records that meet the conditions `read` writes, and how.
#[derive(Clone, Copy, Debug, PartialEq, Eq)]
pub struct ReadWords {
    /// Only the last so many of them, 1 to 1,000,000.
    pub last: Option<u32>,
    /// What is written of them.
    pub form: ReadForm,
    /// When their fields are colored.
    pub color: ColorWhen,
    /// Whether damaged files are left out.
    pub partial: bool,
}

/// Which of the records that a server commits `follow` writes, and for how long.
#[derive(Clone, Copy, Debug, PartialEq, Eq)]
pub struct FollowWords {
    /// Whether those come first that the journals hold when it begins.
    pub from_start: bool,
    /// Whether it ends when standard input ends.
    pub until_eof: bool,
}

/// What the words of a command line ask for. Names of files and folders are lent by the words.
#[derive(Debug, Drop)]
pub enum Request<'a> {
    /// `check`, `show`, `convert` and `archive`: commands on the frames of standard input.
    Frames(FrameRequest),
    /// `archive --spill`: the archive of records that may not all fit in memory.
    SpillArchive {
        input_framing: InputFraming,
        reading: FrameReading,
        /// The folder for what does not fit.
        dir: &'a str,
        /// How many MiB the set may take in memory, 1 to 1,048,576.
        memory_mib: u32,
    },
    /// `merge`, `migrate`, `union`, `common`, `minus` and `diff`: commands on the archives of files.
    Files(FileRequest<'a>),
    /// `select`: the archive of the records of an archive that meet these conditions.
    Select {
        conditions: Conditions<'a>,
    },
    /// `digest`: one line for each period of an archive.
    Digest {
        period: Period,
        /// Whether each line ends with the Merkle tree hash of its records.
        has_roots: bool,
    },
    /// `count`: how many records of an archive have each value of some fields or times.
    Count {
        options: CountOptions,
    },
    /// `root`: how many records an archive has, and their Merkle tree hash.
    Root,
    /// `prove`: proofs that an archive has each of the records of a file, or that it has not.
    Prove {
        records: &'a str,
    },
    /// `confirm`: what proofs show of the records of a file and the archive with this head.
    Confirm {
        head: TreeHead,
        records: &'a str,
    },
    /// `send`: one record, as a frame.
    Send {
        options: SendOptions<'a>,
    },
    /// `collect`: the records that come to a port, as an archive.
    Collect {
        words: CollectWords,
    },
    /// `read`: the records that the store in a folder holds and that meet these conditions.
    Read {
        dir: &'a str,
        conditions: Conditions<'a>,
        words: ReadWords,
    },
    /// `follow`: the records that are committed to the store in a folder and that meet these conditions, as they come.
    Follow {
        dir: &'a str,
        conditions: Conditions<'a>,
        words: FollowWords,
    },
    /// `verify`: what is damaged in a store, one line each.
    Verify {
        dir: &'a str,
        /// A line that the ledger has to have.
        against: Option<&'a str>,
    },
    /// `stat`: what the files of a store have, one line each.
    Stat {
        dir: &'a str,
    },
    /// `compact`: the segments of each day of a store that has many are joined.
    Compact {
        dir: &'a str,
    },
    /// `add`: the records of an archive, into a store.
    Add {
        dir: &'a str,
    },
    /// `expire`: old records of a store are removed.
    Expire {
        dir: &'a str,
        words: ExpireWords,
    },
    /// `seal`: each day of a store that ended by a time is one segment then, whose root the ledger has.
    Seal {
        dir: &'a str,
        before: Instant,
    },
    /// `reconcile`: a store and that of another site, over standard input and output, come to hold the
    /// same records.
    Reconcile {
        dir: &'a str,
        words: ReconcileWords,
    },
    /// `answer`: the other side of `reconcile`.
    Answer {
        dir: &'a str,
        words: AnswerWords,
    },
    /// `backup`: all that a store holds, copied into a folder that is empty or missing.
    Backup {
        dir: &'a str,
        /// The folder of the copy.
        to: &'a str,
    },
    /// `serve`: the records that come to sockets, into a store.
    Serve {
        words: ServeWords<'a>,
    },
}

/// What the words of a command line ask for, and how it is done.
#[derive(Debug, Drop)]
pub struct Invocation<'a> {
    /// What they ask for.
    pub request: Request<'a>,
    /// Whether nothing is told of how far it is.
    pub is_quiet: bool,
}
