//! The table of options: one row for each option of a command, and for each value by its place.
//!
//! A row stands here once. From it and the table of commands come the parser and its help, the range that a reader tests, the text
//! for a value that is refused, the completions and the lists of the manual (`scripts/options.py`).

use crate::option_row::{Form, Kind, OptionRow};

// ---- How frames are read.

/// `--framing` of commands on frames.
pub const FRAMING: OptionRow = OptionRow {
    name: "framing",
    form: Form::Default("datagram"),
    value: "framing",
    kind: Kind::Words("datagram, counted or lf"),
    help: "Framing of the input: datagram, counted or lf",
};

/// `--trim` of commands that read frames.
pub const TRIM: OptionRow = OptionRow {
    name: "trim",
    form: Form::Flag,
    value: "",
    kind: Kind::Text,
    help: "Drop CR LF, LF, CR or NUL from the end of each frame, once",
};

/// `--legacy` of commands that read frames.
pub const LEGACY: OptionRow = OptionRow {
    name: "legacy",
    form: Form::Single,
    value: "year",
    kind: Kind::Year(1, 9_998),
    help: "Also read legacy packets (RFC 3164), with times of this year: 1 to 9998",
};

/// `--zone` of commands that read frames.
pub const ZONE: OptionRow = OptionRow {
    name: "zone",
    form: Form::Default("E0000"),
    value: "zone",
    kind: Kind::Zone,
    help: "Offset of their times from UTC: E (ahead) or W (behind), hours and minutes, such as E0130",
};

/// `--dialect` of commands that read frames.
pub const DIALECT: OptionRow = OptionRow {
    name: "dialect",
    form: Form::Default("bsd"),
    value: "dialect",
    kind: Kind::Words("bsd or wide"),
    help: "Dialect of legacy packets: bsd (RFC 3164) or wide (also what many devices and programs send)",
};

// ---- What is done with frames.

/// `--json` of `show`.
pub const JSON: OptionRow = OptionRow {
    name: "json",
    form: Form::Flag,
    value: "",
    kind: Kind::Text,
    help: "Write each record as one line of JSON",
};

/// `--color` of `show` and `read`.
pub const COLOR: OptionRow = OptionRow {
    name: "color",
    form: Form::Default("auto"),
    value: "when",
    kind: Kind::Words("auto, always or never"),
    help: "Color records by their severity: auto (on a terminal, unless NO_COLOR is set), always or never",
};

/// `--summary` of `check`.
pub const SUMMARY: OptionRow = OptionRow {
    name: "summary",
    form: Form::Flag,
    value: "",
    kind: Kind::Text,
    help: "At the end, print how many packets were legacy, and how many of these had no time or no host",
};

/// `--endless` of `check`, `show` and `convert`.
pub const ENDLESS: OptionRow = OptionRow {
    name: "endless",
    form: Form::Flag,
    value: "",
    kind: Kind::Text,
    help: "Read an input of any length, which otherwise may have at most 4 GiB",
};

/// `--to` of `convert`.
pub const OUTPUT_FRAMING: OptionRow = OptionRow {
    name: "to",
    form: Form::Single,
    value: "framing",
    kind: Kind::Words("counted or lf"),
    help: "Framing of the output: counted or lf [default: that of the input]",
};

/// `--spill` of `archive`.
pub const SPILL: OptionRow = OptionRow {
    name: "spill",
    form: Form::Single,
    value: "folder",
    kind: Kind::Folder,
    help: "Folder for what does not fit in memory; its files are unlinked while open",
};

/// `--memory` of `archive`.
pub const MEMORY: OptionRow = OptionRow {
    name: "memory",
    form: Form::Default("256"),
    value: "MiB",
    kind: Kind::Number(1, 1_048_576),
    help: "MiB of memory for the records, with --spill: 1 to 1048576",
};

// ---- Archives.

/// `--quiet` of commands that may take long.
pub const QUIET: OptionRow = OptionRow {
    name: "quiet",
    form: Form::Flag,
    value: "",
    kind: Kind::Text,
    help: "Do not show progress on a terminal",
};

/// `LEFT` of commands on two archives.
pub const LEFT: OptionRow = OptionRow {
    name: "LEFT",
    form: Form::Positional,
    value: "left",
    kind: Kind::File,
    help: "File of an archive",
};

/// `RIGHT` of commands on two archives.
pub const RIGHT: OptionRow = OptionRow {
    name: "RIGHT",
    form: Form::Positional,
    value: "right",
    kind: Kind::File,
    help: "File of another archive",
};

/// `FILE` of `migrate`.
pub const OLD_FILE: OptionRow = OptionRow {
    name: "FILE",
    form: Form::Positional,
    value: "file",
    kind: Kind::File,
    help: "File of an old archive",
};

/// `FILE` of `union`.
pub const FILES: OptionRow = OptionRow {
    name: "FILE",
    form: Form::Several,
    value: "file",
    kind: Kind::File,
    help: "Files of archives, 1 to 512 of them",
};

/// `--by` of `digest`.
pub const PERIOD: OptionRow = OptionRow {
    name: "by",
    form: Form::Default("day"),
    value: "period",
    kind: Kind::Words("month, day or hour"),
    help: "Length of the periods: month, day or hour",
};

/// `--root` of `digest`.
pub const ROOTS: OptionRow = OptionRow {
    name: "root",
    form: Form::Flag,
    value: "",
    kind: Kind::Text,
    help: "End each line with the Merkle tree hash of its records, as root writes it",
};

/// `--by` of `count`.
pub const KEYS: OptionRow = OptionRow {
    name: "by",
    form: Form::Single,
    value: "keys",
    kind: Kind::Keys,
    help: "Keys to count by, separated by commas: host, app, proc, msgid, facility, severity, day, hour or minute",
};

/// `--top` of `count`.
pub const TOP: OptionRow = OptionRow {
    name: "top",
    form: Form::Single,
    value: "n",
    kind: Kind::Number(1, 4_294_967_295),
    help: "Write only the first N lines: 1 to 4294967295",
};

/// `--json` of `count`.
pub const COUNTS_JSON: OptionRow = OptionRow {
    name: "json",
    form: Form::Flag,
    value: "",
    kind: Kind::Text,
    help: "Write each line as JSON",
};

/// `--bars` of `count`.
pub const BARS: OptionRow = OptionRow {
    name: "bars",
    form: Form::Flag,
    value: "",
    kind: Kind::Text,
    help: "Draw bars in the width of the terminal (COLUMNS, or 80)",
};

/// `COUNT` of `confirm`.
pub const HEAD_SIZE: OptionRow = OptionRow {
    name: "COUNT",
    form: Form::Positional,
    value: "count",
    kind: Kind::Size,
    help: "How many records the archive has, as root prints it",
};

/// `ROOT` of `confirm`.
pub const HEAD_HASH: OptionRow = OptionRow {
    name: "ROOT",
    form: Form::Positional,
    value: "root",
    kind: Kind::Hash,
    help: "Their Merkle tree hash, as root prints it",
};

/// `RECORDS` of `prove` and `confirm`.
pub const RECORDS: OptionRow = OptionRow {
    name: "RECORDS",
    form: Form::Positional,
    value: "records",
    kind: Kind::File,
    help: "File of records, as counted frames",
};

// ---- Conditions on records.

/// `--from` of `select`, `read` and `reconcile`.
pub const FROM: OptionRow = OptionRow {
    name: "from",
    form: Form::Single,
    value: "time",
    kind: Kind::Time,
    help: "Records at or after this time: 2026-11-25T10:00:00Z; 2026-11-25T10:00 or 2026-11-25 (UTC); or -30m, -1h, -2d",
};

/// `--to` of `select`, `read` and `reconcile`.
pub const UNTIL: OptionRow = OptionRow {
    name: "to",
    form: Form::Single,
    value: "time",
    kind: Kind::Time,
    help: "Records before this time",
};

/// `--undated` of `select`, `read` and `reconcile`.
pub const UNDATED: OptionRow = OptionRow {
    name: "undated",
    form: Form::Flag,
    value: "",
    kind: Kind::Text,
    help: "Also records without a time, which --from and --to leave out",
};

/// `--only-undated` of `select` and `read`.
pub const ONLY_UNDATED: OptionRow = OptionRow {
    name: "only-undated",
    form: Form::Flag,
    value: "",
    kind: Kind::Text,
    help: "Only records without a time",
};

/// `--severity` of `select` and `read`.
pub const SEVERITY: OptionRow = OptionRow {
    name: "severity",
    form: Form::Single,
    value: "name",
    kind: Kind::Words("emerg, alert, crit, err, warning, notice, info or debug"),
    help: "Records of this severity or a more severe one: emerg, alert, crit, err, warning, notice, info or debug",
};

/// `--facility` of `select` and `read`.
pub const FACILITY: OptionRow = OptionRow {
    name: "facility",
    form: Form::List,
    value: "name",
    kind: Kind::Facility,
    help: "Records of this facility, or of one of several: kern, user, mail, daemon, ... or local0 to local7",
};

/// `--host` of `select` and `read`.
pub const HOST: OptionRow = OptionRow {
    name: "host",
    form: Form::List,
    value: "word",
    kind: Kind::Word(255),
    help: "Records with this HOSTNAME, or one of several; - for none",
};

/// `--app` of `select` and `read`.
pub const APP: OptionRow = OptionRow {
    name: "app",
    form: Form::List,
    value: "word",
    kind: Kind::Word(48),
    help: "Records with this APP-NAME, or one of several; - for none",
};

/// `--proc` of `select` and `read`.
pub const PROC: OptionRow = OptionRow {
    name: "proc",
    form: Form::List,
    value: "word",
    kind: Kind::Word(128),
    help: "Records with this PROCID, or one of several; - for none",
};

/// `--msgid` of `select` and `read`.
pub const MSGID: OptionRow = OptionRow {
    name: "msgid",
    form: Form::List,
    value: "word",
    kind: Kind::Word(32),
    help: "Records with this MSGID, or one of several; - for none",
};

/// `--id` of `select` and `read`.
pub const ID: OptionRow = OptionRow {
    name: "id",
    form: Form::List,
    value: "id",
    kind: Kind::Id,
    help: "Records that have an element with this SD-ID, or one of several",
};

/// `--message` of `select` and `read`.
pub const RECORD_MESSAGE: OptionRow = OptionRow {
    name: "message",
    form: Form::List,
    value: "text",
    kind: Kind::NonEmpty,
    help: "Records whose message contains this text, or one of several",
};

/// `--host-like` of `select` and `read`.
pub const HOST_LIKE: OptionRow = OptionRow {
    name: "host-like",
    form: Form::List,
    value: "glob",
    kind: Kind::Pattern,
    help: "Records whose HOSTNAME matches this pattern, or one of several; * is any text, ? any character",
};

/// `--app-like` of `select` and `read`.
pub const APP_LIKE: OptionRow = OptionRow {
    name: "app-like",
    form: Form::List,
    value: "glob",
    kind: Kind::Pattern,
    help: "Records whose APP-NAME matches this pattern, or one of several; * is any text, ? any character",
};

/// `--not-host` of `select` and `read`.
pub const NOT_HOST: OptionRow = OptionRow {
    name: "not-host",
    form: Form::List,
    value: "word",
    kind: Kind::Word(255),
    help: "Records without this HOSTNAME, or any of several; - for none",
};

/// `--not-app` of `select` and `read`.
pub const NOT_APP: OptionRow = OptionRow {
    name: "not-app",
    form: Form::List,
    value: "word",
    kind: Kind::Word(48),
    help: "Records without this APP-NAME, or any of several; - for none",
};

/// `--not-message` of `select` and `read`.
pub const NOT_MESSAGE: OptionRow = OptionRow {
    name: "not-message",
    form: Form::List,
    value: "text",
    kind: Kind::NonEmpty,
    help: "Records whose message does not contain this text, or any of several",
};

// ---- One record that is sent.

/// `--facility` of `send`.
pub const SENT_FACILITY: OptionRow = OptionRow {
    name: "facility",
    form: Form::Default("user"),
    value: "name",
    kind: Kind::Facility,
    help: "Facility: kern, user, mail, daemon, ... or local0 to local7",
};

/// `--severity` of `send`.
pub const SENT_SEVERITY: OptionRow = OptionRow {
    name: "severity",
    form: Form::Default("notice"),
    value: "name",
    kind: Kind::Words("emerg, alert, crit, err, warning, notice, info or debug"),
    help: "Severity: emerg, alert, crit, err, warning, notice, info or debug",
};

/// `--up-to` of `send`.
pub const UP_TO: OptionRow = OptionRow {
    name: "up-to",
    form: Form::Default("debug"),
    value: "name",
    kind: Kind::Words("emerg, alert, crit, err, warning, notice, info or debug"),
    help: "Least severe severity that is sent",
};

/// `--framing` of `send`.
pub const SENT_FRAMING: OptionRow = OptionRow {
    name: "framing",
    form: Form::Default("lf"),
    value: "framing",
    kind: Kind::Words("counted or lf"),
    help: "Framing of the output: counted or lf",
};

/// `--host` of `send`.
pub const SENT_HOST: OptionRow = OptionRow {
    name: "host",
    form: Form::Single,
    value: "word",
    kind: Kind::Text,
    help: "HOSTNAME",
};

/// `--app` of `send`.
pub const SENT_APP: OptionRow = OptionRow {
    name: "app",
    form: Form::Single,
    value: "word",
    kind: Kind::Text,
    help: "APP-NAME",
};

/// `--proc` of `send`.
pub const SENT_PROC: OptionRow = OptionRow {
    name: "proc",
    form: Form::Single,
    value: "word",
    kind: Kind::Text,
    help: "PROCID",
};

/// `--msgid` of `send`.
pub const SENT_MSGID: OptionRow = OptionRow {
    name: "msgid",
    form: Form::Single,
    value: "word",
    kind: Kind::Text,
    help: "MSGID",
};

/// `--micros` of `send`.
pub const MICROS: OptionRow = OptionRow {
    name: "micros",
    form: Form::Single,
    value: "number",
    kind: Kind::Text,
    help: "Time: microseconds from 1970-01-01T00:00:00Z",
};

/// `TEXT` of `send`.
pub const MESSAGE: OptionRow = OptionRow {
    name: "TEXT",
    form: Form::Positional,
    value: "text",
    kind: Kind::Text,
    help: "Message",
};

// ---- Records that are collected into an archive.

/// `TRANSPORT` of `collect`.
pub const TRANSPORT: OptionRow = OptionRow {
    name: "TRANSPORT",
    form: Form::Positional,
    value: "transport",
    kind: Kind::Words("udp, counted or lf"),
    help: "udp, or counted or lf (both over TCP)",
};

/// `PORT` of `collect`.
pub const PORT: OptionRow = OptionRow {
    name: "PORT",
    form: Form::Positional,
    value: "port",
    kind: Kind::Number(1, 65_535),
    help: "Port: 1 to 65535",
};

/// `COUNT` of `collect`.
pub const COUNT: OptionRow = OptionRow {
    name: "COUNT",
    form: Form::Positional,
    value: "count",
    kind: Kind::Number(1, 1_000_000),
    help: "Number of datagrams (1 to 1000000) or connections (1 to 100000) to receive",
};

// ---- Stores.

/// `DIR` of the commands on a store that is there.
pub const DIR: OptionRow = OptionRow {
    name: "DIR",
    form: Form::Positional,
    value: "dir",
    kind: Kind::Folder,
    help: "Folder of a store",
};

/// `DIR` of `serve` and `add`.
pub const NEW_DIR: OptionRow = OptionRow {
    name: "DIR",
    form: Form::Positional,
    value: "dir",
    kind: Kind::Folder,
    help: "Folder of the store; it is made if it is missing",
};

/// `--last` of `read`.
pub const LAST: OptionRow = OptionRow {
    name: "last",
    form: Form::Single,
    value: "n",
    kind: Kind::Number(1, 1_000_000),
    help: "Only the last N of these records: 1 to 1000000",
};

/// `--as` of `read`.
pub const READ_FORM: OptionRow = OptionRow {
    name: "as",
    form: Form::Default("archive"),
    value: "form",
    kind: Kind::Words("archive, lines, json or show"),
    help: "What is written: archive; lines (one record a line); json (one object a line); or show (fields)",
};

/// `--partial` of `read`.
pub const PARTIAL: OptionRow = OptionRow {
    name: "partial",
    form: Form::Flag,
    value: "",
    kind: Kind::Text,
    help: "Tell each damaged file, and write what the other files hold",
};

/// `--before` of `expire`.
pub const BEFORE: OptionRow = OptionRow {
    name: "before",
    form: Form::Single,
    value: "time",
    kind: Kind::Time,
    help: "Remove the records before TIME, which is rounded down to the hour",
};

/// `--before` of `seal`.
pub const SEAL_BEFORE: OptionRow = OptionRow {
    name: "before",
    form: Form::Single,
    value: "time",
    kind: Kind::Time,
    help: "Seal the days that ended at or before TIME",
};

/// `--against` of `verify`.
pub const AGAINST: OptionRow = OptionRow {
    name: "against",
    form: Form::Single,
    value: "line",
    kind: Kind::NonEmpty,
    help: "Also check that the ledger still has this line, which seal printed",
};

/// `--keep` of `expire`.
pub const KEEP: OptionRow = OptionRow {
    name: "keep",
    form: Form::Single,
    value: "days",
    kind: Kind::Number(1, 36_500),
    help: "Remove the records that are older than DAYS days, rounded down to the hour: 1 to 36500",
};

/// `--room` of `expire`.
pub const EXPIRE_ROOM: OptionRow = OptionRow {
    name: "room",
    form: Form::Single,
    value: "mib",
    kind: Kind::Number(1, 16_777_216),
    help: "Remove the oldest days until the segments have at most MIB MiB: 1 to 16777216",
};

/// `--undated` of `expire`.
pub const EXPIRE_UNDATED: OptionRow = OptionRow {
    name: "undated",
    form: Form::Flag,
    value: "",
    kind: Kind::Text,
    help: "Remove the records without a time, too",
};

/// `--dry-run` of `expire`.
pub const DRY_RUN: OptionRow = OptionRow {
    name: "dry-run",
    form: Form::Flag,
    value: "",
    kind: Kind::Text,
    help: "Only list what would go, and change nothing",
};

// ---- Stores of two sites, and copies of a store.

/// `--pull` of `reconcile`.
pub const PULL: OptionRow = OptionRow {
    name: "pull",
    form: Form::Flag,
    value: "",
    kind: Kind::Text,
    help: "Only get records from the other store; with --push too, both",
};

/// `--push` of `reconcile`.
pub const PUSH: OptionRow = OptionRow {
    name: "push",
    form: Form::Flag,
    value: "",
    kind: Kind::Text,
    help: "Only put records into the other store; with --pull too, both",
};

/// `--dry-run` of `reconcile`.
pub const COMPARE_ALONE: OptionRow = OptionRow {
    name: "dry-run",
    form: Form::Flag,
    value: "",
    kind: Kind::Text,
    help: "Only compare the stores, and change neither",
};

/// `--read-only` of `answer`.
pub const READ_ONLY: OptionRow = OptionRow {
    name: "read-only",
    form: Form::Flag,
    value: "",
    kind: Kind::Text,
    help: "Take no records: the store stays as it is",
};

/// `--room` of `reconcile` and `answer`.
pub const ROOM: OptionRow = OptionRow {
    name: "room",
    form: Form::Default("1024"),
    value: "mib",
    kind: Kind::Number(1, 1_048_576),
    help: "Most MiB of records to accept from the other side in all: 1 to 1048576",
};

/// `--timeout` of `reconcile` and `answer`.
pub const TIMEOUT: OptionRow = OptionRow {
    name: "timeout",
    form: Form::Default("60"),
    value: "seconds",
    kind: Kind::Number(1, 86_400),
    help: "Seconds of silence from the other side after which the command fails: 1 to 86400",
};

/// `--from-start` of `follow`.
pub const FROM_START: OptionRow = OptionRow {
    name: "from-start",
    form: Form::Flag,
    value: "",
    kind: Kind::Text,
    help: "Begin with the records that the store's journals hold",
};

/// `DEST` of `backup`.
pub const COPY_DIR: OptionRow = OptionRow {
    name: "DEST",
    form: Form::Positional,
    value: "dest",
    kind: Kind::Folder,
    help: "Folder for the copy; it is made if it is missing, and has to be empty",
};

// ---- Records that are received into a store.

/// `--udp` of `serve`.
pub const UDP: OptionRow = OptionRow {
    name: "udp",
    form: Form::List,
    value: "addr:port",
    kind: Kind::Address,
    help: "Receive datagrams on ADDR:PORT, such as 127.0.0.1:514 or [::1]:514",
};

/// `--counted` of `serve`.
pub const COUNTED: OptionRow = OptionRow {
    name: "counted",
    form: Form::List,
    value: "addr:port",
    kind: Kind::Address,
    help: "Accept connections on ADDR:PORT whose frames are counted",
};

/// `--lf` of `serve`.
pub const LF: OptionRow = OptionRow {
    name: "lf",
    form: Form::List,
    value: "addr:port",
    kind: Kind::Address,
    help: "Accept connections on ADDR:PORT whose frames are lines",
};

/// `--unix` of `serve`.
pub const UNIX: OptionRow = OptionRow {
    name: "unix",
    form: Form::List,
    value: "path",
    kind: Kind::File,
    help: "Receive datagrams on a socket at this path",
};

/// `--inherited` of `serve`.
pub const INHERITED: OptionRow = OptionRow {
    name: "inherited",
    form: Form::List,
    value: "kind",
    kind: Kind::Words("udp, counted or lf"),
    help: "Use the next inherited descriptor, from 3 on, as a socket of this kind: udp, counted or lf",
};

/// `--allow` of `serve`.
pub const ALLOW: OptionRow = OptionRow {
    name: "allow",
    form: Form::List,
    value: "net",
    kind: Kind::Network,
    help: "Take records only from addresses in NET, such as 192.0.2.0/24 or 2001:db8::/32 [default: all]",
};

/// `--connections` of `serve`.
pub const CONNECTIONS: OptionRow = OptionRow {
    name: "connections",
    form: Form::Default("1024"),
    value: "n",
    kind: Kind::Number(1, 16_384),
    help: "Connections that may be open at once: 1 to 16384",
};

/// `--per-peer` of `serve`.
pub const PER_PEER: OptionRow = OptionRow {
    name: "per-peer",
    form: Form::Single,
    value: "n",
    kind: Kind::Number(1, 16_384),
    help: "Connections that one address may have open at once: 1 to 16384 [default: a quarter of all]",
};

/// `--idle` of `serve`.
pub const IDLE: OptionRow = OptionRow {
    name: "idle",
    form: Form::Single,
    value: "seconds",
    kind: Kind::Number(1, 31_536_000),
    help: "Seconds without an octet after which a connection is closed: 1 to 31536000 [default: never]",
};

/// `--commit` of `serve`.
pub const COMMIT: OptionRow = OptionRow {
    name: "commit",
    form: Form::Default("1000"),
    value: "ms",
    kind: Kind::Number(0, 3_600_000),
    help: "Milliseconds within which a record is committed: 0 (before the next read) to 3600000",
};

/// `--checkpoint` of `serve`.
pub const CHECKPOINT: OptionRow = OptionRow {
    name: "checkpoint",
    form: Form::Default("64"),
    value: "mib",
    kind: Kind::Number(1, 2_048),
    help: "MiB that a journal may reach before a checkpoint: 1 to 2048",
};

/// `--metrics` of `serve`.
pub const METRICS: OptionRow = OptionRow {
    name: "metrics",
    form: Form::Single,
    value: "addr:port",
    kind: Kind::Address,
    help: "Show metrics for Prometheus and the server's health over HTTP on ADDR:PORT",
};

/// `--rate` of `serve`.
pub const RATE: OptionRow = OptionRow {
    name: "rate",
    form: Form::Single,
    value: "n",
    kind: Kind::Number(1, 1_000_000),
    help: "Records a second that one address may send, and a burst of ten times as many: 1 to 1000000 [default: any]",
};

/// `--until-eof` of `serve` and `follow`.
pub const UNTIL_EOF: OptionRow = OptionRow {
    name: "until-eof",
    form: Form::Flag,
    value: "",
    kind: Kind::Text,
    help: "End when standard input ends",
};
