//! The table of commands: one row for each, with its options in the order of its help.

use crate::option_row::CommandRow;
use crate::options::{
    AGAINST, ALLOW, APP, APP_LIKE, BARS, BEFORE, CHECKPOINT, COLOR, COMMIT, COMPARE_ALONE,
    CONNECTIONS, COPY_DIR, COUNT, COUNTED, COUNTS_JSON, DIALECT, DIR, DRY_RUN, ENDLESS,
    EXPIRE_ROOM, EXPIRE_UNDATED, FACILITY, FILES, FRAMING, FROM, FROM_START, HEAD_HASH, HEAD_SIZE,
    HOST, HOST_LIKE, ID, IDLE, INHERITED, JSON, KEEP, KEYS, LAST, LEFT, LEGACY, LF, MEMORY,
    MESSAGE, METRICS, MICROS, MSGID, NEW_DIR, NOT_APP, NOT_HOST, NOT_MESSAGE, OLD_FILE,
    ONLY_UNDATED, OUTPUT_FRAMING, PARTIAL, PER_PEER, PERIOD, PORT, PROC, PULL, PUSH, QUIET, RATE,
    READ_FORM, READ_ONLY, RECORD_MESSAGE, RECORDS, RIGHT, ROOM, ROOTS, SEAL_BEFORE, SENT_APP,
    SENT_FACILITY, SENT_FRAMING, SENT_HOST, SENT_MSGID, SENT_PROC, SENT_SEVERITY, SEVERITY, SPILL,
    SUMMARY, TIMEOUT, TOP, TRANSPORT, TRIM, UDP, UNDATED, UNIX, UNTIL, UNTIL_EOF, UP_TO, ZONE,
};

/// `show`.
pub const SHOW_COMMAND: CommandRow = CommandRow {
    name: "show",
    about: "Write the fields of each record",
    options: &[FRAMING, TRIM, LEGACY, ZONE, DIALECT, ENDLESS, JSON, COLOR],
};

/// `check`.
pub const CHECK_COMMAND: CommandRow = CommandRow {
    name: "check",
    about: "Check each frame, and report where a bad one goes wrong",
    options: &[FRAMING, TRIM, LEGACY, ZONE, DIALECT, ENDLESS, SUMMARY],
};

/// `convert`.
pub const CONVERT_COMMAND: CommandRow = CommandRow {
    name: "convert",
    about: "Write the canonical octets of each record",
    options: &[
        FRAMING,
        TRIM,
        LEGACY,
        ZONE,
        DIALECT,
        ENDLESS,
        OUTPUT_FRAMING,
    ],
};

/// `archive`.
pub const ARCHIVE_COMMAND: CommandRow = CommandRow {
    name: "archive",
    about: "Write the records as an archive: each once, in its canonical form, in one order",
    options: &[FRAMING, TRIM, LEGACY, ZONE, DIALECT, SPILL, MEMORY, QUIET],
};

/// `merge`.
pub const MERGE_COMMAND: CommandRow = CommandRow {
    name: "merge",
    about: "Merge two archives into one",
    options: &[LEFT, RIGHT, QUIET],
};

/// `migrate`.
pub const MIGRATE_COMMAND: CommandRow = CommandRow {
    name: "migrate",
    about: "Convert an archive of the old format",
    options: &[OLD_FILE, QUIET],
};

/// `union`.
pub const UNION_COMMAND: CommandRow = CommandRow {
    name: "union",
    about: "Merge one or more archives into one",
    options: &[FILES, QUIET],
};

/// `common`.
pub const COMMON_COMMAND: CommandRow = CommandRow {
    name: "common",
    about: "Write the records that two archives have in common, as an archive",
    options: &[LEFT, RIGHT, QUIET],
};

/// `minus`.
pub const MINUS_COMMAND: CommandRow = CommandRow {
    name: "minus",
    about: "Write the records of one archive that another lacks, as an archive",
    options: &[LEFT, RIGHT, QUIET],
};

/// `diff`.
pub const DIFF_COMMAND: CommandRow = CommandRow {
    name: "diff",
    about: "Write a line for each record that only one of two archives has",
    options: &[LEFT, RIGHT, QUIET],
};

/// `select`.
pub const SELECT_COMMAND: CommandRow = CommandRow {
    name: "select",
    about: "Write the records of an archive that meet all conditions, as an archive",
    options: &[
        FROM,
        UNTIL,
        UNDATED,
        ONLY_UNDATED,
        SEVERITY,
        FACILITY,
        HOST,
        APP,
        PROC,
        MSGID,
        ID,
        RECORD_MESSAGE,
        HOST_LIKE,
        APP_LIKE,
        NOT_HOST,
        NOT_APP,
        NOT_MESSAGE,
        QUIET,
    ],
};

/// `digest`.
pub const DIGEST_COMMAND: CommandRow = CommandRow {
    name: "digest",
    about: "Write a line for each period of an archive: its records, octets and SHA-256",
    options: &[PERIOD, ROOTS, QUIET],
};

/// `count`.
pub const COUNT_COMMAND: CommandRow = CommandRow {
    name: "count",
    about: "Count the records of an archive by field or time",
    options: &[KEYS, TOP, COUNTS_JSON, BARS, QUIET],
};

/// `root`.
pub const ROOT_COMMAND: CommandRow = CommandRow {
    name: "root",
    about: "Write how many records an archive has, and their Merkle tree hash (RFC 9162)",
    options: &[QUIET],
};

/// `prove`.
pub const PROVE_COMMAND: CommandRow = CommandRow {
    name: "prove",
    about: "Write proofs that an archive has each given record, or does not",
    options: &[RECORDS, QUIET],
};

/// `confirm`.
pub const CONFIRM_COMMAND: CommandRow = CommandRow {
    name: "confirm",
    about: "Check proofs about records, without the archive",
    options: &[HEAD_SIZE, HEAD_HASH, RECORDS],
};

/// `read`.
pub const READ_COMMAND: CommandRow = CommandRow {
    name: "read",
    about: "Write the records that a store holds and that meet all conditions",
    options: &[
        DIR,
        FROM,
        UNTIL,
        UNDATED,
        ONLY_UNDATED,
        SEVERITY,
        FACILITY,
        HOST,
        APP,
        PROC,
        MSGID,
        ID,
        RECORD_MESSAGE,
        HOST_LIKE,
        APP_LIKE,
        NOT_HOST,
        NOT_APP,
        NOT_MESSAGE,
        LAST,
        READ_FORM,
        COLOR,
        PARTIAL,
    ],
};

/// `follow`.
pub const FOLLOW_COMMAND: CommandRow = CommandRow {
    name: "follow",
    about: "Write the records that a server commits to a store and that meet all conditions, as they arrive",
    options: &[
        DIR,
        FROM,
        UNTIL,
        UNDATED,
        ONLY_UNDATED,
        SEVERITY,
        FACILITY,
        HOST,
        APP,
        PROC,
        MSGID,
        ID,
        RECORD_MESSAGE,
        HOST_LIKE,
        APP_LIKE,
        NOT_HOST,
        NOT_APP,
        NOT_MESSAGE,
        FROM_START,
        UNTIL_EOF,
    ],
};

/// `verify`.
pub const VERIFY_COMMAND: CommandRow = CommandRow {
    name: "verify",
    about: "Read a whole store and write a line for each file that is damaged, missing or not listed",
    options: &[DIR, AGAINST, QUIET],
};

/// `stat`.
pub const STAT_COMMAND: CommandRow = CommandRow {
    name: "stat",
    about: "Write a line for each file of a store: its records, octets and times",
    options: &[DIR],
};

/// `compact`.
pub const COMPACT_COMMAND: CommandRow = CommandRow {
    name: "compact",
    about: "Join the segments of each day of a store that has more than eight",
    options: &[DIR, QUIET],
};

/// `add`.
pub const ADD_COMMAND: CommandRow = CommandRow {
    name: "add",
    about: "Add the records of an archive to a store",
    options: &[NEW_DIR, QUIET],
};

/// `expire`.
pub const EXPIRE_COMMAND: CommandRow = CommandRow {
    name: "expire",
    about: "Remove old records from a store, and write a line for each file that goes",
    options: &[
        DIR,
        BEFORE,
        KEEP,
        EXPIRE_ROOM,
        EXPIRE_UNDATED,
        DRY_RUN,
        QUIET,
    ],
};

/// `seal`.
pub const SEAL_COMMAND: CommandRow = CommandRow {
    name: "seal",
    about: "Seal the days of a store that are over: one segment each, and its root in the ledger",
    options: &[DIR, SEAL_BEFORE, QUIET],
};

/// `reconcile`.
pub const RECONCILE_COMMAND: CommandRow = CommandRow {
    name: "reconcile",
    about: "Bring this store and that of another site to the same records, over standard input and output",
    options: &[
        DIR,
        FROM,
        UNTIL,
        UNDATED,
        PULL,
        PUSH,
        COMPARE_ALONE,
        ROOM,
        TIMEOUT,
        QUIET,
    ],
};

/// `answer`.
pub const ANSWER_COMMAND: CommandRow = CommandRow {
    name: "answer",
    about: "Answer another site's reconcile, over standard input and output",
    options: &[DIR, READ_ONLY, ROOM, TIMEOUT],
};

/// `backup`.
pub const BACKUP_COMMAND: CommandRow = CommandRow {
    name: "backup",
    about: "Back up a store into a new folder",
    options: &[DIR, COPY_DIR],
};

/// `send`.
pub const SEND_COMMAND: CommandRow = CommandRow {
    name: "send",
    about: "Write one record as a frame",
    options: &[
        SENT_FACILITY,
        SENT_SEVERITY,
        UP_TO,
        SENT_FRAMING,
        SENT_HOST,
        SENT_APP,
        SENT_PROC,
        SENT_MSGID,
        MICROS,
        MESSAGE,
    ],
};

/// `collect`.
pub const COLLECT_COMMAND: CommandRow = CommandRow {
    name: "collect",
    about: "Receive records on 127.0.0.1 and write them as an archive",
    options: &[TRANSPORT, PORT, COUNT, TRIM, LEGACY, ZONE, DIALECT],
};

/// `serve`.
pub const SERVE_COMMAND: CommandRow = CommandRow {
    name: "serve",
    about: "Receive records from sockets into a store, until it is stopped",
    options: &[
        NEW_DIR,
        UDP,
        COUNTED,
        LF,
        UNIX,
        INHERITED,
        ALLOW,
        CONNECTIONS,
        PER_PEER,
        IDLE,
        COMMIT,
        CHECKPOINT,
        METRICS,
        RATE,
        UNTIL_EOF,
        TRIM,
        LEGACY,
        ZONE,
        DIALECT,
    ],
};

/// The commands, in the order of the help.
pub const COMMANDS: [CommandRow; 30] = [
    SHOW_COMMAND,
    CHECK_COMMAND,
    CONVERT_COMMAND,
    ARCHIVE_COMMAND,
    MERGE_COMMAND,
    MIGRATE_COMMAND,
    UNION_COMMAND,
    COMMON_COMMAND,
    MINUS_COMMAND,
    DIFF_COMMAND,
    SELECT_COMMAND,
    DIGEST_COMMAND,
    COUNT_COMMAND,
    ROOT_COMMAND,
    PROVE_COMMAND,
    CONFIRM_COMMAND,
    READ_COMMAND,
    FOLLOW_COMMAND,
    VERIFY_COMMAND,
    STAT_COMMAND,
    COMPACT_COMMAND,
    ADD_COMMAND,
    EXPIRE_COMMAND,
    SEAL_COMMAND,
    RECONCILE_COMMAND,
    ANSWER_COMMAND,
    BACKUP_COMMAND,
    SEND_COMMAND,
    COLLECT_COMMAND,
    SERVE_COMMAND,
];
