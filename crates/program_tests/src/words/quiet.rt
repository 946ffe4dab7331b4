//! Commands that are quiet.

use crate::words::{is_quiet, refuses_all};
use std::test::Fail;

#[test]
fn long_commands_may_be_quiet(rt: HostRuntime) -> Result<(), Fail> {
    let rows: [(&[&str], bool); 7] = [
        (&["archive"], false),
        (&["archive", "--quiet"], true),
        (&["union", "--quiet", "a", "b"], true),
        (&["compact", "--quiet", "d"], true),
        (&["reconcile", "d", "--quiet"], true),
        (&["verify", "d"], false),
        (&["stat", "d"], false),
    ];
    for (words, expected) in rows {
        assert_eq!(rt; is_quiet(&rt, words), Some(expected), "{words:?}");
    }
    refuses_all(
        &rt,
        &[
            &["check", "--quiet"],
            &["merge", "a", "b", "--quiet", "--quiet"],
            &["stat", "d", "--quiet"],
            &["answer", "d", "--quiet"],
        ],
    )
}
