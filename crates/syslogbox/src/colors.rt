//! Whether records are shown in the colors of their severities.

use command_line::ColorWhen;
use std::env;
use std::io::IsTerminal;

// Whether the environment has a variable that is not empty.
fn is_set(rt: &HostRuntime, name: &str) -> bool {
    env::var(rt, name).is_ok_and(|value| !value.as_str().is_empty())
}

// Whether the environment names a terminal without colors.
fn is_dumb(rt: &HostRuntime) -> bool {
    env::var(rt, "TERM").is_ok_and(|name| name.as_str() == "dumb")
}

// Whether standard output is a terminal that has colors, and nobody refuses them: NO_COLOR does, unless it is empty.
fn are_shown(rt: &HostRuntime) -> bool {
    rt.stdout().is_terminal() && !is_set(rt, "NO_COLOR") && !is_dumb(rt)
}

/// Whether records are colored always or never, once the terminal and the environment are known.
pub fn settled(rt: &HostRuntime, when: ColorWhen) -> ColorWhen {
    match when {
        ColorWhen::Auto if are_shown(rt) => ColorWhen::Always,
        ColorWhen::Auto => ColorWhen::Never,
        when => when,
    }
}
