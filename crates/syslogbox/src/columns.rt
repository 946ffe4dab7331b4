//! How wide a terminal is.

use archive_counts::{CountForm, CountOptions};
use std::env;

// The least width that is taken over.
const COLUMNS_MIN: u16 = 20;

// The width that the environment tells, if it tells one.
fn told_columns(rt: &HostRuntime) -> Option<u16> {
    let text = env::var(rt, "COLUMNS").ok()?;
    let columns = text.as_str().parse::<u16>().ok()?;
    (columns >= COLUMNS_MIN).then_some(columns)
}

/// The same options, with bars as wide as the terminal, where the environment tells it.
pub fn fitted(rt: &HostRuntime, options: CountOptions) -> CountOptions {
    let form = match options.form {
        CountForm::Bars { columns } => CountForm::Bars {
            columns: told_columns(rt).unwrap_or(columns),
        },
        other => other,
    };
    CountOptions {
        keys: options.keys,
        top: options.top,
        form,
    }
}
