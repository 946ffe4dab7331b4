//! Texts and numbers, appended.
ghost use Rattle.std.specs.Prelude.{◌≡◌, ◌++◌, OnOk, decimal};
ghost use Rattle.server_metrics.specs.Texts.{last_digit, number_line, seconds_text, six_digits};

use itoa::Buffer;
use std::alloc::AllocError;

const MICROS_PER_SECOND: u64 = 1_000_000;

/// Appends a text.
pub(crate) fn put(out: &mut Vec<u8>, text: &[u8]) -> Result<(), AllocError>
    ensures { OnOk result (out.new.items ≡ out.old.items ++ text.now) }
{
    out.extend_from_slice(text)
}

/// Appends a number in decimal digits.
pub(crate) fn put_number(out: &mut Vec<u8>, number: u64) -> Result<(), AllocError>
    ensures { OnOk result (out.new.items ≡ out.old.items ++ decimal number) }
{
    put(out, Buffer::new().format(number).as_bytes())
}

/// Appends a space and a number, which end the line of a sample.
#[tactic(auto, unfolding(crate::specs::Texts::number_line))]
pub(crate) fn put_value(out: &mut Vec<u8>, value: u64) -> Result<(), AllocError>
    ensures { OnOk result (out.new.items ≡ out.old.items ++ number_line value) }
{
    put(out, b" ")?;
    put_number(out, value)?;
    put(out, b"\n")
}

// The last decimal digit of a number.
fn last_digit(number: u64) -> u8
    ensures { result ≡ last_digit number }
{
    b'0' + (number % 10) as u8
}

// Appends the last six decimal digits of a number.
fn put_six_digits(out: &mut Vec<u8>, number: u64) -> Result<(), AllocError>
    ensures { OnOk result (out.new.items ≡ out.old.items ++ six_digits number) }
{
    put(
        out,
        &[
            last_digit(number / 100_000),
            last_digit(number / 10_000),
            last_digit(number / 1_000),
            last_digit(number / 100),
            last_digit(number / 10),
            last_digit(number),
        ],
    )
}

/// Appends microseconds as seconds with six decimals.
#[tactic(auto, unfolding(crate::specs::Texts::seconds_text))]
pub(crate) fn put_seconds(out: &mut Vec<u8>, micros: u64) -> Result<(), AllocError>
    ensures { OnOk result (out.new.items ≡ out.old.items ++ seconds_text micros) }
{
    put_number(out, micros / MICROS_PER_SECOND)?;
    put(out, b".")?;
    put_six_digits(out, micros)
}
