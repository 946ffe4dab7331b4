//! Values of parameters (RFC 5424, 6.3.3).

ghost use Rattle.std.specs.Prelude.{◌≡◌, ◌≤◌, ◌∷◌, ◌++◌, ◌↔◌, [], IfOk, IfSome, IsTrue, length, take};
ghost use Rattle.std.specs.List.{AllByRecursion};
ghost use Rattle.octet_language.specs.Language.{◌⋅◌, AnyOf, Each, Only};
ghost use Rattle.octet_language.specs.Reading.{Follows, Passes, Reads};
ghost use Rattle.syslog_fields.specs.FirstElements.{HasNoMark};
ghost use Rattle.syslog_fields.specs.Forms.{BeginsLone, IsValueForm, ReadsForm, pieces_form};
ghost use Rattle.syslog_fields.specs.Spans.{Text};
ghost use Rattle.syslog_fields.specs.Stops.{remaining_of};
ghost use Rattle.syslog_fields.specs.Utf8.{IsCharacter};
ghost use Rattle.syslog_fields.specs.Values.{IsEscape, IsPlainOctet, PassesPlain, Piece};

use crate::backslash::{behind_escapes, ends_taking, has_lone};
use crate::character::behind_character;
use crate::lanes::{LANES, plain_run};
use crate::near::near_either;
use crate::reading::{Stop, behind_first, both, expect, next};
use crate::text::is_text;
use crate::unescape::begins_special;

/// Reads one character, which is mostly a single octet.
#[inline(always)]
fn behind_escaped(octets: &[u8]) -> Result<&[u8], Stop>
    ensures { Passes remaining_of IsCharacter (λ x. x.now) octets.now result }
{
    if let Some((first, rest)) = next(octets) {
        if first < 0x80 {
            return Ok(rest);
        }
    }
    behind_character(octets)
}

/// Reads one piece of a value.
#[inline(always)]
fn behind_piece(octets: &[u8]) -> Result<&[u8], Stop>
    ensures { Passes remaining_of (AnyOf Piece) (λ x. x.now) octets.now result }
{
    let Some((first, rest)) = next(octets) else {
        return Err(Stop {
            remaining: octets.len(),
        });
    };
    if first == b'\\' {
        return behind_escaped(rest);
    }
    if first == b'"' {
        return Err(Stop {
            remaining: octets.len(),
        });
    }
    if first == b']' {
        return Err(Stop {
            remaining: octets.len(),
        });
    }
    behind_character(octets)
}

/// Whether an octet is a piece of a value that means itself.
#[inline(always)]
fn is_plain(octet: u8) -> bool
    ensures { IsTrue result ↔ IsPlainOctet octet }
{
    octet < 0x80 && octet != b'"' && octet != b'\\' && octet != b']'
}

/// Whether the first octet is a piece of a value that means itself.
#[inline(always)]
fn begins_plain(octets: &[u8]) -> bool {
    match octets {
        [] => false,
        [octet, ..] => is_plain(*octet),
    }
}

/// An offset up to which all octets are pieces of a value that mean themselves, found sixteen at a
/// time.
#[inline(always)]
fn plain_blocks(octets: &[u8]) -> usize
    ensures within { result ≤ length octets.now }
    ensures plain { AllByRecursion IsPlainOctet (take result octets.now) }
{
    let mut at = 0;
    while octets.len() - at >= LANES {
        let run = plain_run(octets, at);
        at += run;
        if run < LANES {
            return at;
        }
    }
    at
}

/// How many octets at the start are pieces of a value that mean themselves: often none, behind an
/// escape.
#[inline(always)]
fn plain_len(octets: &[u8]) -> usize
    ensures within { result ≤ length octets.now }
    ensures plain { AllByRecursion IsPlainOctet (take result octets.now) }
{
    if !begins_plain(octets) {
        return 0;
    }
    for i in plain_blocks(octets)..octets.len() {
        if !is_plain(octets[i]) {
            return i;
        }
    }
    octets.len()
}

/// What follows the octets at the start that are pieces meaning themselves.
#[inline(always)]
fn behind_plain(octets: &[u8]) -> &[u8]
    ensures { PassesPlain octets.now result.now }
{
    let (_, rest) = octets.split_at(plain_len(octets));
    rest
}

/// Whether the piece that comes first is spelled as in a canonical record, where a backslash only
/// begins an escape.
#[inline(always)]
fn begins_form(octets: &[u8]) -> bool
    ensures form { IsTrue result → ¬ (BeginsLone octets.now) }
    ensures lone { (IsTrue result → ⊥) → BeginsLone octets.now }
{
    let Some((first, behind)) = next(octets) else {
        return true;
    };
    if first != b'\\' {
        return true;
    }
    begins_special(behind)
}

/// Reads a value and the quotation mark that ends it, piece by piece, and tells whether the value is
/// spelled as in a canonical record.
fn behind_value(octets: &[u8]) -> Result<(&[u8], bool), Stop>
    ensures reads { Passes remaining_of (AnyOf (Each Piece) ⋅ Only (34 ∷ [])) (λ x. x.0.now)
        octets.now result }
    ensures form { IfOk result (λ x.
        ReadsForm (Each Piece) pieces_form x.1 octets.now (34 ∷ x.0.now)) }
{
    let mut is_form = true;
    let mut rest = behind_plain(octets);
    while let Some((first, after)) = next(rest) {
        if first == b'"' {
            return Ok((after, is_form));
        }
        let behind = behind_piece(rest)?;
        is_form = both(is_form, begins_form(rest));
        rest = behind_plain(behind);
    }
    Err(Stop {
        remaining: rest.len(),
    })
}

/// Reads a value as [`value`] does, from any octets.
#[cold]
fn value_of_pieces(octets: &[u8]) -> Result<(&[u8], &[u8], bool), Stop>
    ensures reads { Reads remaining_of (λ raw. Text (AnyOf (Each Piece)) raw ⋅ Only (34 ∷ []))
        (λ x. (x.0.now, x.1.now)) octets.now result }
    ensures form { IfOk result (λ x. IsValueForm x.2 x.0.now) }
{
    let (rest, is_form) = behind_value(octets)?;
    let (raw, _) = octets.split_at(octets.len() - rest.len() - 1);
    Ok((raw, rest, is_form))
}

/// Reads a value without a backslash or an octet above ASCII, and its quotation mark.
#[inline(always)]
fn plain_value(octets: &[u8]) -> Option<(&[u8], &[u8])>
    ensures { IfSome result (λ x. (octets.now ≡ x.0.now ++ 34 ∷ x.1.now)
        × AllByRecursion IsPlainOctet x.0.now) }
{
    let (plain, rest) = octets.split_at(plain_len(octets));
    match expect(b'"', rest) {
        Ok(behind) => Some((plain, behind)),
        Err(_) => None,
    }
}

/// The octets up to a quotation mark that no backslash takes, and what follows it, unless a closing
/// bracket that no backslash takes comes before it.
#[inline(always)]
fn marked_value(octets: &[u8]) -> Option<(&[u8], &[u8])>
    ensures { IfSome result (λ x. (octets.now ≡ x.0.now ++ 34 ∷ x.1.now) × HasNoMark x.0.now) }
{
    let mut rest = octets;
    while let Some(offset) = near_either(b'"', b']', rest) {
        let (_, found) = rest.split_at(offset);
        let (before, _) = octets.split_at(octets.len() - found.len());
        if !ends_taking(before) {
            return match expect(b'"', found) {
                Ok(behind) => Some((before, behind)),
                Err(_) => None,
            };
        }
        rest = behind_escapes(behind_first(found));
    }
    None
}

/// Reads a value by its marks, and its quotation mark: if all its octets are characters, each one
/// that is no mark is part of a piece.
#[inline(always)]
fn text_value(octets: &[u8]) -> Option<(&[u8], &[u8], bool)>
    ensures reads { IfSome result (λ x.
        Follows (Text (AnyOf (Each Piece)) x.0.now ⋅ Only (34 ∷ [])) octets.now x.1.now) }
    ensures form { IfSome result (λ x. IsValueForm x.2 x.0.now) }
{
    let (raw, rest) = marked_value(octets)?;
    if !is_text(raw) {
        return None;
    }
    Some((raw, rest, !has_lone(raw)))
}

/// Reads a value and the quotation mark that ends it. It gives the value as it is spelled, what
/// follows, and whether it is spelled as in a canonical record. The [`Stop`] is at the first octet
/// with which these cannot go on.
#[inline]
pub fn value(octets: &[u8]) -> Result<(&[u8], &[u8], bool), Stop>
    ensures reads { Reads remaining_of (λ raw. Text (AnyOf (Each Piece)) raw ⋅ Only (34 ∷ []))
        (λ x. (x.0.now, x.1.now)) octets.now result }
    ensures form { IfOk result (λ x. IsValueForm x.2 x.0.now) }
{
    if let Some((raw, rest)) = plain_value(octets) {
        return Ok((raw, rest, true));
    }
    if let Some(read) = text_value(octets) {
        return Ok(read);
    }
    value_of_pieces(octets)
}

/// Whether a piece is a special character after a backslash.
#[inline(always)]
fn is_escape(piece: &[u8]) -> bool
    ensures escape { IsTrue result → IsEscape piece.now }
    ensures other { (IsTrue result → ⊥) → IsEscape piece.now → ⊥ }
{
    match piece {
        [b'\\', octet] => *octet == b'"' || *octet == b'\\' || *octet == b']',
        _ => false,
    }
}

/// What a piece means.
#[inline(always)]
fn meaning(piece: &[u8]) -> &[u8]
    ensures { AnyOf Piece piece.now → Piece result.now piece.now }
{
    if is_escape(piece) {
        let (_, meaning) = piece.split_at(1);
        return meaning;
    }
    piece
}

/// Reads one piece of a value, and gives what it means and what follows it. The [`Stop`] is at the
/// first octet with which it cannot go on.
#[inline(always)]
pub fn piece(octets: &[u8]) -> Result<(&[u8], &[u8]), Stop>
    ensures { Reads remaining_of Piece (λ x. (x.0.now, x.1.now)) octets.now result }
{
    let rest = behind_piece(octets)?;
    let (piece, _) = octets.split_at(octets.len() - rest.len());
    Ok((meaning(piece), rest))
}
