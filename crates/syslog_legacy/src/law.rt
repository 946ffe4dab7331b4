//! Laws of legacy packets, as contracts.

ghost use Rattle.std.specs.Prelude.{◌≡◌, ◌+◌, ◌≤◌, ℤ, List, ℕ, length};
ghost use Rattle.octet_language.specs.Language.{AnyOf};
ghost use Rattle.syslog_value.specs.Parts.{IsRecord, Parts};
ghost use Rattle.syslog_fields.specs.Canonical.{Canonical};
ghost use Rattle.syslog_value.specs.Instants.{IsOffset};
ghost use Rattle.syslog_legacy.specs.Clocks.{IsYear};
ghost use Rattle.syslog_legacy.specs.Readings.{Answer, Legacy, ReadAs};
ghost use Rattle.syslog_legacy.specs.declared.clock.LegacyClock.{LegacyClock};

use crate::clock::LegacyClock;
use crate::whole::legacy_view;

/// Under one clock a packet has exactly one answer.
pub fn packets_have_one_answer(clock: &LegacyClock, octets: &[u8])
    ensures some { AnyOf (Legacy clock.now) octets.now }
    ensures one { (k : LegacyClock) (x : Answer) (y : Answer) (b : List ℕ)
        → Legacy k x b → Legacy k y b → x ≡ y }
{
    let _seen = legacy_view(clock, octets);
}

/// What a legacy packet is read as is a record.
pub fn legacy_is_a_record()
    ensures { (clock : LegacyClock) (r : Parts ℤ) (b : List ℕ)
        → IsYear clock.year → IsOffset clock.offset_minutes → Legacy clock (ReadAs r) b
        → IsRecord r }
{}

/// The canonical octets of a legacy packet's record are at most 64 more than those of the packet.
/// So they fit each limit that is 64 above one that the packet fits.
pub fn legacy_canonical_is_bounded()
    ensures { (clock : LegacyClock) (r : Parts ℤ) (b : List ℕ) (c : List ℕ)
        (packet : ℕ) (entry : ℕ) → Legacy clock (ReadAs r) b → Canonical r c
        → length b ≤ packet → packet + 64 ≤ entry → length c ≤ entry }
{}
