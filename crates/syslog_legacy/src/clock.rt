//! What legacy packets do not say of themselves: their year, their offset (RFC 3164, section 4.1.2)
//! and how their senders spell them.

ghost use Rattle.std.specs.Prelude.{◌≡◌, ◌↔◌, IsSome, IfSome};
ghost use Rattle.syslog_value.specs.Instants.{IsOffset};
ghost use Rattle.syslog_legacy.specs.Clocks.{IsYear};

/// Which spellings of a legacy packet are understood.
#[derive(Clone, Copy, Debug, PartialEq, Eq)]
pub enum Dialect {
    /// The packets of RFC 3164, section 4: `Mmm dd hh:mm:ss`, a host, and a tag that ends in a colon.
    Bsd,
    /// Those, and what devices and programs send besides: a space behind PRI; timestamps of RFC
    /// 5424, timestamps with a year or a fraction, with a mark before them or a colon behind them;
    /// packets without a host; `NAME[PROCID]` without a colon.
    Wide,
}

/// What legacy packets do not say: their year, how many minutes their civil time is ahead of UTC,
/// and their dialect.
#[derive(Clone, Copy, Debug, PartialEq, Eq)]
pub struct LegacyClock {
    year: u16,
    offset_minutes: i16,
    pub(crate) dialect: Dialect,
    ghost year_valid: { IsYear year },
    ghost offset_valid: { IsOffset offset_minutes },
}

impl LegacyClock {
    ghost use Rattle.syslog_legacy.specs.declared.clock.Dialect.TheVariants.{Bsd};

    /// The clock of a year from 1 to 9998 and an offset of -1,439 to 1,439 minutes, else None. Its
    /// dialect is [Bsd](Dialect::Bsd).
    pub fn new(year: u16, offset_minutes: i16) -> Option<LegacyClock>
        ensures valid { IsSome result ↔ (IsYear year × IsOffset offset_minutes) }
        ensures year { IfSome result (λ clock. clock.year ≡ year) }
        ensures offset { IfSome result (λ clock. clock.offset_minutes ≡ offset_minutes) }
        ensures dialect { IfSome result (λ clock. clock.dialect ≡ Bsd) }
    {
        if year < 1 || year > 9998 || offset_minutes < -1439 || offset_minutes > 1439 {
            return None;
        }
        Some(LegacyClock {
            year,
            offset_minutes,
            dialect: Dialect::Bsd,
        })
    }

    /// The same clock with another dialect.
    pub fn with_dialect(self, dialect: Dialect) -> LegacyClock
        ensures year { result.year ≡ self.year }
        ensures offset { result.offset_minutes ≡ self.offset_minutes }
        ensures dialect { result.dialect ≡ dialect }
    {
        LegacyClock {
            year: self.year,
            offset_minutes: self.offset_minutes,
            dialect,
        }
    }

    /// The year of timestamps that have none, 1 to 9998.
    pub fn year(&self) -> u16
        ensures value { result ≡ self.now.year }
        ensures range { IsYear result }
    {
        self.year
    }

    /// How many minutes the civil time is ahead of UTC, -1,439 to 1,439.
    pub fn offset_minutes(&self) -> i16
        ensures value { result ≡ self.now.offset_minutes }
        ensures range { IsOffset result }
    {
        self.offset_minutes
    }

    /// Which spellings are understood.
    pub fn dialect(&self) -> Dialect
        ensures { result ≡ self.now.dialect }
    {
        self.dialect
    }
}
