//! How severe an event is (RFC 5424, section 6.2.1, table 2).
ghost use Rattle.std.specs.Prelude.{◌≡◌, ◌≢◌, ◌≤◌, ◌↔◌, IsSome, IfSome, IfNone};
ghost use Rattle.syslog_value.specs.Severities.{severity_code, severity_name, IsNoSeverityName};

/// A severity of RFC 5424, from the most severe to the least.
#[derive(Clone, Copy, Debug, PartialEq, Eq, PartialOrd, Ord)]
pub enum Severity {
    /// The system is unusable.
    Emergency,
    /// Action must be taken immediately.
    Alert,
    /// Critical conditions.
    Critical,
    /// Error conditions.
    Error,
    /// Warning conditions.
    Warning,
    /// Normal but significant conditions.
    Notice,
    /// Informational messages.
    Informational,
    /// Debug-level messages.
    Debug,
}

impl Severity {
    /// Every severity, at the offset of its code.
    pub const ALL: [Severity; 8] = [
        Severity::Emergency,
        Severity::Alert,
        Severity::Critical,
        Severity::Error,
        Severity::Warning,
        Severity::Notice,
        Severity::Informational,
        Severity::Debug,
    ];

    /// The severity with this code; None above 7.
    pub fn from_code(code: u8) -> Option<Severity>
        ensures valid { IsSome result ↔ (code ≤ 7) }
        ensures value { IfSome result (λ severity. severity_code severity ≡ code) }
    {
        let offset = usize::from(code);
        if offset < Severity::ALL.len() {
            Some(Severity::ALL[offset])
        } else {
            None
        }
    }

    /// The code, 0 to 7.
    pub fn code(self) -> u8
        ensures value { result ≡ severity_code self }
        ensures range { result ≤ 7 }
    {
        self as u8
    }

    /// The short name, in lower case, such as `err`.
    pub fn name(self) -> &'static str
        ensures { result.now ≡ severity_name self }
    {
        match self {
            Severity::Emergency => "emerg",
            Severity::Alert => "alert",
            Severity::Critical => "crit",
            Severity::Error => "err",
            Severity::Warning => "warning",
            Severity::Notice => "notice",
            Severity::Informational => "info",
            Severity::Debug => "debug",
        }
    }

    /// The severity with this short name, in lower case; None if there is none.
    pub fn from_name(name: &str) -> Option<Severity>
        ensures found { IfSome result (λ severity. severity_name severity ≡ name.now) }
        ensures none { IfNone result (IsNoSeverityName name.now) }
    {
        for severity in Severity::ALL {
            if severity.name() == name {
                return Some(severity);
            }
        }
        None
    }
}
