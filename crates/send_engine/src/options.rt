//! The options of `send`.

/// The texts of the options of `send`, as given or by default.
#[derive(Clone, Copy, Debug)]
pub struct SendOptions<'a> {
    /// The name of the sender's facility.
    pub facility: &'a str,
    /// The name of the record's severity.
    pub severity: &'a str,
    /// The name of the least severe severity that is let through.
    pub up_to: &'a str,
    /// HOSTNAME; None for NILVALUE.
    pub hostname: Option<&'a str>,
    /// APP-NAME; None for NILVALUE.
    pub app_name: Option<&'a str>,
    /// PROCID; None for NILVALUE.
    pub proc_id: Option<&'a str>,
    /// MSGID; None for NILVALUE.
    pub msg_id: Option<&'a str>,
    /// The time in microseconds from 1970-01-01T00:00:00Z, in decimal digits; None for NILVALUE.
    pub micros: Option<&'a str>,
    /// The name of the framing.
    pub framing: &'a str,
    /// The message.
    pub text: &'a str,
}
