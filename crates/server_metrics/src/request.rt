//! What a request may ask for.

/// What the head of a request asks for. `body` is whether the method was GET, whose answer has a body,
/// and not HEAD (RFC 9110, 9.3.1 and 9.3.2).
#[derive(Clone, Copy, Debug, PartialEq, Eq)]
pub enum Asked {
    /// The head is not whole yet.
    More,
    /// There is no head of HTTP/1.0 or HTTP/1.1 with at most [`crate::HEADERS_MAX`] fields, whatever
    /// follows.
    Bad,
    /// The metrics, `/metrics`.
    Metrics {
        /// Whether the answer has a body.
        body: bool,
    },
    /// The health, `/health`.
    Health {
        /// Whether the answer has a body.
        body: bool,
    },
    /// Another path.
    NotFound {
        /// Whether the answer has a body.
        body: bool,
    },
    /// Another method than GET and HEAD.
    Method,
}
