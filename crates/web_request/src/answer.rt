//! What is told in an answer's head.

/// How a request is answered (RFC 9110, 15).
#[derive(Clone, Copy, Debug, PartialEq, Eq)]
pub enum Status {
    /// 200.
    Success,
    /// 400.
    BadRequest,
    /// 401: a name and a password are asked for.
    Unauthorized,
    /// 403.
    Forbidden,
    /// 404.
    NotFound,
    /// 405.
    MethodNotAllowed,
    /// 413.
    ContentTooLarge,
    /// 431 (RFC 6585, 5).
    FieldsTooLarge,
    /// 500.
    InternalError,
    /// 503.
    Unavailable,
}

/// What a body is.
#[derive(Clone, Copy, Debug, PartialEq, Eq)]
pub enum Kind {
    /// A page of HTML.
    Html,
    /// CSV.
    Csv,
    /// JSON.
    Json,
}

/// How the end of a body is told (RFC 9112, 6.3).
#[derive(Clone, Copy, Debug, PartialEq, Eq)]
pub enum Body {
    /// By how many bytes it has, also where only the head is asked for.
    Length(usize),
    /// By an empty chunk, as `put_chunk` and `put_last_chunk` write it.
    Chunked,
    /// By the connection's end.
    UntilClose,
}

/// What the head of an answer tells.
#[derive(Clone, Copy, Debug, PartialEq, Eq)]
pub struct Answer {
    pub status: Status,
    pub kind: Kind,
    /// How the end of the body is told.
    pub body: Body,
    /// The connection is kept for a next request.
    pub keeps_open: bool,
}
