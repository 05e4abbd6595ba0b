//! What a step of a browser's connection comes to.

/// What a step of a browser's connection comes to.
#[derive(Clone, Copy, Debug, PartialEq, Eq)]
pub enum WebStep {
    /// No whole head of a request is there.
    NeedsInput,
    /// There is more to answer: ask again, once what was made is written.
    Continues,
    /// The answer is over, and the connection is to be closed after it.
    Ended,
    /// The answer is over: who asked isn't one of the settings' users and was told so. Credentials were
    /// given; who gave none is answered as `Ended`.
    Denied,
}
