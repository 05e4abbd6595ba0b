//! What holds of every execution.

ghost use Rattle.multiplex.specs.Alone.{EachIsAlone};

use crate::handler::Handler;
use crate::source::Source;

/// In any execution each connection, as long as it isn't closed, is served as if it were alone, over a world that others
/// move in between: what is written there is a first part of what was made for what came there.
pub fn each_connection_is_alone<S: Source, H: Handler>()
    ensures { EachIsAlone S.effects S.Reader.input S.Writer.output H.behavior }
{}
