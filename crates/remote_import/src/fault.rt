//! What ended an import into a running server before its end.

use history_import::ImportFault;
use thiserror::Error;
use ua_client::ClientFault;

/// What ended an import into a running server before its end.
#[derive(Clone, Copy, Debug, PartialEq, Eq, Error)]
pub enum RemoteFault {
    /// The rows couldn't be read, or it couldn't be told what they came to.
    #[error("{0}")]
    Rows(ImportFault),
    /// A session wasn't opened, or a row not answered: the server refused, the connection met a fault, or memory ran out. The row
    /// may have been done there.
    #[error("{0}")]
    Server(ClientFault),
}

impl From<ImportFault> for RemoteFault {
    ghost use Rattle.std.specs.Prelude.{◌≡◌};
    ghost use Rattle.remote_import.specs.declared.fault.RemoteFault.TheVariants.{Rows};

    ghost from_gives = { λ cause told. told ≡ Rows cause };

    fn from(cause: ImportFault) -> RemoteFault {
        RemoteFault::Rows(cause)
    }
}

impl From<ClientFault> for RemoteFault {
    ghost use Rattle.std.specs.Prelude.{◌≡◌};
    ghost use Rattle.remote_import.specs.declared.fault.RemoteFault.TheVariants.{Server};

    ghost from_gives = { λ cause told. told ≡ Server cause };

    fn from(cause: ClientFault) -> RemoteFault {
        RemoteFault::Server(cause)
    }
}
