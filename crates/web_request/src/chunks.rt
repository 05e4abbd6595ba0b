//! How a body whose length isn't known goes out, a chunk at a time (RFC 9112, 7.1).

ghost use Rattle.std.specs.Prelude.{◌≡◌, ◌++◌, [], OnOk, OnErr};
ghost use Rattle.http1.specs.declared.encode.Encoder.TheVariants.{Chunked};
ghost use Rattle.http1.specs.Encoder.{piece_text, end_text};

use http1::encode::Encoder;
use std::alloc::AllocError;

/// Appends a piece of a body as a chunk; of an empty piece nothing, since an empty chunk ends the
/// body. The one error is that memory ran out, and then nothing is appended.
pub fn put_chunk(out: &mut Vec<u8>, piece: &[u8]) -> Result<(), AllocError>
    ensures written { OnOk result
        (out.new.items ≡ out.old.items ++ piece_text Chunked piece.now) }
    ensures kept { OnErr result (out.new.items ≡ out.old.items) }
{
    let mut encoder = Encoder::Chunked;
    match encoder.encode(out, piece) {
        Ok(()) => Ok(()),
        Err(_) => Err(AllocError),
    }
}

/// Appends the chunk that ends a body. The one error is that memory ran out, and then nothing is
/// appended.
pub fn put_last_chunk(out: &mut Vec<u8>) -> Result<(), AllocError>
    ensures written { OnOk result (out.new.items ≡ out.old.items ++ end_text Chunked []) }
    ensures kept { OnErr result (out.new.items ≡ out.old.items) }
{
    out.extend_from_slice(b"0\r\n\r\n")
}
