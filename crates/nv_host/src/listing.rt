//! What a directory of the host lists.

ghost use Rattle.std.specs.Prelude.{◌≡◌, IfOk, IfSome};

use nv_stream::Unread;
use std::alloc::Global;
use std::io::{ErrorKind, Read};

// A read gives whole names, and so has room for the longest one.
const PIECE: usize = 4096;

// So many pieces are a gibibyte.
const MOST_PIECES: usize = 1 << 18;

/// All that a reader gives, unless that are more than a gibibyte. Errors: where it can't be read, and want of memory.
pub(crate) fn read_listing<R: Read + Drop>(
    alloc: Global,
    mut reader: R,
) -> Result<Option<Vec<u8>>, Unread>
    ensures { IfOk result (λ read. IfSome read (λ listing. IfSome (R.remaining reader) (λ bytes. listing.items ≡ bytes))) }
{
    let mut piece = [0u8; PIECE];
    let mut listing = Vec::new(alloc);
    'pieces: for _ in 0..MOST_PIECES {
        match reader.read(&mut piece) {
            Ok(0) => return Ok(Some(listing)),
            Ok(count) => listing.extend_from_slice(&piece[..count])?,
            Err(error) => {
                if error.kind() != ErrorKind::Interrupted {
                    return Err(Unread::from(error));
                }
            }
        }
    }
    Ok(None)
}
