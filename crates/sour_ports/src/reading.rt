// Reading a source to its end.

ghost use Rattle.std.specs.Prelude.{◌≡◌, ◌≢◌, ◌+◌, ◌<◌, ◌≤◌, vec_len, IfOk, IfErr, IsErrOf};
ghost use Rattle.sour_ports.specs.Cause.{HasCause};
ghost use Rattle.sour_ports.specs.Told.{GivesAll, LosesFirst, LosesAtMost};

use crate::source::Source;
use std::alloc::Global;
use thiserror::Error;

// How many bytes one call asks for.
const PIECE: usize = 65536;

/// Why reading to the end stopped before it.
#[derive(Clone, Copy, Debug, PartialEq, Eq, Error)]
pub enum ReadStop {
    /// The source failed.
    #[error("the source failed")]
    Fault,
    /// The source has more bytes than the limit.
    #[error("the source has too many bytes")]
    TooLong,
    /// There is no memory for the bytes.
    #[error("out of memory")]
    Memory,
}

/// Reads a source to its end. It reads at most one byte more than `limit`, and then answers
/// `TooLong`. What was read before a stop is given up.
pub fn read_all<S: Source>(alloc: Global, source: &mut S, limit: usize) -> Result<Vec<u8>, ReadStop>
    requires { limit < usize.MAX }
    ensures short { IfOk result (λ bytes. vec_len bytes ≤ limit) }
    ensures whole { IfOk result (λ bytes. GivesAll (S.left source.old) (S.left source.new) bytes.items) }

    // `TooLong` comes exactly where `limit + 1` bytes were read.
    ensures too_long { IsErrOf result ReadStop.TooLong
        → LosesFirst (S.left source.old) (S.left source.new) (limit + 1) }
    ensures stopped { IfErr result (λ stop. stop ≢ ReadStop.TooLong
        → LosesAtMost (S.left source.old) (S.left source.new) limit) }

    ensures fault { IsErrOf result ReadStop.Fault → HasCause (S.faults source.old) (S.faults source.new) }
    ensures count { S.faults source.old ≤ S.faults source.new }
{
    let most = PIECE.min(limit + 1);
    let Ok(mut piece) = vec![in alloc; 0u8; most] else {
        return Err(ReadStop::Memory);
    };
    let mut bytes = Vec::new(alloc);
    loop {
        piece.truncate(limit + 1 - bytes.len());
        let Ok(count) = source.read(&mut piece) else {
            return Err(ReadStop::Fault);
        };
        if count == 0 {
            return Ok(bytes);
        }
        if limit - bytes.len() < count {
            return Err(ReadStop::TooLong);
        }
        if bytes.extend_from_slice(&piece[..count]).is_err() {
            return Err(ReadStop::Memory);
        }
    }
}
