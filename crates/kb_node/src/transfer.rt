//! Reads and writes that are not interrupted.

ghost use Rattle.std.specs.Prelude.{◌≤◌, length, take, IfOk, MatchResult};
ghost use Rattle.std.specs.Io.KnownBytes.{Consumes, Keeps, WriteAppends};

use std::io;
use std::io::{ErrorKind, Read, Write};

/// One read that is not interrupted.
pub fn read_from<T: Read>(stream: &mut T, piece: &mut [u8]) -> io::Result<usize>
    ensures within { IfOk result (λ n. n ≤ length piece.old) }
    ensures bytes { MatchResult result (λ n. Consumes (T.remaining stream.old) (T.remaining stream.new) (take n piece.new))
        (λ _. Keeps (T.remaining stream.old) (T.remaining stream.new)) }
{
    for _ in 0..u64::MAX {
        match stream.read(piece) {
            Err(e) if e.kind() == ErrorKind::Interrupted => {}
            read => return read,
        }
    }
    Err(io::Error::from(ErrorKind::WouldBlock))
}

/// One write that is not interrupted.
pub fn write_to<T: Write>(stream: &mut T, bytes: &[u8]) -> io::Result<usize>
    ensures within { IfOk result (λ n. n ≤ length bytes.now) }
    ensures bytes { WriteAppends (T.contents stream.old) (T.contents stream.new) result bytes.now }
{
    for _ in 0..u64::MAX {
        match stream.write(bytes) {
            Err(e) if e.kind() == ErrorKind::Interrupted => {}
            written => return written,
        }
    }
    Err(io::Error::from(ErrorKind::WouldBlock))
}
