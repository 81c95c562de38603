//! Lines of a bounded length.

ghost use Rattle.std.specs.Prelude.{◌≡◌, ◌≢◌, ◌≤◌, ◌<◌, ◌+◌, ◌-◌, length, take, vec_len, All, Ok, None, true, IfSome, IfErr, OnSome, OnOk};
ghost use Rattle.std.specs.Prelude.{OnErr};
ghost use Rattle.std.specs.Io.{StartsWith, StopsAt, IsEmptyOrEndsWith, appended_bytes};
ghost use Rattle.std.specs.Io.KnownBytes.{Consumes, IsAtEnd};
ghost use Rattle.std.specs.Io.BufRead.{take_through, DropsThrough};
ghost use Rattle.kb_broker.specs.Script.{fault_within, IsLengthFault, IsNoRoom};
ghost use Rattle.kb_broker.specs.ScriptRun.{IsCut};

use super::ScriptFault;
use super::line::place_of;
use std::io::{BufRead, ErrorKind};

/// The longest line, without its line feed.
pub const LINE_BYTES: usize = 8_400_000;

/// Takes the next line with its line feed, in place of what `line` held; at the end of the script `line` is empty.
///
/// At most `room` bytes are taken: a line that needs more is too long for the script, and one of more than `LINE_BYTES`
/// bytes is bad if its first byte past them is still taken.
pub fn next_line<R: BufRead>(
    reader: &mut R,
    line: &mut Vec<u8>,
    number: u64,
    room: usize,
) -> Result<(), ScriptFault>
    ensures text { OnOk result (IfSome (R.remaining reader.old) (λ xs. line.new.items ≡ take_through 10 xs)) }
    ensures rest { OnOk result (DropsThrough (R.remaining reader.old) (R.remaining reader.new) 10) }
    ensures sized { OnOk result (fault_within number room line.new.items ≡ None) }
    ensures fault { IfErr result (λ fault. IfSome (R.remaining reader.old) (λ xs.
        IsLengthFault (fault_within number room (take_through 10 xs)) fault)) }
    ensures stopped { OnErr result (IsCut (R.remaining reader.old) (R.remaining reader.new)) }
{
    line.clear();
    let limit = room.min(LINE_BYTES + 1);
    for _ in 0..u64::MAX {
        if append_some(reader, line, limit - line.len())? {
            return Ok(());
        }
        if limit == line.len() && LINE_BYTES < limit {
            return Err(ScriptFault::BadLine(number));
        }
    }
    Err(ScriptFault::Read)
}

/// Appends what the reader shows, through the first line feed and within `room`; whether a line feed or the end was met.
/// Where there is a byte and no room the script is too long.
fn append_some<R: BufRead>(
    reader: &mut R,
    line: &mut Vec<u8>,
    room: usize,
) -> Result<bool, ScriptFault>
    ensures within { vec_len line.new ≤ vec_len line.old + room }
    ensures appends { StartsWith line.new.items line.old.items }
    ensures stops { StopsAt (appended_bytes line.old.items line.new.items) 10 }
    ensures bytes { Consumes (R.remaining reader.old) (R.remaining reader.new) (appended_bytes line.old.items line.new.items) }
    ensures end { result ≡ Ok true → length (appended_bytes line.old.items line.new.items) ≡ 0
        → OnSome (R.remaining reader.old) (IsAtEnd (R.remaining reader.new)) }
    ensures no_byte_unless_done { result ≢ Ok true → All (λ x. x ≢ 10) (appended_bytes line.old.items line.new.items) }
    ensures done_at_byte_or_end { result ≡ Ok true → IsEmptyOrEndsWith (appended_bytes line.old.items line.new.items) 10 }
    ensures fault { IfErr result (λ fault. IfSome (R.remaining reader.old) (λ xs. IsNoRoom room xs fault)) }
{
    let shown = match reader.fill_buf() {
        Ok(shown) => shown,
        Err(e) => {
            return if e.kind() == ErrorKind::Interrupted {
                Ok(false)
            } else {
                Err(ScriptFault::Read)
            };
        }
    };
    if room == 0 && !shown.is_empty() {
        return Err(ScriptFault::TooLong);
    }
    let end = len_through(&shown[..shown.len().min(room)]);
    if line.extend_from_slice(&shown[..end]).is_err() {
        return Err(ScriptFault::Memory);
    }
    let is_done = end == 0 || shown[end - 1] == b'\n';
    reader.consume(end);
    Ok(is_done)
}

/// The length through the first line feed, or the whole length.
fn len_through(bytes: &[u8]) -> usize
    ensures bound { result ≤ length bytes.now }
    ensures some { 0 < length bytes.now → 0 < result }
    ensures before { All (λ x. x ≢ 10) (take (result - 1) bytes.now) }
{
    match place_of(bytes, b'\n') {
        Some(i) => i + 1,
        None => bytes.len(),
    }
}
