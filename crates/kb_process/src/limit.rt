//! How many files a process may have open.

ghost use Rattle.std.specs.Prelude.{◌≡◌};
ghost use Rattle.kb_process.specs.Limit.{judged_limit, to_ask_for};

/// What stands in front of the limit.
const WORDS: &str = "Max open files";

/// What stands for no limit.
const NO_LIMIT: &str = "unlimited";

/// How many files a process needs beside its connections to start at all.
const LEAST: u64 = 32;

/// How many it needs beside them so that none is wanting: 256 files of a store, and those of the process itself.
const WANTED: u64 = 272;

/// Whether a process may have open as many files as it needs.
#[derive(Clone, Copy, Debug, PartialEq, Eq)]
pub enum OpenFiles {
    /// As many as it needs.
    Enough,
    /// Enough to start, and so many too few for all that it might have open.
    Few(u64),
    /// Too few to start: it takes so many.
    TooFew(u64),
}

/// Whether a limit of open files is enough for so many connections.
pub fn judge(limit: u64, connections: u32) -> OpenFiles
    ensures { result ≡ judged_limit limit connections }
{
    let connections = u64::from(connections);
    if limit < connections + LEAST {
        OpenFiles::TooFew(connections + LEAST)
    } else if limit < connections + WANTED {
        OpenFiles::Few(connections + WANTED - limit)
    } else {
        OpenFiles::Enough
    }
}

/// The limit of open files to ask for, so that a process with so many connections has all that it may need. A process may raise its own up
/// to its hard limit. None where that is too few to start.
pub fn to_ask_for(hard: u64, connections: u32) -> Option<u64>
    ensures { result ≡ to_ask_for hard connections }
{
    let connections = u64::from(connections);
    if hard < connections + LEAST {
        return None;
    }
    Some(hard.min(connections + WANTED))
}

/// How many files a process may have open, by the text of `/proc/self/limits`: the first number behind `Max open files`. `unlimited` is
/// u64's end. None where no such number stands there.
pub fn soft_limit(text: &str) -> Option<u64> {
    limit_at(text, 0)
}

/// Up to how many it may raise that by itself: the second number.
pub fn hard_limit(text: &str) -> Option<u64> {
    limit_at(text, 1)
}

/// The number at a place behind `Max open files`.
fn limit_at(text: &str, place: usize) -> Option<u64> {
    let (_, rest) = text.split_once(WORDS)?;
    let word = rest.split_whitespace().nth(place)?;
    if word == NO_LIMIT {
        return Some(u64::MAX);
    }
    word.parse().ok()
}
