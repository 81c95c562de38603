//! Lines on standard error that wait for no reader.

ghost use Rattle.std.specs.Prelude.{◌≡◌, ◌++◌, ℕ, List, Option, Some, None, [], ◌∷◌, IsSome, OnErr, OnOk};
ghost use Rattle.kb_operator.specs.Found.{count_text};
ghost use Rattle.kb_operator.specs.Logged.{Grows, MakesText, TellsBare, TellsTexts, lines_at, text_in, texts_of};
ghost use Rattle.kb_operator.specs.Report.{bytes_of_each};

use kb_server_log::{Missed, Sink, time_text};
use mio::unix::SourceFd;
use mio::{Events, Interest, Poll, Token};
use std::alloc::{AllocError, Global};
use std::io::{ErrorKind, Write};
use std::os::fd::AsRawFd;
use std::time::Duration;

/// The most bytes of a line, its end among them: a pipe that takes anything takes so many.
const LINE: usize = 4096;

/// What lines are told to, one after another.
pub trait LineLog {
    ghost use Rattle.std.specs.Prelude.{None};
    ghost use Rattle.kb_operator.specs.Logged.{LogLine};

    /// The lines that it was told so far, where they are known.
    ghost logged: { Self → Option (List LogLine) } = { λ _. None };

    /// Tells a line with a moment of the wall clock in front. A text for which there was no memory is a line that was missed.
    fn tell(&mut self, now: u64, text: Result<String, AllocError>)
        ensures { Grows (logged self.old) (logged self.new) (record { moment = Some now; text = text_in text } ∷ []) };

    /// Tells a line as it is, without a moment.
    fn tell_bare(&mut self, text: Result<String, AllocError>)
        ensures { Grows (logged self.old) (logged self.new) (record { moment = None; text = text_in text } ∷ []) };

    /// Tells how many lines were missed, if any were.
    fn catch_up(&mut self, now: u64)
        ensures { Grows (logged self.old) (logged self.new) [] };
}

/// Tells a text, if there is one.
pub(crate) fn tell_if<T: LineLog>(now: u64, text: Result<Option<String>, AllocError>, lines: &mut T)
    ensures { (wanted : Option (List ℕ)) → MakesText wanted text
        → TellsTexts now (texts_of wanted) (T.logged lines.old) (T.logged lines.new) }
{
    match text {
        Ok(Some(text)) => lines.tell(now, Ok(text)),
        Ok(None) => {}
        Err(e) => lines.tell(now, Err(e)),
    }
}

/// Tells each of these texts.
pub(crate) fn tell_each<T: LineLog>(now: u64, texts: Vec<String>, lines: &mut T)
    ensures { Grows (T.logged lines.old) (T.logged lines.new) (lines_at now (bytes_of_each texts.items)) }
{
    for text in texts {
        lines.tell(now, Ok(text));
    }
}

/// Adds a text, if there is one. Memory runs out only where there is.
pub(crate) fn push_if(
    texts: &mut Vec<String>,
    made: Result<Option<String>, AllocError>,
) -> Result<(), AllocError>
    ensures ok { OnOk result ((wanted : Option (List ℕ)) → MakesText wanted made
        → bytes_of_each texts.new.items ≡ bytes_of_each texts.old.items ++ texts_of wanted) }
    ensures err { OnErr result ((wanted : Option (List ℕ)) → MakesText wanted made → IsSome wanted) }
{
    if let Some(text) = made? {
        texts.push(text)?;
    }
    Ok(())
}

/// Tells a text without a moment, if there is one.
pub(crate) fn tell_bare_if<T: LineLog>(text: Result<Option<String>, AllocError>, lines: &mut T)
    ensures { (wanted : Option (List ℕ)) → MakesText wanted text
        → TellsBare (texts_of wanted) (T.logged lines.old) (T.logged lines.new) }
{
    match text {
        Ok(Some(text)) => lines.tell_bare(Ok(text)),
        Ok(None) => {}
        Err(e) => lines.tell_bare(Err(e)),
    }
}

/// A count in front of two words, behind another: none where it is zero.
pub(crate) fn count_text(
    alloc: Global,
    front: &str,
    count: u64,
    link: &str,
    behind: &str,
) -> Result<Option<String>, AllocError>
    ensures { MakesText (count_text front.now count (link.now ++ behind.now)) result }
{
    if count == 0 {
        return Ok(None);
    }
    let text = format!(in alloc; "{front}{count}{link}{behind}")?;
    Ok(Some(text))
}

/// Lines on standard error. One that the system does not take at once is passed over, and the next one that it takes is how many
/// were.
#[derive(Drop)]
pub struct Lines {
    missed: Missed,
    output: Output,
}

/// Standard error, and what tells whether it takes a line.
#[derive(Drop)]
struct Output {
    rt: HostRuntime,
    /// With none nothing is written.
    poll: Option<Poll>,
    events: Events,
    is_watched: bool,
    /// A line was written without its end.
    is_open: bool,
    /// The moment that stands in front of a line, where one does.
    now: Option<u64>,
}

impl Lines {
    /// No line was missed.
    pub fn new(rt: &HostRuntime) -> Result<Lines, AllocError> {
        Ok(Lines {
            missed: Missed::default(),
            output: Output {
                rt: *rt,
                poll: Poll::new(rt).ok(),
                events: Events::with_capacity(rt.alloc(), 1)?,
                is_watched: false,
                is_open: false,
                now: None,
            },
        })
    }

    /// Whether the system tells when standard error takes a line. Where it does not, no line is told.
    pub fn can_tell(&self) -> bool {
        self.output.poll.is_some()
    }

    /// Tells a line as it is, without a moment.
    pub fn tell_alone(&mut self, text: Result<String, AllocError>) {
        self.tell_bare(text);
    }

    /// Tells a line.
    fn offer(&mut self, text: Result<String, AllocError>) {
        match text {
            Ok(text) => self.missed.tell(&mut self.output, &text),
            Err(_) => self.missed.miss(),
        }
    }
}

impl LineLog for Lines {
    fn tell(&mut self, now: u64, text: Result<String, AllocError>) {
        self.output.now = Some(now);
        self.offer(text);
    }

    fn tell_bare(&mut self, text: Result<String, AllocError>) {
        self.output.now = None;
        self.offer(text);
    }

    fn catch_up(&mut self, now: u64) {
        self.output.now = Some(now);
        self.missed.catch_up(&mut self.output);
    }
}

impl Sink for Output {
    ghost offers_line = { λ _ _ _ _. Unit {0} };

    ghost offers_count = { λ _ _ _ _. Unit {0} };

    fn offer_line(&mut self, line: &str) -> bool {
        match self.text_of(line) {
            Ok(text) => self.write(&text),
            Err(_) => false,
        }
    }

    fn offer_count(&mut self, missed: u64) -> bool {
        match format!(in self.rt.alloc(); "lines of this log were not taken: {missed}") {
            Ok(line) => self.offer_line(&line),
            Err(_) => false,
        }
    }
}

impl Output {
    /// A line as it is written: behind the end of one that has none yet.
    fn text_of(&self, line: &str) -> Result<String, AllocError> {
        let alloc = self.rt.alloc();
        let start = if self.is_open { "\n" } else { "" };
        match self.now {
            Some(now) => format!(in alloc; "{start}{} {line}\n", time_text(alloc, now)?),
            None => format!(in alloc; "{start}{line}\n"),
        }
    }

    /// Writes a line, at most its first 4,096 bytes, and says whether they were taken.
    fn write(&mut self, line: &str) -> bool {
        if !self.is_ready() {
            return false;
        }
        let whole = line.as_bytes();
        let bytes = whole.get(..LINE).unwrap_or(whole);
        let taken = self.rt.stderr().write(bytes).unwrap_or(0);
        if taken > 0 {
            self.is_open = taken < whole.len();
        }
        taken == bytes.len()
    }

    /// Whether the system takes a line now.
    fn is_ready(&mut self) -> bool {
        let Some(poll) = &mut self.poll else {
            return false;
        };
        let descriptor = self.rt.stderr().as_raw_fd();
        let source = &mut SourceFd(&descriptor);
        // it is told anew whether standard error is ready
        let watched = if self.is_watched {
            poll.registry()
                .reregister(source, Token(0), Interest::WRITABLE)
        } else {
            poll.registry()
                .register(source, Token(0), Interest::WRITABLE)
        };
        match watched {
            Ok(()) => {
                self.is_watched = true;
                poll.poll(&mut self.events, Some(Duration::ZERO)).is_ok()
                    && self.events.iter().any(|event| event.is_writable())
            }
            // a file is not watched, and takes each line
            Err(e) => e.kind() == ErrorKind::PermissionDenied,
        }
    }
}
