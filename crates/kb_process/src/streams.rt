//! The descriptors of the standard streams.

use std::fs::File;
use std::io;
use std::os::fd::AsRawFd;
use std::rt::Files;

/// A file that is always empty.
const EMPTY: &str = "/dev/null";

/// The last descriptor of a standard stream.
const LAST: i32 = 2;

/// Files at those of the descriptors 0 to 2 that were closed. They stay taken as long as this lives.
#[derive(Drop)]
pub struct Streams(Option<File>, Option<File>, Option<File>);

/// Takes those of the descriptors 0 to 2 that are closed, so that no file and no socket that is opened later is one of the standard
/// streams. A closed standard input is then empty, and a write to a closed output is refused as before. It fails where the system's
/// empty file cannot be opened.
pub fn hold_streams(files: &impl Files<File = File>) -> io::Result<Streams> {
    // Each opening takes the lowest number that is free.
    Ok(Streams(low(files)?, low(files)?, low(files)?))
}

/// An empty file to be read, where its descriptor is that of a standard stream.
fn low(files: &impl Files<File = File>) -> io::Result<Option<File>> {
    let file = File::open(files, EMPTY)?;
    if file.as_raw_fd() > LAST {
        return Ok(None);
    }
    Ok(Some(file))
}
