//! The settings of a file, and why they are refused.

ghost use Rattle.std.specs.Prelude.{◌≡◌, Some, None, Ok, IfOk, IfErr, string_bytes};
ghost use Rattle.std.specs.Option.{option_map};
ghost use Rattle.kb_settings.specs.Values.{values_of};
ghost use Rattle.kb_settings.specs.Reading as read;
ghost use Rattle.kb_settings.specs.Reading.{settings_of};
ghost use Rattle.kb_operator.specs.Fits.{misfit};
ghost use Rattle.kb_operator.specs.Settings.{IsSettingsFault, IsWithoutFolder};

use crate::fault::{OperatorFault, behind_it};
use crate::fits::fitting;
use crate::reasons::field_reason;
use kb_settings::{Settings, SettingsFault};
use std::alloc::{AllocError, Global};
use std::{fs, io};

/// The settings of a file. A fault names the file and the line, or the key, or the user, and says what is wrong. So is a key that does not
/// fit: a data folder without a name, a host with a port, or metrics where the broker listens.
pub fn settings_of(rt: &HostRuntime, path: &str) -> Result<Settings, OperatorFault>
    ensures { IfOk result (λ settings. misfit (values_of settings) ≡ None) }
{
    let alloc = rt.alloc();
    match fs::read_to_string(rt, path) {
        Ok(text) => fitting(alloc, settings_in(alloc, path, &text)?),
        Err(e) if e.kind() == io::ErrorKind::OutOfMemory => Err(OperatorFault::Memory),
        Err(e) => {
            let text = behind(alloc, path, cause_of(alloc, &e));
            Err(OperatorFault::Settings(behind_it(alloc, text)))
        }
    }
}

/// The settings of a text that stands in the file at a path.
pub fn settings_in(alloc: Global, path: &str, text: &str) -> Result<Settings, OperatorFault>
    ensures ok { IfOk result (λ settings. settings_of text.now ≡ Some (Ok (values_of settings))) }
    ensures err { IfErr result (IsSettingsFault text.now) }
{
    match Settings::read(alloc, text) {
        Ok(settings) => Ok(settings),
        Err(fault) => Err(explained(alloc, path, text, fault)),
    }
}

/// The fault of a text of settings, with what is wrong behind it.
fn explained(alloc: Global, path: &str, text: &str, fault: SettingsFault) -> OperatorFault
    requires { read.IsFaultOf text.now fault }
    ensures { IsSettingsFault text.now result }
{
    match fault {
        SettingsFault::Text => {
            let reason = behind(alloc, path, text_reason(alloc, text));
            OperatorFault::Settings(behind_it(alloc, reason))
        }
        SettingsFault::Field(key) => {
            let reason = field_reason(alloc, text, &key);
            OperatorFault::Field(key, behind_it(alloc, reason))
        }
        SettingsFault::Memory => OperatorFault::Memory,
    }
}

/// The data folder that the settings name. A broker that serves sockets needs one.
pub fn data_folder(alloc: Global, settings: &Settings) -> Result<&str, OperatorFault>
    ensures named { IfOk result (λ path. option_map (λ folder. string_bytes folder) settings.now.folder ≡ Some path.now) }
    ensures err { IfErr result (IsWithoutFolder settings.now) }
{
    match &settings.folder {
        Some(folder) => Ok(folder.as_str()),
        None => {
            let missing = String::from_str(alloc, ": is missing");
            let key = String::from_str(alloc, "data")?;
            Err(OperatorFault::Field(key, behind_it(alloc, missing)))
        }
    }
}

/// A place and a cause, as they stand behind a fault.
pub fn behind(
    alloc: Global,
    place: &str,
    cause: Result<String, AllocError>,
) -> Result<String, AllocError> {
    format!(in alloc; ": {place}: {}", cause?)
}

/// What the system says, in words.
pub fn cause_of(alloc: Global, error: &io::Error) -> Result<String, AllocError> {
    match error.kind() {
        io::ErrorKind::NotFound => String::from_str(alloc, "no such file"),
        io::ErrorKind::InvalidData => String::from_str(alloc, "not UTF-8"),
        io::ErrorKind::Uncategorized => format!(in alloc; "{error}"),
        kind => format!(in alloc; "{kind}"),
    }
}

/// Why a text is no TOML document, with the line.
fn text_reason(alloc: Global, text: &str) -> Result<String, AllocError> {
    let Err(error) = toml::table_from_str(alloc, text) else {
        return Ok(String::new(alloc));
    };
    let start = error.span().map_or(0, |span| span.start);
    let line = line_of(text, start);
    format!(in alloc; "line {line}: {}", error.message())
}

/// The line of a place in a text, from 1.
fn line_of(text: &str, at: usize) -> usize {
    let ends = text.bytes().take(at).filter(|byte| *byte == b'\n').count();
    ends.saturating_add(1)
}
