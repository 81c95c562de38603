//! What a program of the broker needs before it starts.

ghost use Rattle.std.specs.Prelude.{◌≡◌, Some, Ok, IfOk, IfErr, string_bytes};
ghost use Rattle.std.specs.Option.{option_map};
ghost use Rattle.kb_settings.specs.Values.{values_of};
ghost use Rattle.kb_settings.specs.Reading.{settings_of};
ghost use Rattle.kb_node.specs.Start.{IsUnread, IsUnserved};

use crate::fault::StartFault;
use kb_broker::Settings;
use std::alloc::Global;

/// The settings of a TOML text.
pub fn read_settings(alloc: Global, text: &str) -> Result<Settings, StartFault>
    ensures ok { IfOk result (λ settings. settings_of text.now ≡ Some (Ok (values_of settings))) }
    ensures err { IfErr result (IsUnread text.now) }
{
    Ok(Settings::read(alloc, text)?)
}

/// The data folder that the settings name. A broker that serves sockets needs one.
pub fn data_folder(alloc: Global, settings: &Settings) -> Result<&str, StartFault>
    ensures named { IfOk result (λ path. option_map (λ folder. string_bytes folder) settings.now.folder ≡ Some path.now) }
    ensures err { IfErr result (IsUnserved settings.now) }
{
    match &settings.folder {
        Some(folder) => Ok(folder.as_str()),
        None => Err(StartFault::Field(String::from_str(alloc, "data")?)),
    }
}
