//! The disk of a data folder, and whether it has room for what tenants may store.

ghost use Rattle.std.specs.Prelude.{◌≡◌, ◌<◌, ◌^◌, ℕ, Option, IfOk, option_map, string_bytes};
ghost use Rattle.kb_settings.specs.Values.{values_of};
ghost use Rattle.kb_operator.specs.Device.{device_number, disk_text};
ghost use Rattle.kb_operator.specs.Logged.{MakesText};
ghost use Rattle.kb_operator.specs.Sums.{stored_at_most, told};

use crate::lines::{LineLog, Lines};
use crate::sums::stored_at_most;
use kb_server_log::now;
use kb_settings::Settings;
use std::alloc::{AllocError, Global};
use std::fs;
use std::os::unix::fs::MetadataExt;

/// How many bytes a sector has in the system's size of a device, whatever sectors the device itself has.
const SECTOR: u64 = 512;

/// A device of the system.
#[derive(Clone, Copy)]
struct Device {
    major: u64,
    minor: u64,
}

/// Tells where the disk of a data folder has less than all tenants may store together, as [`disk_text`] says it.
pub fn tell_disk(rt: &HostRuntime, settings: &Settings, path: &str, lines: &mut Lines) {
    if let Some(text) = disk_text(rt, settings, path).transpose() {
        lines.tell(now(rt), text);
    }
}

/// What is told where the disk of a folder has less than all tenants may store together. None where a tenant has no limit, or where the
/// system tells no size: the folder is not there, or on no disk of its own, as one in memory, over the network or of a container is not.
///
/// It is the size of the whole device, however much of it is free.
pub fn disk_text(
    rt: &HostRuntime,
    settings: &Settings,
    path: &str,
) -> Result<Option<String>, AllocError>
    ensures { IfOk result (λ text. (disk : Option ℕ) × (option_map (λ it. string_bytes it) text
        ≡ disk_text path.now (option_map told (stored_at_most (values_of settings.now))) disk)) }
{
    let alloc = rt.alloc();
    let (stored, disk) = (stored_at_most(alloc, settings)?, disk_bytes(rt, path)?);
    let text = short_text(alloc, path, stored, disk)?;
    Ok(text)
}

/// The text on a disk with too little: none where it has enough, or one of the two is not known.
fn short_text(
    alloc: Global,
    path: &str,
    stored: Option<u64>,
    disk: Option<u64>,
) -> Result<Option<String>, AllocError>
    ensures { MakesText (disk_text path.now stored disk) result }
{
    let (Some(stored), Some(disk)) = (stored, disk) else {
        return Ok(None);
    };
    if disk < stored {
        let text = format!(in alloc;
            "the disk of {path} has {disk} bytes, and tenants may store {stored}"
        )?;
        Ok(Some(text))
    } else {
        Ok(None)
    }
}

/// How many bytes the device of a folder has, where the system tells.
fn disk_bytes(rt: &HostRuntime, path: &str) -> Result<Option<u64>, AllocError> {
    let Ok(found) = fs::metadata(rt, path) else {
        return Ok(None);
    };
    let Device { major, minor } = device_of(found.dev());
    let size = format!(in rt.alloc(); "/sys/dev/block/{major}:{minor}/size")?;
    match fs::read_to_string(rt, size.as_str()) {
        Ok(sectors) => Ok(bytes_of(sectors.as_str())),
        Err(_) => Ok(None),
    }
}

/// How many bytes so many sectors have.
fn bytes_of(sectors: &str) -> Option<u64> {
    let sectors: u64 = sectors.trim().parse().ok()?;
    Some(sectors.saturating_mul(SECTOR))
}

/// The device of a number: Linux gives numbers of 32 bits.
fn device_of(number: u64) -> Device
    ensures major { result.major < 4096 }
    ensures same { number < 2 ^ 32 → device_number result.major result.minor ≡ number }
{
    Device {
        major: number / 256 % 4096,
        minor: number % 256 + number / 1_048_576 * 256,
    }
}
