//! What is tested of settings and cannot be said as data.

use kb_settings::{Settings, SettingsFault};
use std::test::*;

/// No text of settings has this.
#[test]
fn want_of_memory_has_its_text(rt: HostRuntime) -> Result<(), Fail> {
    let text = format!(in rt.alloc(); "{}", SettingsFault::Memory)?;
    assert_eq!(rt; text.as_str(), "out of memory");
    Ok(())
}

/// A text may be of any length: as many users as there may be, with names that make it longer than 64 KiB, are read.
#[test]
fn a_long_text_is_read(rt: HostRuntime) -> Result<(), Fail> {
    let alloc = rt.alloc();
    let mut text = String::new(alloc);
    for number in 0..1000 {
        let user = format!(in alloc;
            "[[user]]\nname = \"somebody-with-a-long-name-{number}\"\npassword = \"secret\"\ntenant = \"orders\"\n"
        )?;
        text.push_str(&user)?;
    }
    assert!(rt; text.len() > 65_536);
    assert_eq!(rt; Settings::read(alloc, &text)?.users.len(), 1000);
    Ok(())
}
