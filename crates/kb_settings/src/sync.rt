//! When what was done is made to last.

ghost use Rattle.std.specs.Prelude.{◌≡◌};
ghost use Rattle.kb_settings.specs.Document.{sync_named};

/// When what was done is made to last through a loss of power.
#[derive(Clone, Copy, Debug, PartialEq, Eq)]
pub enum Sync {
    /// Before the reply goes out: a loss of power takes nothing that a client was told of.
    Always,
    /// Every so many milliseconds: a loss of power takes at most what was done since, of which clients may have been told.
    Interval,
    /// When the system writes: a loss of power takes at most what was done in about half a minute, as the system is set up.
    Never,
}

impl Sync {
    /// What the settings call it.
    pub fn named(text: &str) -> Option<Sync>
        ensures { result ≡ sync_named text.now }
    {
        if text == "always" {
            Some(Sync::Always)
        } else if text == "interval" {
            Some(Sync::Interval)
        } else if text == "never" {
            Some(Sync::Never)
        } else {
            None
        }
    }

    /// What the settings call it.
    pub fn name(self) -> &'static str
        ensures { sync_named result.now ≡ Some self }
    {
        match self {
            Sync::Always => "always",
            Sync::Interval => "interval",
            Sync::Never => "never",
        }
    }
}
