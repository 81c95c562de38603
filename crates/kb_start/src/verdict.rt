//! Whether a start goes on.

ghost use Rattle.std.specs.Prelude.{◌≡◌};
ghost use Rattle.kb_start.specs.Verdict.{why_refused};

use crate::losses::Surveyed;

/// What a start goes on without. The default is nothing.
#[derive(Clone, Copy, Debug, Default, PartialEq, Eq)]
pub struct Consent {
    /// Batches that stand behind damage.
    pub drop_damaged: bool,
    /// Files that the settings do not fit, which are set aside.
    pub accept_strays: bool,
}

/// Why a start is refused.
#[derive(Clone, Copy, Debug, PartialEq, Eq)]
pub enum Cause {
    /// Whole batches would be lost.
    Damage,
    /// Files are there that the settings do not fit.
    Strays,
}

/// Why a start is refused: where whole batches would be lost, or else where files are in the way, unless there is consent.
pub fn why_refused(consent: Consent, survey: &Surveyed) -> Option<Cause>
    ensures { result ≡ why_refused consent survey.now }
{
    if !survey.losses.is_empty() && !consent.drop_damaged {
        return Some(Cause::Damage);
    }
    if survey.strays.unfit > 0 && !consent.accept_strays {
        return Some(Cause::Strays);
    }
    None
}
