//! Laws about what is told, each as the contract of a function with an empty body.
ghost use Rattle.std.specs.Prelude.{◌≡◌, ℕ, List, true};
ghost use Rattle.std.specs.Char.{is_ascii_graphic};
ghost use Rattle.std.specs.List.{AllByRecursion};
ghost use Rattle.kb_operator.specs.KnownLaws.{TellsNoPassword};
ghost use Rattle.kb_operator.specs.Logins.{shown};

/// No byte of a password is told. What a journal tells of a login is a function of the address, of the name and the tenant of the user at
/// that place of the settings, and of how many lines were told: where other passwords stand in the settings, the lines are the same.
#[tactic(auto, using(crate::proofs::Known::no_password))]
pub fn logins_tell_no_password()
    ensures { TellsNoPassword }
{}

/// A name that a client sent is told in printable ASCII: no byte of it ends a line.
#[tactic(auto, using(crate::proofs::Known::names_are_printable))]
pub fn names_end_no_line()
    ensures { (name : List ℕ) → AllByRecursion (λ b. is_ascii_graphic b ≡ true) (shown name) }
{}
