//! Which protocol a group takes.

ghost use Rattle.std.specs.Prelude.{◌≡◌, map, option_copied, ◌||◌};
ghost use Rattle.kb_groups.specs.Calls.{others, is_that};
ghost use Rattle.kb_groups.specs.Members.{has_none};
ghost use Rattle.kb_groups.specs.Protocols.{all_list, common, chosen, lists};

use crate::member::Member;
use crate::members::Members;
use crate::protocol::Named;

/// Whether that is the number, if there is one.
pub(crate) fn is_that(that: Option<u64>, number: u64) -> bool
    ensures { result ≡ is_that that number }
{
    match that {
        Some(that) => that == number,
        None => false,
    }
}

/// Whether that is the member, or it lists the protocol of that name.
fn passes(but: Option<u64>, number: u64, member: &Member, name: &[u8]) -> bool
    ensures { result ≡ (is_that but number || lists member.now.protocols name.now) }
{
    is_that(but, number) || member.protocols.lists(name)
}

impl Members {
    /// Whether there is no member but that one.
    pub(crate) fn has_none_but(&self, but: Option<u64>) -> bool
        ensures { result ≡ has_none (others but self.now) }
    {
        for i in 0..self.map.len() {
            if let Some((number, _)) = self.map.get_index(i) {
                if !is_that(but, *number) {
                    return false;
                }
            }
        }
        true
    }

    /// Whether all members but that one list the protocol of that name.
    pub(crate) fn all_list(&self, name: &[u8], but: Option<u64>) -> bool
        ensures { result ≡ all_list (others but self.now) name.now }
    {
        for i in 0..self.map.len() {
            if let Some((number, member)) = self.map.get_index(i) {
                if !passes(but, *number, member, name) {
                    return false;
                }
            }
        }
        true
    }

    /// The first of the names that all members but that one list.
    pub(crate) fn common<'a, N: Named>(&self, names: &'a [N], but: Option<u64>) -> Option<&'a [u8]>
        ensures { option_copied result ≡ common (map N.name_of names.now) (others but self.now) }
    {
        for named in names {
            if self.all_list(named.name(), but) {
                return Some(named.name());
            }
        }
        None
    }

    /// The protocol of a generation with that leader.
    pub(crate) fn chosen(&self, leader: u64) -> &[u8]
        ensures { result.now ≡ chosen leader self.now }
    {
        let Some(member) = self.find(leader) else {
            return &[];
        };
        match self.common(member.protocols.as_slice(), None) {
            Some(name) => name,
            None => &[],
        }
    }
}
