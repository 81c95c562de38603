//! Members in joining order.

ghost use Rattle.std.specs.Prelude.{◌≡◌, ◌+◌, ◌<◌, ℕ, IfOk, OnErr, OnOk, length, is_some, option_copied, []};
ghost use Rattle.kb_groups.specs.declared.member.Member.{Member};
ghost use Rattle.kb_groups.specs.Members.{Roster, member, changed, put, without, each, has_none};
ghost use Rattle.kb_groups.specs.Answers.{any_waits};
ghost use Rattle.kb_groups.specs.Rebalance.{longest, all_join, next_leader};

use crate::change::Change;
use crate::member::Member;
use indexmap::IndexMap;
use std::alloc::{AllocError, Global};
use std::marker::Model;

/// The members in joining order, under their numbers: member 3 is called `m-3`.
#[derive(Drop)]
pub struct Members {
    pub(crate) map: IndexMap<u64, Member>,
}

impl Model for Members {
    ghost use Rattle.std.specs.Prelude.{List, ℕ};
    ghost use Rattle.kb_groups.specs.declared.member.Member.{Member};

    ghost Value = { List (ℕ × Member) };

    ghost view = { λ b. b.map.entries };
}

impl Clone for Members {
    ghost is_clone = { λ ms copy. copy ≡ ms };

    fn clone(&self) -> Result<Members, AllocError> {
        Ok(Members {
            map: self.map.clone()?,
        })
    }
}

impl Members {
    /// No members.
    pub fn new(alloc: Global) -> Members
        ensures { result ≡ [] }
    {
        Members {
            map: IndexMap::new(alloc),
        }
    }

    pub fn len(&self) -> usize
        ensures { result ≡ length self.now }
    {
        self.map.len()
    }

    pub fn is_empty(&self) -> bool
        ensures { result ≡ has_none self.now }
    {
        self.map.is_empty()
    }

    /// The member of that number.
    pub fn find(&self, number: u64) -> Option<&Member>
        ensures value { option_copied result ≡ member self.now number }
    {
        self.map.get(&number)
    }

    pub fn contains(&self, number: u64) -> bool
        ensures { result ≡ is_some (member self.now number) }
    {
        self.map.contains_key(&number)
    }

    /// Who leads the next generation; `None` without members.
    pub(crate) fn next_leader(&self, leader: Option<u64>) -> Option<u64>
        ensures { result ≡ next_leader leader self.now }
    {
        let (first, _) = self.map.first()?;
        match leader {
            Some(leader) if self.contains(leader) => Some(leader),
            _ => Some(*first),
        }
    }

    /// The longest rebalance timeout, 0 without members.
    pub(crate) fn longest(&self) -> u32
        ensures { result ≡ longest self.now }
    {
        let mut longest = 0;
        for i in 0..self.map.len() {
            if let Some((_, member)) = self.map.get_index(i) {
                if member.rebalance_timeout > longest {
                    longest = member.rebalance_timeout;
                }
            }
        }
        longest
    }

    /// Whether every member has a waiting join.
    pub(crate) fn all_join(&self) -> bool
        ensures { result ≡ all_join self.now }
    {
        for i in 0..self.map.len() {
            if let Some((_, member)) = self.map.get_index(i) {
                if !member.waits_join() {
                    return false;
                }
            }
        }
        true
    }

    /// Whether a request of some member waits.
    pub(crate) fn any_waits(&self) -> bool
        ensures { result ≡ any_waits self.now }
    {
        for i in 0..self.map.len() {
            if let Some((_, member)) = self.map.get_index(i) {
                if member.waiter.is_some() {
                    return true;
                }
            }
        }
        false
    }

    /// Changes one member, if it is here.
    pub(crate) fn change_one<C: Change>(&mut self, number: u64, change: &C)
        ensures { self.new ≡ changed number (C.changed change.now number) self.old }
    {
        if let Some(i) = self.map.get_index_of(&number) {
            let (_, member) = self.map.pair_mut(i);
            change.apply(number, member);
        }
    }

    /// Changes each member.
    pub(crate) fn change_each<C: Change>(&mut self, change: &C)
        ensures { self.new ≡ each (C.changed change.now) self.old }
    {
        for i in 0..self.map.len() {
            let (number, member) = self.map.pair_mut(i);
            change.apply(*number, member);
        }
    }

    /// Puts a member in its old place, or last if it is new, and gives what stood there. An `Err` changes nothing.
    pub(crate) fn put(&mut self, number: u64, entry: Member) -> Result<Option<Member>, AllocError>
        ensures members { OnOk result (self.new ≡ put number entry self.old) }
        ensures replaced { IfOk result (λ m. m ≡ member self.old number) }
        ensures refused { OnErr result (self.new ≡ self.old) }
    {
        Ok(self.map.insert(number, entry)?)
    }

    /// Takes back what `put` did.
    pub(crate) fn take_back(&mut self, number: u64, replaced: Option<Member>)
        ensures { (ms : Roster) (m : Member) → replaced ≡ member ms number → self.old ≡ put number m ms → self.new ≡ ms }
    {
        match replaced {
            None => {
                self.map.pop();
            }
            Some(old) => {
                if let Some(i) = self.map.get_index_of(&number) {
                    let (_, member) = self.map.pair_mut(i);
                    *member = old;
                }
            }
        }
    }

    /// Removes a member.
    pub(crate) fn remove(&mut self, number: u64)
        ensures { self.new ≡ without number self.old }
    {
        self.map.shift_remove(&number);
    }
}
