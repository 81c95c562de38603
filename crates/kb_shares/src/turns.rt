//! Whose turn it is: holders in turn, and the members of each in turn.

ghost use Rattle.std.specs.Prelude.{◌≡◌, [], true, false, length, map, replicate, nat_eq, IfOk};
ghost use Rattle.kb_shares.specs.Turns.{enqueued, next, after_next};

use std::alloc::{AllocError, Global};
use std::collections::VecDeque;
use std::marker::Model;

/// The members that wait for a turn, each of a holder. Turns go to holders in turn, and those of a holder to its members in turn. So
/// however many members of a holder wait, others wait for one of them between two of theirs.
///
/// A step costs the same whatever waits, and nothing is kept of holders for whom nobody waits but their places.
#[derive(Drop)]
pub struct Turns {
    /// The holders with members that wait, in the order in which they are next, each once.
    order: VecDeque<usize>,
    /// The members of each holder that wait, by its place.
    members: Vec<VecDeque<u64>>,
}

impl Model for Turns {
    ghost use Rattle.std.specs.Prelude.{map};
    ghost use Rattle.kb_shares.specs.Turns.{Lines, lines_of, IsInOrder};

    ghost Value = { Lines };

    ghost view = { λ t. lines_of (map (λ m. m.items) t.members.items) t.order.items };

    ghost invariant = { λ t. IsInOrder (map (λ m. m.items) t.members.items) t.order.items };
}

impl Turns {
    /// Nobody waits, of so many holders.
    #[tactic(auto, using(crate::proofs::Lines::nobody_in_order))]
    pub fn new(alloc: Global, holders: usize) -> Result<Turns, AllocError>
        ensures { IfOk result (λ turns. turns ≡ []) }
    {
        let order = VecDeque::with_capacity(alloc, holders)?;
        Ok(Turns {
            order,
            members: empty_lines(alloc, holders)?,
        })
    }

    /// Whether nobody waits.
    pub fn is_empty(&self) -> bool
        ensures { result ≡ nat_eq (length self.now) 0 }
    {
        self.order.is_empty()
    }

    /// A member waits for its turn, which did not wait. It answers false where there is no memory, or no such holder: then it does not
    /// wait.
    pub fn push(&mut self, holder: usize, member: u64) -> bool
        ensures joined { result ≡ true → self.new ≡ enqueued holder member self.old }
        ensures refused { result ≡ false → self.new ≡ self.old }
    {
        if self.order.reserve(1).is_err() {
            return false;
        }
        let Some(line) = self.members.get_mut(holder) else {
            return false;
        };
        let is_first = line.is_empty();
        if line.push_back(member).is_err() {
            return false;
        }
        if is_first {
            self.order.push_back_reserved(holder);
        }
        true
    }

    /// The member whose turn it is: it waits no longer.
    pub fn next(&mut self) -> Option<u64>
        ensures next { result ≡ next self.old }
        ensures others { self.new ≡ after_next self.old }
    {
        let holder = self.order.pop_front()?;
        let line = self.members.get_mut(holder)?;
        let member = line.pop_front();
        if !line.is_empty() {
            self.order.push_back_reserved(holder);
        }
        member
    }
}

/// An empty line for each of so many holders.
fn empty_lines(alloc: Global, holders: usize) -> Result<Vec<VecDeque<u64>>, AllocError>
    ensures { IfOk result (λ lines. map (λ m. m.items) lines.items ≡ replicate holders []) }
{
    let mut lines = Vec::with_capacity(alloc, holders)?;
    for made in 0..holders {
        lines.push(VecDeque::new(alloc))?;
    }
    Ok(lines)
}
