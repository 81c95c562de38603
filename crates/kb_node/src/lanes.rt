//! Whose turn it is: sockets with little to be done go first, and those with long requests stand in a lane of their own.

ghost use Rattle.std.specs.Prelude.{◌≡◌, [], true, false, length, nat_eq, IfOk};
ghost use Rattle.kb_shares.specs.Turns.{after_next, next};
ghost use Rattle.kb_node.specs.Waiting.{in_lane, is_nobody, rounds_behind, takes_long};

use kb_shares::Turns;
use std::alloc::{AllocError, Global};

/// How many rounds of the short lane are served at most while somebody waits in the long one.
const SHORT_ROUNDS: u64 = 2;

/// The connections that are in line for their turns, in two lanes. In each the holders come in turn, and the connections of each.
#[derive(Drop)]
pub struct Lanes {
    /// Those that have little to be done.
    short: Turns,
    /// Those whose next piece may end a long request.
    long: Turns,
    /// How many rounds of the short lane were served since one of the long lane was: 2 at most.
    short_rounds: u64,
}

impl Lanes {
    /// Nobody is in line, of so many holders.
    pub fn new(alloc: Global, holders: usize) -> Result<Lanes, AllocError>
        ensures { IfOk result (λ lanes. lanes ≡ record { short = []; long = []; short_rounds = 0 }) }
    {
        Ok(Lanes {
            short: Turns::new(alloc, holders)?,
            long: Turns::new(alloc, holders)?,
            short_rounds: 0,
        })
    }

    /// Whether nobody is in line.
    pub fn is_empty(&self) -> bool
        ensures { result ≡ is_nobody self.now }
    {
        self.short.is_empty() && self.long.is_empty()
    }

    /// Whether nobody is in line in the short lane.
    pub fn has_no_short(&self) -> bool
        ensures { result ≡ nat_eq (length self.now.short) 0 }
    {
        self.short.is_empty()
    }

    /// A connection stands in line that did not, in the long lane or in the short one. It answers false where there is no memory, or no
    /// such holder: then it does not.
    pub fn push(&mut self, is_long: bool, holder: usize, number: u64) -> bool
        ensures joined { result ≡ true → self.new ≡ in_lane is_long holder number self.old }
        ensures refused { result ≡ false → self.new ≡ self.old }
    {
        if is_long {
            self.long.push(holder, number)
        } else {
            self.short.push(holder, number)
        }
    }

    /// A round begins. It answers whether one of the long lane is served in it, and nobody else: somebody waits there, and nobody in the
    /// short lane, or that had two rounds since.
    pub fn begin_round(&mut self) -> bool
        ensures long { result ≡ takes_long self.old }
        ensures rounds { self.new ≡ record self.old { short_rounds = rounds_behind self.old } }
    {
        let is_long = !self.long.is_empty()
            && (self.short.is_empty() || self.short_rounds >= SHORT_ROUNDS);
        self.short_rounds = if is_long {
            0
        } else {
            self.short_rounds.saturating_add(1).min(SHORT_ROUNDS)
        };
        is_long
    }

    /// The connection of the short lane whose turn it is: it is in line no longer.
    pub fn next_short(&mut self) -> Option<u64>
        ensures next { result ≡ next self.old.short }
        ensures others { self.new ≡ record self.old { short = after_next self.old.short } }
    {
        self.short.next()
    }

    /// The same of the long lane.
    pub fn next_long(&mut self) -> Option<u64>
        ensures next { result ≡ next self.old.long }
        ensures others { self.new ≡ record self.old { long = after_next self.old.long } }
    {
        self.long.next()
    }
}
