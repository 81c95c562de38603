//! For whom the amounts of members are counted.

ghost use Rattle.std.specs.Prelude.{◌≡◌, ◌≤◌, ◌<◌, ◌-◌, ◌^◌, ℕ, nat_le, [], true, IfOk, OnErr, OnOk, IsErrOf, ◌↔◌, None, false};
ghost use Rattle.kb_shares.specs.Shares.{are_shares, idle_pool, has_room, own_of, piece_for, used_by};
ghost use Rattle.kb_shares.specs.Ledger.{amount_of, booking_of, let_go, set_to};
ghost use Rattle.kb_shares.specs.declared.fault.BudgetFault.TheVariants as faults;

use crate::budget::Budget;
use crate::fault::BudgetFault;
use crate::share::Share;
use std::alloc::{AllocError, Global};
use std::collections::BTreeMap;
use std::marker::Model;

/// What is counted of a member: for which holder, and how much.
#[derive(Clone, Copy, Debug, PartialEq, Eq)]
pub struct Booking {
    pub(crate) holder: usize,
    pub(crate) amount: u64,
}

/// A budget, and of which member each part of it is that a holder has. Members are named by numbers.
///
/// What a holder has is always the sum of what is counted of its members.
#[derive(Drop)]
pub struct Ledger {
    budget: Budget,
    /// What is counted of each member of which something is.
    bookings: BTreeMap<u64, Booking>,
}

impl Model for Ledger {
    ghost use Rattle.kb_shares.specs.Ledger.{Booked, AreBooked};

    ghost Value = { Booked };

    ghost view = { λ l. record { pool = l.budget; bookings = l.bookings.entries } };

    ghost invariant = { λ l. AreBooked l.budget l.bookings.entries };
}

impl Ledger {
    /// The total in these shares, one for each holder by its place. Nothing is counted yet.
    #[tactic(auto, using(crate::proofs::Booked::fresh_booked))]
    pub fn new(alloc: Global, total: u64, shares: &[Share]) -> Result<Ledger, BudgetFault>
        ensures pool { IfOk result (λ it. it.pool ≡ idle_pool total shares.now) }
        ensures none { IfOk result (λ it. it.bookings ≡ []) }
        ensures refused { IsErrOf result faults.Shares ↔ (are_shares total shares.now ≡ false) }
    {
        let budget = Budget::new(alloc, total, shares)?;
        Ok(Ledger {
            budget,
            bookings: BTreeMap::new(alloc),
        })
    }

    /// How much is counted for a holder.
    pub fn used(&self, holder: usize) -> u64
        ensures { result ≡ amount_of holder self.now.bookings }
    {
        self.budget.used(holder)
    }

    /// Whether a holder could take one more. Below its part it can, whatever others hold.
    pub fn is_open(&self, holder: usize) -> bool
        ensures open { result ≡ has_room holder 1 self.now.pool }
        ensures reserved { used_by holder self.now.pool < own_of holder self.now.pool → result ≡ true }
    {
        self.budget.is_open(holder)
    }

    /// How large a piece may be that a holder begins: of any size while it has less than its part, whatever others hold, and else no larger
    /// than what it could take.
    pub fn piece(&self, holder: usize) -> u64
        ensures piece { result ≡ piece_for holder self.now.pool }
        ensures reserved { used_by holder self.now.pool < own_of holder self.now.pool → result ≡ 2 ^ 64 - 1 }
        ensures room { own_of holder self.now.pool ≤ used_by holder self.now.pool
            → (n : ℕ) → 1 ≤ n → nat_le n result ≡ has_room holder n self.now.pool }
    {
        self.budget.piece(holder)
    }

    /// So much of a member is counted for a holder from now on, be it past its limit, and nothing that was counted of the member before.
    ///
    /// An `Err` is want of memory, or of a holder at that place: then nothing of the member is counted.
    pub fn set(&mut self, member: u64, holder: usize, amount: u64) -> Result<(), AllocError>
        ensures set { OnOk result (self.new ≡ set_to member holder amount self.old) }
        ensures refused { OnErr result (self.new.bookings ≡ (let_go member self.old).bookings) }
    {
        self.release(member);
        if amount == 0 {
            return Ok(());
        }
        if !self.budget.put(holder, amount) {
            return Err(AllocError);
        }
        match self.bookings.insert(member, Booking { holder, amount }) {
            Ok(_) => Ok(()),
            Err(_) => {
                self.budget.give_back(holder, amount);
                Err(AllocError)
            }
        }
    }

    /// Nothing of a member is counted any more: its holder gives all of that back. One of which nothing is counted stays so.
    pub fn release(&mut self, member: u64)
        ensures released { self.new ≡ let_go member self.old }
        ensures gone { booking_of member self.new.bookings ≡ None }
    {
        if let Some(booking) = self.bookings.remove(&member) {
            self.budget.give_back(booking.holder, booking.amount);
        }
    }
}
