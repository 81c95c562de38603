//! What holders have of a total.
ghost use Rattle.std.specs.Prelude.{◌≡◌, ◌≢◌, ◌≤◌, ◌<◌, ◌+◌, ◌-◌, ◌^◌, ◌↔◌, ℕ, nat_le, true, false, map};
ghost use Rattle.std.specs.Prelude.{IfOk, IfSome, IsSome, IsErrOf, if◌then◌else◌, Option, Some, None};
ghost use Rattle.kb_shares.specs.Holder.{idle};
ghost use Rattle.kb_shares.specs.Shares.{are_shares, rest_of, idle_pool, shares_of, holder_at, used_by, own_of, all_above, with_used};
ghost use Rattle.kb_shares.specs.Shares.{has_room, room_for, piece_for, taken, given_back, can_count, put};
ghost use Rattle.kb_shares.specs.declared.fault.BudgetFault.TheVariants as faults;

use crate::fault::BudgetFault;
use crate::share::{Holder, Share};
use std::alloc::{AllocError, Global};
use std::marker::Model;

/// A total, and what each holder has of it. A holder is named by its place, from 0 on. Where nobody stands, a place has no share and holds
/// nothing.
///
/// Contracts see it as what is no holder's part, and the holders.
#[derive(Drop)]
pub struct Budget {
    /// What is no holder's part.
    common: u64,
    /// What all holders have above their parts.
    above: u64,
    holders: Vec<Holder>,
}

impl Model for Budget {
    ghost use Rattle.kb_shares.specs.Shares.{Pool, CountsAbove};

    ghost Value = { Pool };

    ghost view = { λ b. record { common = b.common; holders = b.holders.items } };

    ghost invariant = { λ b. CountsAbove b.above b.holders.items };
}

/// What is no holder's part; `None` exactly where these are no shares of the total.
fn rest_of(total: u64, shares: &[Share]) -> Option<u64>
    ensures { result ≡ (if are_shares total shares.now then Some (rest_of total shares.now) else None) }
{
    let mut rest = total;
    for share in shares {
        if share.own > share.most {
            return None;
        }
        rest = rest.checked_sub(share.own)?;
    }
    Some(rest)
}

/// The holders of these shares, who have nothing yet.
fn idle_holders(alloc: Global, shares: &[Share]) -> Result<Vec<Holder>, AllocError>
    ensures { IfOk result (λ holders. holders.items ≡ map idle shares.now) }
{
    let mut holders = Vec::with_capacity(alloc, shares.len())?;
    for share in shares {
        holders.push(Holder::idle(*share))?;
    }
    Ok(holders)
}

impl Budget {
    /// The total in these shares, one for each holder by its place. Nothing is held yet.
    #[tactic(auto, using(crate::proofs::Sums::idle_counted, crate::proofs::Same::shares_idle))]
    pub fn new(alloc: Global, total: u64, shares: &[Share]) -> Result<Self, BudgetFault>
        ensures fresh { IfOk result (λ budget. budget ≡ idle_pool total shares.now) }
        ensures shares { IfOk result (λ budget. shares_of budget ≡ shares.now) }
        ensures refused { IsErrOf result faults.Shares ↔ (are_shares total shares.now ≡ false) }
    {
        let common = rest_of(total, shares).ok_or(BudgetFault::Shares)?;
        let holders = idle_holders(alloc, shares)?;
        Ok(Budget {
            common,
            above: 0,
            holders,
        })
    }

    /// How much the holder has.
    pub fn used(&self, holder: usize) -> u64
        ensures { result ≡ used_by holder self.now }
    {
        self.holder_at(holder).used
    }

    /// Whether the holder could take so much: it stays within its limit, and what it then has above its part is free for it.
    pub fn has_room(&self, holder: usize, n: u64) -> bool
        ensures room { result ≡ has_room holder n self.now }
        ensures reserved { used_by holder self.now + n ≤ own_of holder self.now → result ≡ true }
    {
        self.used_with(holder, n).is_some()
    }

    /// Whether the holder could take one more.
    pub fn is_open(&self, holder: usize) -> bool
        ensures open { result ≡ has_room holder 1 self.now }
        ensures reserved { used_by holder self.now < own_of holder self.now → result ≡ true }
    {
        self.has_room(holder, 1)
    }

    /// How large a piece may be that the holder begins: of any size while it has less than its part, whatever others hold, and else no
    /// larger than what it could take.
    pub fn piece(&self, holder: usize) -> u64
        ensures piece { result ≡ piece_for holder self.now }
        ensures reserved { used_by holder self.now < own_of holder self.now → result ≡ 2 ^ 64 - 1 }
        ensures room { own_of holder self.now ≤ used_by holder self.now → (n : ℕ) → 1 ≤ n → nat_le n result ≡ has_room holder n self.now }
    {
        let held = self.holder_at(holder);
        if held.used < held.share.own {
            u64::MAX
        } else {
            self.room(holder)
        }
    }

    /// How much more the holder could take at most.
    #[tactic(auto, using(crate::proofs::Sums::above_among))]
    fn room(&self, holder: usize) -> u64
        ensures { result ≡ room_for holder self.now }
    {
        let held = self.holder_at(holder);
        let others = self.above - held.above();
        let free = self.common.saturating_sub(others);
        let most = held.share.most.min(held.share.own.saturating_add(free));
        most.saturating_sub(held.used)
    }

    /// Takes so much for the holder, and answers true, exactly where it has room for it. Else nothing changes.
    pub fn take(&mut self, holder: usize, n: u64) -> bool
        ensures answer { result ≡ has_room holder n self.old }
        ensures reserved { used_by holder self.old + n ≤ own_of holder self.old → result ≡ true }
        ensures taken { self.new ≡ taken holder n self.old }
        ensures used { used_by holder self.new ≡ (if result then used_by holder self.old + n else used_by holder self.old) }
        ensures others { (i : ℕ) → i ≢ holder → holder_at i self.new ≡ holder_at i self.old }
        ensures shares { shares_of self.new ≡ shares_of self.old }
    {
        let Some(used) = self.used_with(holder, n) else {
            return false;
        };
        self.set_used(holder, used);
        true
    }

    /// Gives back so much of what the holder has.
    #[tactic(auto, using(crate::proofs::Same::shares_with))]
    pub fn give_back(&mut self, holder: usize, n: u64)
        requires { n ≤ used_by holder self.old }
        ensures given_back { self.new ≡ given_back holder n self.old }
        ensures used { used_by holder self.new + n ≡ used_by holder self.old }
        ensures others { (i : ℕ) → i ≢ holder → holder_at i self.new ≡ holder_at i self.old }
        ensures shares { shares_of self.new ≡ shares_of self.old }
    {
        let Some(held) = self.holders.get_mut(holder) else {
            return;
        };
        let before = held.above();
        held.used -= n;
        self.above -= before - held.above();
    }

    /// Counts so much for the holder, whose size is known only afterwards, be it past its limit and past the total.
    ///
    /// It answers false only where nobody stands at the place, or where the count would pass the greatest number. Then nothing changes.
    pub fn put(&mut self, holder: usize, n: u64) -> bool
        ensures answer { result ≡ can_count holder n self.old }
        ensures put { self.new ≡ put holder n self.old }
        ensures used { used_by holder self.new ≡ (if result then used_by holder self.old + n else used_by holder self.old) }
        ensures others { (i : ℕ) → i ≢ holder → holder_at i self.new ≡ holder_at i self.old }
        ensures shares { shares_of self.new ≡ shares_of self.old }
    {
        match self.count_with(holder, n) {
            Some(count) => {
                self.set_used(holder, count);
                true
            }
            None => false,
        }
    }

    /// The holder at a place.
    fn holder_at(&self, holder: usize) -> Holder
        ensures { result ≡ holder_at holder self.now }
    {
        match self.holders.get(holder) {
            Some(held) => *held,
            None => Holder::idle(Share { own: 0, most: 0 }),
        }
    }

    /// How much the holder would have with so much more, where it has room for that.
    #[tactic(auto, using(crate::proofs::Sums::above_parts))]
    fn used_with(&self, holder: usize, n: u64) -> Option<u64>
        ensures used { result ≡ (if has_room holder n self.now then Some (used_by holder self.now + n) else None) }
        ensures counted { IfSome result (λ used. all_above (with_used holder used self.now) < 2 ^ 64) }
        ensures reserved { used_by holder self.now + n ≤ own_of holder self.now → IsSome result }
    {
        let held = self.holder_at(holder);
        let used = held.used.checked_add(n)?;
        let free = self.common.saturating_sub(self.above - held.above());
        if used <= held.share.most && used.saturating_sub(held.share.own) <= free {
            Some(used)
        } else {
            None
        }
    }

    /// How much the holder would have with so much more, where that can be counted.
    fn count_with(&self, holder: usize, n: u64) -> Option<u64>
        ensures used { result ≡ (if can_count holder n self.now then Some (used_by holder self.now + n) else None) }
        ensures counted { IfSome result (λ used. all_above (with_used holder used self.now) < 2 ^ 64) }
    {
        let held = self.holders.get(holder)?;
        let used = held.used.checked_add(n)?;
        let others = self.above - held.above();
        others.checked_add(used.saturating_sub(held.share.own))?;
        Some(used)
    }

    /// Sets how much the holder has.
    #[tactic(auto, using(crate::proofs::Same::shares_with))]
    fn set_used(&mut self, holder: usize, used: u64)
        requires { all_above (with_used holder used self.old) < 2 ^ 64 }
        ensures used { self.new ≡ with_used holder used self.old }
        ensures shares { shares_of self.new ≡ shares_of self.old }
    {
        if let Some(held) = self.holders.get_mut(holder) {
            let others = self.above - held.above();
            held.used = used;
            self.above = others + held.above();
        }
    }
}
