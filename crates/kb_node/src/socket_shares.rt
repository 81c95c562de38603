//! For whom the open sockets are counted.

ghost use Rattle.std.specs.Prelude.{◌≡◌, [], true, false, IfOk, OnErr, OnOk, None, Some, map, nat_lt, length, replicate, if◌then◌else◌};
ghost use Rattle.std.specs.BTreeMap.{insert_entry};
ghost use Rattle.std.specs.List.Sorted.{IsStrictlySortedBy};
ghost use Rattle.std.specs.Map.{keys_of};
ghost use Rattle.std.specs.Ordering.{nat_cmp};
ghost use Rattle.kb_settings.specs.Values.{values_of};
ghost use Rattle.kb_broker.specs.Opening.{tenants_of};
ghost use Rattle.kb_shares.specs.Shares.{idle_pool};
ghost use Rattle.kb_node.specs.Replies.{holder_place};
ghost use Rattle.kb_node.specs.SocketShares.{count_of, holder_of, may_bind, released, seat_among, share_named};
ghost use Rattle.kb_node.specs.SocketShares.{with_refusal, with_strangers, without_socket};
ghost use Rattle.kb_node.specs.SocketShares.{IsSeated};

use kb_settings::{Settings, tenant_names};
use kb_shares::{Budget, BudgetFault, Share};
use std::alloc::{AllocError, Global};
use std::collections::BTreeMap;
use std::marker::Model;

/// What tenants may have of the sockets that are open at a time, and for whom each is counted. Tenants are named by their places, in the
/// order of their names. A tenant without a share may have as many as there are.
#[derive(Drop)]
pub struct SocketShares {
    budget: Budget,
    /// How many tenants have a share. Behind them the budget counts the sockets that have not logged in.
    tenants: usize,
    /// The place of the holder that has it, for each socket that is counted, by its connection.
    holders: BTreeMap<u64, usize>,
    /// How many sockets were closed for want of room, by tenant.
    refused: Vec<u64>,
}

impl Model for SocketShares {
    ghost use Rattle.kb_node.specs.SocketShares.{Seats, CountsSockets};

    ghost Value = { Seats };

    ghost view = { λ s. record { pool = s.budget; sockets = s.holders.entries; tenants = s.tenants; refused = s.refused.items } };

    ghost invariant = { λ s. CountsSockets s.budget s.holders.entries };
}

impl SocketShares {
    /// The shares of tenants by their places, of so many sockets. No socket is counted yet.
    pub fn new(alloc: Global, sockets: u64, shares: &[Share]) -> Result<SocketShares, BudgetFault>
        ensures none { IfOk result (λ it. (it.tenants ≡ length shares.now) × (it.sockets ≡ [])) }
        ensures pool { IfOk result (λ it. it.pool ≡ idle_pool sockets (with_strangers sockets shares.now)) }
        ensures refused { IfOk result (λ it. it.refused ≡ replicate (length shares.now) 0) }
    {
        let mut all = Vec::with_capacity(alloc, shares.len().saturating_add(1))?;
        for share in shares {
            all.push(*share)?;
        }
        // the sockets that have not logged in have no share, and are let in all the same
        all.push(Share {
            own: 0,
            most: sockets,
        })?;
        Ok(SocketShares {
            budget: Budget::new(alloc, sockets, &all)?,
            tenants: shares.len(),
            holders: BTreeMap::new(alloc),
            refused: vec![in alloc; 0; shares.len()]?,
        })
    }

    /// What the settings say of each tenant.
    pub fn of(alloc: Global, settings: &Settings) -> Result<SocketShares, BudgetFault>
        ensures none { IfOk result (λ it. it.sockets ≡ []) }
        ensures pool { IfOk result (λ it. it.pool ≡ idle_pool settings.now.connections (with_strangers settings.now.connections
            (map (share_named (values_of settings.now)) (tenants_of settings.now.users.items)))) }
        ensures tenants { IfOk result (λ it. it.tenants ≡ length (tenants_of settings.now.users.items)) }
    {
        let names = tenant_names(alloc, &settings.users)?;
        let mut shares = Vec::with_capacity(alloc, names.len())?;
        for name in &names {
            let limits = settings.limits_of(name);
            shares.push(Share {
                own: u64::from(limits.reserved),
                most: u64::from(limits.most),
            })?;
        }
        SocketShares::new(alloc, u64::from(settings.connections), &shares)
    }

    /// How many sockets are counted for a tenant.
    pub fn used(&self, tenant: usize) -> u64
        ensures used { result ≡ count_of tenant self.now.sockets }
        ensures ordered { IsStrictlySortedBy nat_cmp (keys_of self.now.sockets) }
    {
        self.budget.used(tenant)
    }

    /// How many sockets are counted that have not logged in.
    pub fn strangers(&self) -> u64
        ensures used { result ≡ count_of self.now.tenants self.now.sockets }
        ensures ordered { IsStrictlySortedBy nat_cmp (keys_of self.now.sockets) }
    {
        self.budget.used(self.tenants)
    }

    /// The holder that has a socket: its tenant's place, or the place of those that have not logged in.
    pub fn holder(&self, connection: u64) -> usize
        ensures { result ≡ holder_place connection self.now }
    {
        match self.holders.get(&connection) {
            Some(holder) => *holder,
            None => self.tenants,
        }
    }

    /// How many sockets were closed so far for want of room, by tenant.
    pub fn refused(&self) -> &[u64]
        ensures { result.now ≡ self.now.refused }
    {
        &self.refused
    }

    /// A new socket is counted, which has not logged in. An `Err` is want of memory: then it is not counted.
    pub fn admit(&mut self, connection: u64) -> Result<(), AllocError>
        ensures tenants { self.new.tenants ≡ self.old.tenants }
        ensures admitted { OnOk result (self.new.sockets
            ≡ insert_entry nat_cmp (without_socket connection self.old.sockets) connection self.old.tenants) }
        ensures refused { OnErr result (self.new.sockets ≡ without_socket connection self.old.sockets) }
        ensures seat { OnOk result (IsSeated connection (Some self.old.tenants) self.old self.new) }
        ensures none { OnErr result (IsSeated connection None self.old self.new) }
    {
        self.release(connection);
        let place = self.tenants;
        if !self.budget.put(place, 1) {
            return Err(AllocError);
        }
        match self.holders.insert(connection, place) {
            Ok(_) => Ok(()),
            Err(_) => {
                self.budget.give_back(place, 1);
                Err(AllocError)
            }
        }
    }

    /// A socket has logged in for a tenant, and is counted for it from now on: true. Where there is no room for it, or no memory, it is
    /// counted no longer, and is to be closed.
    pub fn bind(&mut self, connection: u64, tenant: usize) -> Result<bool, AllocError>
        ensures tenants { self.new.tenants ≡ self.old.tenants }
        ensures answer { IfOk result (λ is_in. is_in ≡ may_bind connection tenant self.old) }
        ensures bound { IfOk result (λ is_in. is_in ≡ true → nat_lt tenant self.old.tenants ≡ true
            → self.new.sockets ≡ insert_entry nat_cmp (without_socket connection self.old.sockets) connection tenant) }
        ensures refused { IfOk result (λ is_in. is_in ≡ false → self.new ≡ with_refusal tenant (released connection self.old)) }
        ensures no_memory { OnErr result (self.new.sockets ≡ without_socket connection self.old.sockets) }
        ensures seat { IfOk result (λ is_in. IsSeated connection (seat_among self.old.tenants (if is_in then Some tenant else None))
            self.old self.new) }
        ensures none { OnErr result (IsSeated connection None self.old self.new) }
    {
        self.release(connection);
        if tenant >= self.tenants {
            return Ok(true);
        }
        if !self.budget.take(tenant, 1) {
            self.count_refused(tenant);
            return Ok(false);
        }
        match self.holders.insert(connection, tenant) {
            Ok(_) => Ok(true),
            Err(_) => {
                self.budget.give_back(tenant, 1);
                Err(AllocError)
            }
        }
    }

    /// A socket is closed, and counted no longer. One that is not counted stays so.
    pub fn release(&mut self, connection: u64)
        ensures released { self.new ≡ released connection self.old }
        ensures gone { holder_of connection self.new.sockets ≡ None }
        ensures none { IsSeated connection None self.old self.new }
    {
        if let Some(holder) = self.holders.remove(&connection) {
            self.budget.give_back(holder, 1);
        }
    }

    /// One socket more was closed for want of room.
    fn count_refused(&mut self, tenant: usize)
        ensures { self.new ≡ with_refusal tenant self.old }
    {
        if let Some(count) = self.refused.get_mut(tenant) {
            *count = count.saturating_add(1);
        }
    }
}
