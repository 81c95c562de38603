//! The connections that wait.

ghost use Rattle.std.specs.Prelude.{◌≡◌, ◌≢◌, ◌≤◌, ◌==◌, ◌++◌, ◌⊎◌, ◌↔◌, ℕ, None, Contains, IsSomeAnd, OnOk, OnErr, IfOk, IfSome};
ghost use Rattle.std.specs.Prelude.{vec_capacity};
ghost use Rattle.std.specs.Bool.{OnTrue};
ghost use Rattle.std.specs.FinMap as fin;
ghost use Rattle.kb_waits.specs.Queue.{AreParked, IsDue, IsFirstDeadline, IsUnder, IsUnderAny};
ghost use Rattle.kb_broker.specs.Parked.{key_of, keys_for, keys_of, tenant_key, AreSought};

use kb_tenant_state::TopicPartition;
use kb_waits::{WaitKey, Waits};
use std::alloc::{AllocError, Global};
use std::marker::Model;
use std::mem;

/// The queue of the connections that wait, by number: each until its deadline, under its tenant and the partitions that
/// its fetch asks. A clause sees the queue.
#[derive(Drop)]
pub struct Parking {
    waits: Waits,
    /// Room for the numbers of all that are parked.
    room: Vec<u64>,
}

impl Model for Parking {
    ghost use Rattle.kb_waits.specs.Queue.{Queue, queue_code};

    ghost Value = { Queue };

    ghost coded = { queue_code };

    ghost view = { λ p. p.waits };
}

impl Parking {
    /// Nobody waits.
    pub fn new(alloc: Global) -> Parking
        ensures { result ≡ fin.empty }
    {
        Parking {
            waits: Waits::new(alloc),
            room: Vec::new(alloc),
        }
    }

    /// Whether nobody waits.
    pub fn is_empty(&self) -> bool
        ensures { result ≡ (fin.len self.now == 0) }
    {
        self.waits.parked() == 0
    }

    /// The first deadline of a connection that waits; `None` where nobody does. It goes over no other connection.
    pub fn first_deadline(&self) -> Option<u64>
        ensures { IsFirstDeadline self.now result }
    {
        self.waits.first_deadline()
    }

    /// Parks a connection that is not parked until a deadline, under its tenant and some partitions of it. After an `Err` nothing
    /// has changed.
    pub fn park(
        &mut self,
        alloc: Global,
        number: u64,
        tenant: usize,
        deadline: u64,
        places: &[TopicPartition],
    ) -> Result<(), AllocError>
        requires { fin.get self.old number ≡ None }
        ensures parked { OnOk result (self.new ≡ fin.insert self.old number
            (record { deadline = deadline; keys = keys_for tenant places.now })) }
        ensures refused { OnErr result (self.new ≡ self.old) }
    {
        let keys = keys_for(alloc, tenant, places)?;
        // so that those that are looked at in a moment are found without memory
        self.room.reserve(self.waits.parked().saturating_add(1))?;
        self.waits.park(number, deadline, keys)
    }

    /// Takes a connection out of the queue, if it stands there.
    pub fn forget(&mut self, number: u64)
        ensures removed { self.new ≡ fin.remove self.old number }
        ensures gone { fin.get self.new number ≡ None }
        ensures others { (n : ℕ) → n ≢ number → fin.get self.new n ≡ fin.get self.old n }
    {
        self.waits.forget(number);
    }

    /// The connections that are looked at in a moment: those whose deadline has come, and behind them those that were answered; or all that
    /// wait, where it is not known who was answered. The list is to be given back by `give_back`.
    ///
    /// It stands in the room that was made when they were parked, and takes no memory. `None` where there is no room for all of them, as
    /// when more were answered than were parked: then all that wait are to be looked at.
    pub fn sought(
        &mut self,
        alloc: Global,
        answered: &Option<Vec<u64>>,
        clock: u64,
    ) -> Option<Vec<u64>>
        ensures sought { IfSome result (λ ns. AreSought self.old answered.now clock ns.items) }
        ensures queue { self.new ≡ self.old }
    {
        let mut numbers = mem::replace(&mut self.room, Vec::new(alloc));
        if seek(&self.waits, answered, clock, &mut numbers) {
            Some(numbers)
        } else {
            self.room = numbers;
            None
        }
    }

    /// Takes the list back that `sought` gave, for its room.
    pub fn give_back(&mut self, mut room: Vec<u64>)
        ensures { self.new ≡ self.old }
    {
        room.clear();
        if self.room.capacity() < room.capacity() {
            self.room = room;
        }
    }

    /// The connections that wait for one of these partitions of the tenant, ascending. Where nobody does no memory is asked for.
    pub fn touched(
        &self,
        alloc: Global,
        tenant: usize,
        places: &[TopicPartition],
    ) -> Result<Vec<u64>, AllocError>
        ensures { IfOk result (λ ns. AreParked self.now (IsUnderAny (keys_of tenant places.now)) ns.items) }
    {
        let mut numbers = Vec::new(alloc);
        if let [place] = places {
            self.waits.touched(&key_of(tenant, place), &mut numbers)?;
            return Ok(numbers);
        }
        for place in places {
            self.waits.touched(&key_of(tenant, place), &mut numbers)?;
            if !numbers.is_empty() {
                let keys = keys_of(alloc, tenant, places)?;
                self.waits.touched_any(&keys, &mut numbers)?;
                return Ok(numbers);
            }
        }
        Ok(numbers)
    }

    /// The connections of the tenant that wait, ascending.
    pub fn of_tenant(&self, alloc: Global, tenant: usize) -> Result<Vec<u64>, AllocError>
        ensures { IfOk result (λ ns. AreParked self.now (IsUnder (tenant_key tenant)) ns.items) }
    {
        let mut numbers = Vec::new(alloc);
        self.waits
            .touched(&WaitKey::Tenant { tenant }, &mut numbers)?;
        Ok(numbers)
    }
}

/// Replaces what is in `numbers` by the connections that are looked at in a moment, where it has room for them, and answers whether it
/// had. Takes no memory.
fn seek(waits: &Waits, answered: &Option<Vec<u64>>, clock: u64, numbers: &mut Vec<u64>) -> bool
    ensures { OnTrue result (AreSought waits.now answered.now clock numbers.new.items) }
{
    if numbers.capacity() < waits.parked() {
        return false;
    }
    match answered {
        Some(answered) => due_or_answered(waits, clock, answered, numbers),
        None => {
            let _ = waits.all(numbers); // there is room
            true
        }
    }
}

/// Replaces what is in `numbers` by the connections whose deadline has come, and behind them those that were answered, where it has room
/// for these, and answers whether it had. Takes no memory, as it has room for all that are parked.
fn due_or_answered(waits: &Waits, clock: u64, answered: &[u64], numbers: &mut Vec<u64>) -> bool
    requires { fin.len waits.now ≤ vec_capacity numbers.old }
    ensures { OnTrue result ((k : ℕ) → Contains numbers.new.items k ↔ (IsSomeAnd (fin.get waits.now k) (IsDue clock)
        ⊎ Contains answered.now k)) }
{
    let _ = waits.due(clock, numbers); // there is room
    for number in answered {
        if numbers.len() == numbers.capacity() {
            return false;
        }
        numbers.push_reserved(*number);
    }
    true
}

/// The keys of a connection of a tenant that waits for some partitions.
fn keys_for(
    alloc: Global,
    tenant: usize,
    places: &[TopicPartition],
) -> Result<Vec<WaitKey>, AllocError>
    ensures { IfOk result (λ keys. keys.items ≡ keys_for tenant places.now) }
{
    let mut keys = Vec::with_capacity(alloc, places.len().saturating_add(1))?;
    keys.push(WaitKey::Tenant { tenant })?;
    push_keys(&mut keys, tenant, places)?;
    Ok(keys)
}

/// The key of a partition of a tenant.
fn key_of(tenant: usize, place: &TopicPartition) -> WaitKey
    ensures { result ≡ key_of tenant place.now }
{
    WaitKey::Partition {
        tenant,
        instance: place.instance,
        partition: place.number,
    }
}

/// The keys of some partitions of a tenant.
fn keys_of(
    alloc: Global,
    tenant: usize,
    places: &[TopicPartition],
) -> Result<Vec<WaitKey>, AllocError>
    ensures { IfOk result (λ keys. keys.items ≡ keys_of tenant places.now) }
{
    let mut keys = Vec::with_capacity(alloc, places.len())?;
    push_keys(&mut keys, tenant, places)?;
    Ok(keys)
}

/// Puts the keys of some partitions of a tenant behind what is in `keys`. After an `Err`, which is want of memory, some may be missing.
fn push_keys(
    keys: &mut Vec<WaitKey>,
    tenant: usize,
    places: &[TopicPartition],
) -> Result<(), AllocError>
    ensures { OnOk result (keys.new.items ≡ keys.old.items ++ keys_of tenant places.now) }
{
    for place in places {
        keys.push(key_of(tenant, place))?;
    }
    Ok(())
}
