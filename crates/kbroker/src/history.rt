//! What the pages tell of the time since the broker began to serve.

ghost use Rattle.std.specs.Prelude.{◌≡◌, ◌/◌, ◌<◌, length, max, option_map, IfOk};
ghost use Rattle.kbroker.specs.Server.{noted_at, noted_each, rates_by, refused_by, together};

use crate::totals::together;
use kb_log::PartitionLog;
use kb_metrics::{PerSecond, Rates};
use kb_node::{Edge, Store, TenantTraffic, Turn};
use kb_server_log::time_text;
use std::alloc::{AllocError, Global};
use std::cell::Cell;
use std::net::Net;

/// The turns together, and what was refused and how many bytes tenants got and sent of late.
#[derive(Drop)]
pub struct History {
    pub turns: Turn,
    /// How many calls the store refused in each second.
    pub refused: PerSecond,
    /// The rates of each tenant, by its place.
    pub rates: Vec<Rates>,
    /// When the broker began to serve, as a text.
    pub start_text: String,
    /// The longest turn since the last page of metrics, in microseconds.
    pub longest: u64,
    /// Whether that was told.
    pub is_told: Cell<bool>,
    started: u64,
    /// How many calls the store has refused.
    failures: u64,
    /// The second in which the rates were noted last.
    second: u64,
}

impl History {
    /// Nothing has happened yet, for so many tenants, and the store has refused so many calls. The moment is in milliseconds.
    pub fn new(
        alloc: Global,
        tenants: usize,
        failures: u64,
        started: u64,
    ) -> Result<History, AllocError>
        ensures started { IfOk result (λ it. it.started ≡ started) }
        ensures failures { IfOk result (λ it. it.failures ≡ failures) }
        ensures none { IfOk result (λ it. (it.longest ≡ 0) × (it.second ≡ 0)) }
    {
        let mut rates = Vec::with_capacity(alloc, tenants)?;
        for _ in 0..tenants {
            rates.push(Rates::new(alloc)?)?;
        }
        let mut refused = PerSecond::new(alloc)?;
        refused.note(started / 1000, failures);
        Ok(History {
            turns: Turn::default(),
            refused,
            rates,
            start_text: time_text(alloc, started / 1000 * 1000)?,
            longest: 0,
            is_told: Cell::new(false),
            started,
            failures,
            second: 0,
        })
    }

    /// When the broker began to serve, in milliseconds since the beginning of 1970.
    pub fn started(&self) -> u64
        ensures { result ≡ self.now.started }
    {
        self.started
    }

    /// A turn at that moment, in milliseconds, which took so many microseconds. The rates are noted once a second, refusals as they come.
    pub fn note<R: Net, S: Store, L: PartitionLog + Drop>(
        &mut self,
        edge: &Edge<R, S, L>,
        turn: &Turn,
        micros: u64,
        now: u64,
    )
        ensures turns { self.new.turns ≡ together self.old.turns turn.now }
        ensures longest { self.new.longest ≡ max self.old.longest micros }
        ensures failures { self.new.failures ≡ max self.old.failures (S.disk edge.now.host.broker.store).failures }
        ensures refused { self.new.refused
            ≡ refused_by (now / 1000) self.old.failures (S.disk edge.now.host.broker.store).failures self.old.refused }
        ensures rates { self.new.rates.items ≡ rates_by (now / 1000) self.old.second edge.now.traffic.items self.old.rates.items }
        ensures second { self.new.second ≡ now / 1000 }
        ensures fixed { self.new ≡ record self.old {
          turns = self.new.turns;
          longest = self.new.longest;
          failures = self.new.failures;
          refused = self.new.refused;
          rates = self.new.rates;
          second = self.new.second;
        } }
    {
        self.turns = together(&self.turns, turn);
        self.longest = self.longest.max(micros);
        let second = now / 1000;
        let failures = edge.broker().store().failures();
        if failures > self.failures {
            self.failures = failures;
            self.refused.note(second, failures);
        }
        if second != self.second {
            self.second = second;
            note_rates(&mut self.rates, edge, second);
        }
    }

    /// The longest turn is looked for anew, once it was told.
    pub fn forget_told(&mut self) {
        if self.is_told.replace(false) {
            self.longest = 0;
        }
    }
}

/// Notes what came and went up to a second, of each tenant whose bytes are counted.
fn note_rates<R: Net, S: Store, L: PartitionLog + Drop>(
    rates: &mut [Rates],
    edge: &Edge<R, S, L>,
    second: u64,
)
    ensures { rates.new ≡ noted_each second edge.now.traffic.items rates.old }
{
    for place in 0..rates.len() {
        note_at(rates, place, edge.traffic_of(place), second);
    }
}

/// Notes what came and went at a place, where it is counted.
fn note_at(rates: &mut [Rates], place: usize, traffic: Option<&TenantTraffic>, second: u64)
    requires { place < length rates.old }
    ensures { rates.new ≡ noted_at second place (option_map (λ t. t.now) traffic.entry) rates.old }
{
    if let Some(traffic) = traffic {
        rates[place].note(second, traffic.request_bytes, traffic.response_bytes);
    }
}
