//! How much comes in a second.

ghost use Rattle.std.specs.Prelude.{◌≡◌, ◌^◌, ◌-◌, length, min, replicate, IfOk};
ghost use Rattle.std.specs.List.{sum_by};
ghost use Rattle.kb_metrics.specs.Rates.{added, advanced, in_minute, no_history, noted_series, noted_both, none_noted};

use std::alloc::{AllocError, Global};
use std::marker::Model;

/// How many seconds are kept.
const SAMPLES: usize = 120;

/// How much there was up to a second, in all.
#[derive(Clone, Copy, Debug, PartialEq, Eq)]
pub struct Noted {
    pub second: u64,
    pub total: u64,
}

/// How much came in each of the last 120 seconds, which contracts see as `Series`.
#[derive(Drop)]
pub struct PerSecond {
    samples: Vec<u64>,
    noted: Option<Noted>,
}

impl Model for PerSecond {
    ghost use Rattle.std.specs.Prelude.{◌≡◌, length};
    ghost use Rattle.kb_metrics.specs.Rates.{Series};

    ghost Value = { Series };

    ghost view = { λ s. record { samples = s.samples.items; noted = s.noted } };

    ghost invariant = { λ s. length s.samples.items ≡ 120 };
}

impl PerSecond {
    /// Nothing was noted yet. It takes the memory that it ever needs.
    pub fn new(alloc: Global) -> Result<PerSecond, AllocError>
        ensures { IfOk result (λ series. series ≡ none_noted) }
    {
        Ok(PerSecond {
            samples: no_samples(alloc)?,
            noted: None,
        })
    }

    /// How much there is up to now, since any start. What is more than at the last note is of this second. It takes no memory.
    pub fn note(&mut self, second: u64, total: u64)
        ensures { self.new ≡ noted_series (record { second = second; total = total }) self.old }
    {
        if let Some(last) = self.noted {
            begin(&mut self.samples, second.saturating_sub(last.second));
            add(&mut self.samples, total.saturating_sub(last.total));
        }
        self.noted = Some(Noted { second, total });
    }

    /// How much came in each second, the oldest first.
    pub fn samples(&self) -> &[u64]
        ensures value { result.now ≡ self.now.samples }
        ensures len { length result.now ≡ 120 }
    {
        &self.samples
    }

    /// How much came in the minute up to a second: in that one and in the 59 before it. It stays at the greatest number.
    pub fn in_minute(&self, second: u64) -> u64
        ensures { result ≡ in_minute second self.now }
    {
        match self.noted {
            Some(last) => {
                let gone = second.saturating_sub(last.second).min(60) as usize;
                sum(&self.samples[60 + gone..])
            }
            None => 0,
        }
    }
}

/// The bytes of requests and of responses in each of the last 120 seconds, which contracts see as `History`.
#[derive(Drop)]
pub struct Rates {
    requests: PerSecond,
    responses: PerSecond,
}

impl Model for Rates {
    ghost use Rattle.kb_metrics.specs.Rates.{History};

    ghost Value = { History };

    ghost view = { λ r. record { requests = r.requests; responses = r.responses } };
}

impl Rates {
    /// Nothing was noted yet. It takes the memory that it ever needs.
    pub fn new(alloc: Global) -> Result<Rates, AllocError>
        ensures { IfOk result (λ rates. rates ≡ no_history) }
    {
        Ok(Rates {
            requests: PerSecond::new(alloc)?,
            responses: PerSecond::new(alloc)?,
        })
    }

    /// The bytes that came and went up to now, since any start. What is more than at the last note is of this second. It takes no memory.
    pub fn note(&mut self, second: u64, request_bytes: u64, response_bytes: u64)
        ensures { self.new ≡ noted_both second request_bytes response_bytes self.old }
    {
        self.requests.note(second, request_bytes);
        self.responses.note(second, response_bytes);
    }

    /// The bytes of requests of each second, the oldest first.
    pub fn requests(&self) -> &[u64]
        ensures value { result.now ≡ self.now.requests.samples }
        ensures len { length result.now ≡ 120 }
    {
        self.requests.samples()
    }

    /// The bytes of responses of each second, the oldest first.
    pub fn responses(&self) -> &[u64]
        ensures value { result.now ≡ self.now.responses.samples }
        ensures len { length result.now ≡ 120 }
    {
        self.responses.samples()
    }
}

fn no_samples(alloc: Global) -> Result<Vec<u64>, AllocError>
    ensures { IfOk result (λ samples. samples.items ≡ replicate 120 0) }
{
    Vec::from_elem(alloc, 0, SAMPLES)
}

/// So many seconds begin, in which nothing came yet.
fn begin(samples: &mut [u64], seconds: u64)
    ensures { samples.new ≡ advanced seconds samples.old }
{
    let gone = seconds.min(samples.len() as u64) as usize;
    samples.rotate_left(gone);
    let kept = samples.len() - gone;
    let (_, begun) = samples.split_at_mut(kept);
    begun.fill(0);
}

/// More came in the newest second.
fn add(samples: &mut [u64], more: u64)
    requires { length samples.old ≡ 120 }
    ensures { samples.new ≡ added more samples.old }
{
    samples[119] = samples[119].saturating_add(more);
}

/// Samples together. It stays at the greatest number.
fn sum(samples: &[u64]) -> u64
    ensures { result ≡ min (sum_by (λ n. n) samples.now) (2 ^ 64 - 1) }
{
    let mut sum: u64 = 0;
    for sample in samples {
        sum = sum.saturating_add(*sample);
    }
    sum
}
