//! A broker on files in memory, which is of a type with calls of no contract, so that what happens to it is proved without a broker's
//! clauses.

use kb_broker::{Broker, Event, Listing, Settings, Written};
use kb_restart::{open_broker, reopen};
use kb_segment_log::SegmentLog;
use kb_store::MemoryStore;
use std::alloc::{AllocError, Global};

/// A broker of the standard settings on files in memory.
#[derive(Drop)]
pub(crate) struct Host {
    alloc: Global,
    broker: Broker<MemoryStore, SegmentLog>,
}

impl Host {
    /// One that opens on no file.
    pub(crate) fn new(alloc: Global) -> Result<Host, AllocError> {
        let settings = Settings::standard(alloc)?;
        match open_broker(alloc, &settings, Listing::Served, MemoryStore::new(alloc)) {
            Ok(opened) => Ok(Host {
                alloc,
                broker: opened.broker,
            }),
            Err(_) => Err(AllocError),
        }
    }

    /// It stops, and another one opens with its files.
    pub(crate) fn again(self) -> Result<Host, AllocError> {
        let alloc = self.alloc;
        let settings = Settings::standard(alloc)?;
        match reopen(alloc, self.broker, &settings, Listing::Served) {
            Ok(opened) => Ok(Host {
                alloc,
                broker: opened.broker,
            }),
            Err(_) => Err(AllocError),
        }
    }

    /// A connection opens, whose number is above that of each earlier one.
    pub(crate) fn open(&mut self, number: u64) -> Result<(), AllocError> {
        if number <= self.broker.last_connection() {
            return Err(AllocError);
        }
        self.broker.connect(self.alloc, number)
    }

    /// What a connection is told once those bytes came on it.
    pub(crate) fn ask(&mut self, number: u64, bytes: &[u8]) -> Vec<u8> {
        self.input(number, bytes);
        self.take_output(number)
    }

    /// Bytes come on a connection.
    fn input(&mut self, number: u64, bytes: &[u8]) {
        self.broker.input(self.alloc, number, bytes);
    }

    /// What a connection is told.
    fn take_output(&mut self, number: u64) -> Vec<u8> {
        self.broker.take_output(self.alloc, number)
    }

    /// A moment passes.
    pub(crate) fn pass(&mut self, now: u32) {
        self.broker.moment(self.alloc, u64::from(now));
    }

    /// When there is something to do.
    pub(crate) fn deadline(&self) -> u64 {
        self.broker.next_deadline()
    }

    /// Bytes come on connections 1 to 4: what each got.
    pub(crate) fn run(
        &mut self,
        first: Vec<u8>,
        second: Vec<u8>,
        third: Vec<u8>,
        fourth: Vec<u8>,
    ) -> Result<Vec<Written>, AllocError> {
        let events = [
            Event::In(1, first),
            Event::In(2, second),
            Event::In(3, third),
            Event::In(4, fourth),
        ];
        self.broker.run(self.alloc, &events)
    }

    /// The broker itself.
    pub(crate) fn into_broker(self) -> Broker<MemoryStore, SegmentLog> {
        self.broker
    }
}
