//! The pages of a broker that serves: where they are listened on, and when they are served.

ghost use Rattle.std.specs.Prelude.{◌≡◌};

use crate::Fault;
use crate::history::History;
use crate::shown::Shown;
use kb_log::PartitionLog;
use kb_node::{Edge, Settings, Store, Turn};
use kb_operator::{OperatorFault, address_text, listen_fault};
use kb_pages::Pages;
use std::hash::RandomState;
use std::io;
use std::net::Net;
use std::time::Instant;

/// The pages, and what they tell of.
#[derive(Drop)]
pub struct Monitoring<'a> {
    pages: Pages<HostRuntime>,
    settings: &'a Settings,
    history: History,
    /// When the turn began that is under way.
    begun: Option<Instant>,
}

impl<'a> Monitoring<'a> {
    /// The pages on the address that the settings name, where they name one. From then on the edge counts what its tenants ask, and does
    /// nothing else. The moment is in milliseconds since the beginning of 1970.
    pub fn open<R: Net, S: Store, L: PartitionLog + Drop>(
        rt: &HostRuntime,
        settings: &'a Settings,
        edge: &mut Edge<R, S, L>,
        started: u64,
    ) -> Result<Option<Monitoring<'a>>, Fault>
        ensures host { edge.new.host ≡ edge.old.host }
        ensures sockets { edge.new.sockets ≡ edge.old.sockets }
    {
        let alloc = rt.alloc();
        let Some(endpoint) = &settings.metrics.address else {
            return Ok(None);
        };
        let tenants = edge.broker().tenants_len();
        edge.count_traffic(alloc, tenants)?;
        let history = History::new(alloc, tenants, edge.broker().store().failures(), started)?;
        let address = address_text(alloc, &endpoint.host, endpoint.port)?;
        match open_pages(rt, &address, settings.metrics.token.as_deref()) {
            Ok(pages) => {
                let monitoring = Monitoring {
                    pages,
                    settings,
                    history,
                    begun: None,
                };
                monitoring.watch(rt, edge, &address)?;
                Ok(Some(monitoring))
            }
            Err(error) => Err(Fault::Operator(listen_fault(alloc, &address, None, &error))),
        }
    }

    /// A wait of the edge ends too once somebody asks for a page.
    fn watch<R: Net, S: Store, L: PartitionLog + Drop>(
        &self,
        rt: &HostRuntime,
        edge: &Edge<R, S, L>,
        address: &str,
    ) -> Result<(), Fault> {
        let shown = Shown {
            rt,
            edge,
            settings: self.settings,
            history: &self.history,
            now: self.history.started(),
        };
        match self.pages.watch(&shown) {
            Ok(()) => Ok(()),
            Err(error) => Err(Fault::Operator(listen_fault(rt.alloc(), address, None, &error))),
        }
    }

    /// A turn of the edge begins.
    pub fn begin(&mut self, rt: &HostRuntime) {
        self.begun = Instant::now(rt).ok();
    }

    /// Counts what a turn of the edge at that moment did, and serves who asks for a page. The moment is in milliseconds. The broker and its
    /// sockets stay as they are.
    pub fn turn<R: Net, S: Store, L: PartitionLog + Drop>(
        &mut self,
        rt: &HostRuntime,
        edge: &mut Edge<R, S, L>,
        turn: &Turn,
        now: u64,
    )
        ensures host { edge.new.host ≡ edge.old.host }
        ensures sockets { edge.new.sockets ≡ edge.old.sockets }
    {
        let is_asked = edge.take_beside();
        let micros = micros_since(rt, self.begun);
        self.history.note(edge, turn, micros, now);
        let shown = Shown {
            rt,
            edge,
            settings: self.settings,
            history: &self.history,
            now,
        };
        self.pages.turn(&shown, now, is_asked);
        self.history.forget_told();
    }
}

/// How many microseconds have gone by, where that is known.
fn micros_since(rt: &HostRuntime, begun: Option<Instant>) -> u64 {
    let Some(begun) = begun else {
        return 0;
    };
    match begun.elapsed(rt) {
        Ok(time) => {
            let whole = time.as_secs().saturating_mul(1_000_000);
            whole.saturating_add(u64::from(time.subsec_micros()))
        }
        Err(_) => 0,
    }
}

fn open_pages(
    rt: &HostRuntime,
    address: &str,
    token: Option<&str>,
) -> io::Result<Pages<HostRuntime>> {
    Pages::open(rt, rt.alloc(), RandomState::new(rt)?, address, token)
}
