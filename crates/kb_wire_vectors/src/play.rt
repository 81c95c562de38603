//! How an exchange is played.

ghost use Rattle.std.specs.Prelude.{◌<◌};

use crate::line::Line;
use kb_broker::Broker;
use kb_log::{ListLog, PartitionLog};
use kb_node::{Listing, Settings, play_script, play_script_on, play_script_with, read_settings};
use kb_segment_log::SegmentLog;
use kb_store::MemoryStore;
use std::alloc::{AllocError, Global};
use std::fmt::Display;

/// What the logs of a broker are kept in: memory, or the files of a store in memory.
#[derive(Clone, Copy, Debug, PartialEq, Eq)]
enum Logs {
    Memory,
    Files,
}

/// How an exchange is played: on which logs, and cut to at most so many digits.
const WAYS: [(Logs, usize); 4] = [
    (Logs::Memory, usize::MAX),
    (Logs::Files, usize::MAX),
    (Logs::Memory, 6),
    (Logs::Memory, 2),
];

/// An exchange: the settings of its broker and what it lists, its script, and what that is to say, with the fault that is to end it.
/// With no settings they are the standard ones.
#[derive(Drop)]
pub struct Exchange<'a> {
    pub name: &'a str,
    pub settings: String,
    pub listing: Listing,
    pub script: Vec<Line<'a>>,
    pub wanted: Vec<u8>,
    pub has_fault: bool,
}

impl<'a> Exchange<'a> {
    /// An exchange with no line.
    pub fn new(alloc: Global, name: &'a str) -> Exchange<'a> {
        Exchange {
            name,
            settings: String::new(alloc),
            listing: Listing::Served,
            script: Vec::new(alloc),
            wanted: Vec::new(alloc),
            has_fault: false,
        }
    }

    /// Adds the name of the exchange to a text, where it says what is wanted; else also what it says. One that ends in a fault is
    /// played whole alone, since the fault names a line.
    pub fn play(&self, alloc: Global, said: &mut String) -> Result<(), AllocError> {
        for (logs, most) in WAYS {
            if self.has_fault && most < usize::MAX {
                break;
            }
            let told = self.told(alloc, logs, most)?;
            if told != self.wanted {
                said.push_str("WRONG, with logs in ")?;
                said.push_str(&format!(in alloc; "{logs:?}, cut to so many digits: {most}\n")?)?;
                said.push_str(str::from_utf8(&told).unwrap_or(""))?;
                break;
            }
        }
        said.push_str(self.name)?;
        said.push('\n')
    }

    /// What a new broker with these logs says to it, where pieces have at most so many digits, and the line of the fault behind it.
    fn told(&self, alloc: Global, logs: Logs, most: usize) -> Result<Vec<u8>, AllocError>
        requires { 0 < most }
    {
        let mut script = Vec::new(alloc);
        for line in &self.script {
            line.put(&mut script, most)?;
        }
        let mut told = Vec::new(alloc);
        match logs {
            Logs::Memory if self.is_standard() => {
                let played = play_script(alloc, &mut script.as_slice(), &mut told);
                say_fault(alloc, &mut told, played)?;
            }
            Logs::Memory => self.tell::<ListLog>(alloc, &script, &mut told)?,
            Logs::Files => self.tell::<SegmentLog>(alloc, &script, &mut told)?,
        }
        Ok(told)
    }

    /// Whether its broker is the standard one.
    fn is_standard(&self) -> bool {
        self.settings.is_empty() && self.listing == Listing::Served
    }

    /// Adds what a new broker says to a script, and the line of the fault behind it.
    fn tell<L: PartitionLog + Drop>(
        &self,
        alloc: Global,
        script: &[u8],
        told: &mut Vec<u8>,
    ) -> Result<(), AllocError> {
        match self.listing {
            Listing::Served => self.tell_by_settings::<L>(alloc, script, told),
            Listing::StockClients => tell_for_stock_clients::<L>(alloc, script, told),
        }
    }

    /// Adds what a new broker of its settings says to a script, and the line of the fault behind it.
    fn tell_by_settings<L: PartitionLog + Drop>(
        &self,
        alloc: Global,
        script: &[u8],
        told: &mut Vec<u8>,
    ) -> Result<(), AllocError> {
        let mut reader = script;
        let settings = if self.settings.is_empty() {
            Ok(Settings::standard(alloc)?)
        } else {
            read_settings(alloc, &self.settings)
        };
        match settings {
            Ok(settings) => {
                let played = play_script_with::<L, _, _>(alloc, &settings, &mut reader, told);
                say_fault(alloc, told, played)
            }
            Err(fault) => say_fault(alloc, told, Err(fault)),
        }
    }
}

/// Adds what a new broker of the standard settings, which lists what stock clients ask for, says to a script, and the line of the fault
/// behind it. To one that has just opened nothing was refused.
fn tell_for_stock_clients<L: PartitionLog + Drop>(
    alloc: Global,
    script: &[u8],
    told: &mut Vec<u8>,
) -> Result<(), AllocError> {
    let settings = Settings::standard(alloc)?;
    let store = MemoryStore::new(alloc);
    let opened = Broker::<MemoryStore, L>::open_listing(
        alloc,
        &settings,
        Listing::StockClients,
        store,
    );
    let Ok(mut opened) = opened else {
        return Err(AllocError);
    };
    if !opened.broker.is_calm() {
        return Err(AllocError);
    }
    let mut reader = script;
    let played = play_script_on(alloc, &mut opened.broker, &mut reader, told);
    say_fault(alloc, told, played)
}

/// Adds the line of a fault, where there is one.
fn say_fault<F: Display + Drop>(
    alloc: Global,
    told: &mut Vec<u8>,
    played: Result<(), F>,
) -> Result<(), AllocError> {
    if let Err(fault) = played {
        let line = format!(in alloc; "! {fault}\n")?;
        told.extend_from_slice(line.as_bytes())?;
    }
    Ok(())
}
