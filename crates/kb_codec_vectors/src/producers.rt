//! A producer's batches in a row.

use crate::said::Field::Number;
use crate::said::Said;
use kb_batch::{BatchBuilder, BatchView};
use kb_producers::{ProducerTable, Verdict};
use std::alloc::{AllocError, Global};

/// The batches of a log, and the offset behind them.
#[derive(Drop)]
pub struct Producers {
    table: ProducerTable,
    end: i64,
}

impl Producers {
    /// No batch.
    pub fn new(alloc: Global) -> Producers {
        Producers {
            table: ProducerTable::new(alloc),
            end: 0,
        }
    }

    /// `append PRODUCER SEQUENCE`: a batch of one record comes, and is appended where the verdict says so. `dropped-below OFFSET`:
    /// the batches before that are gone. Whether the kind is one of these.
    pub fn call(
        &mut self,
        alloc: Global,
        kind: &str,
        rest: &str,
        said: &mut Said,
    ) -> Result<bool, AllocError> {
        match kind {
            "append" => self.append(alloc, rest, said)?,
            "dropped-below" => self.table.dropped_below(rest.parse::<i64>().unwrap_or(0)),
            _ => return Ok(false),
        }
        Ok(true)
    }

    /// `rebuild` and `judge`, of a batch. Whether the kind is one of these.
    pub fn read(
        &mut self,
        alloc: Global,
        kind: &str,
        bytes: &[u8],
        said: &mut Said,
    ) -> Result<bool, AllocError> {
        match kind {
            "rebuild" => self.rebuild(alloc, bytes, said)?,
            "judge" => self.judge(bytes, said)?,
            _ => return Ok(false),
        }
        Ok(true)
    }

    fn rebuild(&mut self, alloc: Global, bytes: &[u8], said: &mut Said) -> Result<(), AllocError> {
        match BatchView::read(bytes) {
            Ok(view) => {
                self.table = ProducerTable::rebuild(alloc, &[view])?;
                Ok(())
            }
            Err(_) => said.line("no batch"),
        }
    }

    fn judge(&self, bytes: &[u8], said: &mut Said) -> Result<(), AllocError> {
        match BatchView::read(bytes) {
            Ok(view) => say(self.table.judge(&view), said),
            Err(_) => said.line("no batch"),
        }
    }

    fn append(&mut self, alloc: Global, text: &str, said: &mut Said) -> Result<(), AllocError> {
        let (producer, sequence) = text.split_once(' ').unwrap_or((text, "0"));
        let producer = producer.parse::<i64>().unwrap_or(-1);
        let sequence = sequence.parse::<i32>().unwrap_or(-1);
        let mut builder = BatchBuilder::new(alloc, producer, 0, sequence);
        let pushed = builder.push(5, None, Some(b"hi"));
        match (pushed, builder.finish()) {
            (Ok(()), Ok(bytes)) => self.append_built(&bytes, said),
            _ => said.line("no batch"),
        }
    }

    fn append_built(&mut self, bytes: &[u8], said: &mut Said) -> Result<(), AllocError> {
        let Ok(view) = BatchView::read(bytes) else {
            return said.line("no batch");
        };
        let verdict = self.table.judge(&view);
        if verdict == Verdict::Append {
            self.table.reserve()?;
            self.table.appended(&view, self.end);
            self.end = self.end.saturating_add(1);
        }
        say(verdict, said)
    }
}

fn say(verdict: Verdict, said: &mut Said) -> Result<(), AllocError> {
    match verdict {
        Verdict::Append => said.line("append"),
        Verdict::Repeat(base) => said.fields(&[("repeat", Number(base))]),
        Verdict::Refuse(code) => said.fields(&[("error_code", Number(code as i64))]),
    }
}
