//! Where the task of a command line is done.

ghost use Rattle.std.specs.Prelude.{IfOk};
ghost use Rattle.kconsole.specs.Console.{IsPlaceOf};

use crate::console::ConsoleLine;
use crate::link::Link;
use kb_client::Login;
use std::alloc::{AllocError, Global};

/// The way to a line's broker, and the line's user and partition.
#[derive(Drop)]
pub struct Place {
    pub link: Link,
    pub login: Login,
    pub topic: String,
    pub partition: i32,
}

impl Place {
    /// Takes them out of a line.
    pub fn of(alloc: Global, line: ConsoleLine) -> Result<Place, AllocError>
        ensures { IfOk result (λ place. IsPlaceOf line place) }
    {
        let ConsoleLine {
            host,
            port,
            login,
            topic,
            partition,
            retries,
            task: _,
        } = line;
        let link = Link::new(alloc, &host, port, retries)?;
        Ok(Place {
            link,
            login,
            topic,
            partition,
        })
    }
}
