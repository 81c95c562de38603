//! Names that stand more than once in a request.
ghost use Rattle.std.specs.Prelude.{◌≡◌, ℕ, List, IfOk};
ghost use Rattle.kb_tenant.specs.CreateTopics.{stands_twice};
ghost use Rattle.kb_tenant.specs.Repeated.{came_again};

use kb_api_data::CreateTopic;
use std::alloc::{AllocError, Global};
use std::collections::BTreeMap;

/// The names of a request that came again, and no others. A look-up takes logarithmic time, and none at all where no name came again.
#[derive(Drop)]
pub(crate) struct Repeated<'a> {
    names: BTreeMap<&'a str, ()>,
}

impl<'a> Repeated<'a> {
    /// Those among the names of these topics.
    pub(crate) fn among(
        alloc: Global,
        topics: &[CreateTopic<'a>],
    ) -> Result<Repeated<'a>, AllocError>
        ensures { IfOk result (λ r. (name : List ℕ) → came_again r name ≡ stands_twice name topics.now) }
    {
        let mut seen = BTreeMap::new(alloc);
        let mut names = BTreeMap::new(alloc);
        for topic in topics {
            let name = topic.name.as_str();
            if seen.insert(name, ())?.is_some() {
                names.insert(name, ())?;
            }
        }
        Ok(Repeated { names })
    }

    /// Whether a name came again.
    pub(crate) fn contains(&self, name: &'a str) -> bool
        ensures { result ≡ came_again self.now name.now }
    {
        self.names.contains_key(&name)
    }
}
