//! The topics of a catalog, one after another.
ghost use Rattle.std.specs.Prelude.{◌≡◌, ◌<◌, ◌^◌};
ghost use Rattle.std.specs.Iterator.{YieldsFirstBy, item_count};
ghost use Rattle.kb_topics.specs.ByName.{LeadSomewhere, topics_under};

use crate::topic::Topic;
use std::collections::{BTreeMap, btree_map};
use std::marker::Model;

/// The topics of a catalog that are still to come, in byte order of their names. A clause sees each with its instance.
#[derive(Drop)]
pub struct TopicsByName<'a> {
    names: btree_map::Iter<'a, String, u64>,
    topics: &'a BTreeMap<u64, Topic>,
}

impl<'a> Model for TopicsByName<'a> {
    ghost use Rattle.std.specs.Prelude.{ℕ, List};
    ghost use Rattle.kb_topics.specs.Known.{TopicState};
    ghost use Rattle.kb_topics.specs.ByName.{LeadSomewhere, topics_under};

    ghost Value = { List (ℕ × TopicState) };

    ghost view = { λ a. topics_under a.names a.topics.now.entries };

    ghost invariant = { λ a. LeadSomewhere a.names a.topics.now.entries };
}

impl<'a> TopicsByName<'a> {
    /// The topics to which names lead.
    pub(crate) fn new(
        names: btree_map::Iter<'a, String, u64>,
        topics: &'a BTreeMap<u64, Topic>,
    ) -> TopicsByName<'a>
        requires { LeadSomewhere names topics.now.entries }
        ensures { result ≡ topics_under names.entry topics.now.entries }
    {
        TopicsByName { names, topics }
    }
}

impl<'a> Iterator for TopicsByName<'a> {
    type Item = (u64, &'a Topic);

    ghost next_gives = { YieldsFirstBy (λ p. (p.0, p.1.now)) (λ left. left) };

    ghost remaining = { item_count (λ left. left) };

    fn next(&mut self) -> Option<(u64, &'a Topic)> {
        let (_, instance) = self.names.next()?;
        let topic = self.topics.get(instance)?;
        Some((*instance, topic))
    }
}
