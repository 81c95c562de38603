//! Where a partition is.
ghost use Rattle.std.specs.Prelude.{◌≡◌};
ghost use Rattle.kb_tenant_state.specs.World.{place_in};

/// A partition of a tenant: the instance of its topic, and its number. No two topics ever have the same instance.
#[derive(Clone, Copy, Debug, PartialEq, Eq)]
pub struct TopicPartition {
    pub instance: u64,
    pub number: usize,
}

impl TopicPartition {
    /// Where a partition of a topic would be. There is none where there is no topic, or the number is negative.
    pub fn new(topic: Option<u64>, partition: i32) -> Option<TopicPartition>
        ensures { result ≡ place_in topic partition }
    {
        let instance = topic?;
        if partition < 0 {
            return None;
        }
        Some(TopicPartition {
            instance,
            number: partition as usize,
        })
    }
}
