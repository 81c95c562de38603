//! Parts of replies whose entries have error codes.

ghost use Rattle.kb_wire.specs.Codec.{array, items};
ghost use Rattle.kb_api_data.specs.Layouts.{create_topic_reply, create_topic_reply_v1, produce_partition_reply};
ghost use Rattle.kb_api_data.specs.ProduceV5.{produce_partition_reply_v5};
ghost use Rattle.kb_api_group.specs.Layouts.{commit_partition_reply};
ghost use Rattle.kb_over_limit.specs.Coded.{Finds, Tallies, each};

use crate::tally::Tally;
use kb_api_data::{
    CreateTopicReply, CreateTopicReplyV1, ProducePartitionReply, ProducePartitionReplyV5,
    ProduceTopicReply, ProduceTopicReplyV5,
};
use kb_api_group::{CommitPartitionReply, CommitTopicReply};
use kb_wire::{Cursor, WireFault};

/// A part of a reply whose entries have error codes.
pub(crate) trait Coded<'a>: Sized {
    // how it is spelled
    ghost use Rattle.kb_wire.specs.Codec.{Codec};
    ghost use Rattle.kb_over_limit.specs.declared.tally.Tally.{Tally};

    ghost codec: { Codec Self };

    // what its entries make of a tally
    ghost tallied: { Self → Tally → Tally };

    /// Goes over one at the front of what is left, and counts its entries. It takes no memory.
    fn tally(cursor: &mut Cursor<'a>, tally: &mut Tally) -> Result<(), WireFault>
        ensures { Tallies (codec.read cursor.old) tallied tally.old result tally.new cursor.new };
}

/// Goes over that many at the front of what is left, and counts their entries.
fn tally_items<'a, T: Coded<'a>>(
    count: u32,
    cursor: &mut Cursor<'a>,
    tally: &mut Tally,
) -> Result<(), WireFault>
    ensures { Tallies ((items T.codec).read count cursor.old) (each T.tallied) tally.old result tally.new cursor.new }
{
    for _ in 0..count {
        T::tally(cursor, tally)?;
    }
    Ok(())
}

/// Goes over an array at the front of what is left, and counts the entries in it.
#[tactic(auto, unfolding(kb_wire::specs::Codec::sized))]
pub(crate) fn tally_each<'a, T: Coded<'a>>(
    cursor: &mut Cursor<'a>,
    tally: &mut Tally,
) -> Result<(), WireFault>
    ensures { Tallies ((array T.codec).read cursor.old) (each T.tallied) tally.old result tally.new cursor.new }
{
    let count = cursor.count()?;
    tally_items::<T>(count, cursor, tally)
}

/// A partition, in a reply of Produce.
#[tactic(auto, unfolding(kb_api_data::specs::Layouts::produce_partition_reply))]
fn produced(cursor: &mut Cursor<'_>) -> Result<ProducePartitionReply, WireFault>
    ensures { Finds (produce_partition_reply.read cursor.old) result cursor.new }
{
    Ok(ProducePartitionReply {
        index: cursor.i32()?,
        error_code: cursor.i16()?,
        base_offset: cursor.i64()?,
        log_append_time_ms: cursor.i64()?,
    })
}

/// A partition, in a reply of Produce from version 5 on.
#[tactic(auto, unfolding(kb_api_data::specs::ProduceV5::produce_partition_reply_v5))]
fn produced_v5(cursor: &mut Cursor<'_>) -> Result<ProducePartitionReplyV5, WireFault>
    ensures { Finds (produce_partition_reply_v5.read cursor.old) result cursor.new }
{
    Ok(ProducePartitionReplyV5 {
        index: cursor.i32()?,
        error_code: cursor.i16()?,
        base_offset: cursor.i64()?,
        log_append_time_ms: cursor.i64()?,
        log_start_offset: cursor.i64()?,
    })
}

/// A partition, in a reply of OffsetCommit.
#[tactic(auto, unfolding(kb_api_group::specs::Layouts::commit_partition_reply))]
fn committed(cursor: &mut Cursor<'_>) -> Result<CommitPartitionReply, WireFault>
    ensures { Finds (commit_partition_reply.read cursor.old) result cursor.new }
{
    Ok(CommitPartitionReply {
        partition: cursor.i32()?,
        error_code: cursor.i16()?,
    })
}

/// A topic, in a reply of CreateTopics 0.
#[tactic(auto, unfolding(kb_api_data::specs::Layouts::create_topic_reply))]
fn created<'a>(cursor: &mut Cursor<'a>) -> Result<CreateTopicReply<'a>, WireFault>
    ensures { Finds (create_topic_reply.read cursor.old) result cursor.new }
{
    Ok(CreateTopicReply {
        name: cursor.string()?,
        error_code: cursor.i16()?,
    })
}

/// A topic, in a reply of CreateTopics 1.
#[tactic(auto, unfolding(kb_api_data::specs::Layouts::create_topic_reply_v1))]
fn created_v1<'a>(cursor: &mut Cursor<'a>) -> Result<CreateTopicReplyV1<'a>, WireFault>
    ensures { Finds (create_topic_reply_v1.read cursor.old) result cursor.new }
{
    Ok(CreateTopicReplyV1 {
        name: cursor.string()?,
        error_code: cursor.i16()?,
        error_message: cursor.nullable_string()?,
    })
}

impl<'a> Coded<'a> for ProducePartitionReply {
    ghost use Rattle.kb_api_data.specs.Layouts.{produce_partition_reply};
    ghost use Rattle.kb_over_limit.specs.Tally.{noted};

    ghost codec = { produce_partition_reply };

    ghost tallied = { λ e. noted e.error_code };

    fn tally(cursor: &mut Cursor<'a>, tally: &mut Tally) -> Result<(), WireFault> {
        let entry = produced(cursor)?;
        tally.note(&entry.error_code);
        Ok(())
    }
}

impl<'a> Coded<'a> for ProducePartitionReplyV5 {
    ghost use Rattle.kb_api_data.specs.ProduceV5.{produce_partition_reply_v5};
    ghost use Rattle.kb_over_limit.specs.Tally.{noted};

    ghost codec = { produce_partition_reply_v5 };

    ghost tallied = { λ e. noted e.error_code };

    fn tally(cursor: &mut Cursor<'a>, tally: &mut Tally) -> Result<(), WireFault> {
        let entry = produced_v5(cursor)?;
        tally.note(&entry.error_code);
        Ok(())
    }
}

impl<'a> Coded<'a> for CommitPartitionReply {
    ghost use Rattle.kb_api_group.specs.Layouts.{commit_partition_reply};
    ghost use Rattle.kb_over_limit.specs.Tally.{noted};

    ghost codec = { commit_partition_reply };

    ghost tallied = { λ e. noted e.error_code };

    fn tally(cursor: &mut Cursor<'a>, tally: &mut Tally) -> Result<(), WireFault> {
        let entry = committed(cursor)?;
        tally.note(&entry.error_code);
        Ok(())
    }
}

impl<'a> Coded<'a> for CreateTopicReply<'a> {
    ghost use Rattle.kb_api_data.specs.Layouts.{create_topic_reply};
    ghost use Rattle.kb_over_limit.specs.Tally.{noted};

    ghost codec = { create_topic_reply };

    ghost tallied = { λ e. noted e.error_code };

    fn tally(cursor: &mut Cursor<'a>, tally: &mut Tally) -> Result<(), WireFault> {
        let entry = created(cursor)?;
        tally.note(&entry.error_code);
        Ok(())
    }
}

impl<'a> Coded<'a> for CreateTopicReplyV1<'a> {
    ghost use Rattle.kb_api_data.specs.Layouts.{create_topic_reply_v1};
    ghost use Rattle.kb_over_limit.specs.Tally.{noted};

    ghost codec = { create_topic_reply_v1 };

    ghost tallied = { λ e. noted e.error_code };

    fn tally(cursor: &mut Cursor<'a>, tally: &mut Tally) -> Result<(), WireFault> {
        let entry = created_v1(cursor)?;
        tally.note(&entry.error_code);
        Ok(())
    }
}

impl<'a> Coded<'a> for ProduceTopicReply<'a> {
    ghost use Rattle.kb_api_data.specs.Layouts.{produce_topic_reply};
    ghost use Rattle.kb_over_limit.specs.Over.{in_produced};

    ghost codec = { produce_topic_reply };

    ghost tallied = { in_produced };

    #[tactic(auto, unfolding(kb_api_data::specs::Layouts::produce_topic_reply))]
    fn tally(cursor: &mut Cursor<'a>, tally: &mut Tally) -> Result<(), WireFault> {
        cursor.string()?;
        tally_each::<ProducePartitionReply>(cursor, tally)
    }
}

impl<'a> Coded<'a> for ProduceTopicReplyV5<'a> {
    ghost use Rattle.kb_api_data.specs.ProduceV5.{produce_topic_reply_v5};
    ghost use Rattle.kb_over_limit.specs.Over.{in_produced_v5};

    ghost codec = { produce_topic_reply_v5 };

    ghost tallied = { in_produced_v5 };

    #[tactic(auto, unfolding(kb_api_data::specs::ProduceV5::produce_topic_reply_v5))]
    fn tally(cursor: &mut Cursor<'a>, tally: &mut Tally) -> Result<(), WireFault> {
        cursor.string()?;
        tally_each::<ProducePartitionReplyV5>(cursor, tally)
    }
}

impl<'a> Coded<'a> for CommitTopicReply<'a> {
    ghost use Rattle.kb_api_group.specs.Layouts.{commit_topic_reply};
    ghost use Rattle.kb_over_limit.specs.Over.{in_committed};

    ghost codec = { commit_topic_reply };

    ghost tallied = { in_committed };

    #[tactic(auto, unfolding(kb_api_group::specs::Layouts::commit_topic_reply))]
    fn tally(cursor: &mut Cursor<'a>, tally: &mut Tally) -> Result<(), WireFault> {
        cursor.string()?;
        tally_each::<CommitPartitionReply>(cursor, tally)
    }
}
