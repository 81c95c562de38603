//! InitProducerId: a producer asks for an id.
ghost use Rattle.std.specs.Prelude.{◌≡◌, ◌++◌, pos, OnErr, OnOk};
ghost use Rattle.kb_api_data.specs.Layouts.{init_producer_id_reply};
ghost use Rattle.kb_api_data.specs.declared.init_producer_id.InitProducerIdReply.{InitProducerIdReply};
ghost use Rattle.kb_tenant_state.specs.Scene.{WhereHonest};
ghost use Rattle.kb_tenant.specs.InitProducerId.{id_refused, init_producer_id};
ghost use Rattle.kb_tenant.specs.Told.{CatalogFailed, IsFaultOf, IsIssueCut, IsIssueTold, IsTold};
ghost use Rattle.kb_tenant_state.specs.Parts.{scene};
ghost use Rattle.kb_tenant_state.specs.Steps.{IsStep, Meets};
ghost use Rattle.kb_tenant_state.specs.Told.{IsCatalogWant, IsDone};

use kb_api_data::{InitProducerIdReply, InitProducerIdRequest};
use kb_log::{PartitionLog, Shelf};
use kb_store::Store;
use kb_tenant_state::Parts;
use kb_wire::{ErrorCode, Layout, Sink};
use std::alloc::AllocError;

fn refused(error_code: i16) -> InitProducerIdReply
    ensures { result ≡ id_refused error_code }
{
    InitProducerIdReply {
        throttle_time_ms: 0,
        error_code,
        producer_id: -1,
        producer_epoch: -1,
    }
}

/// Gives an id out, or says why not.
fn give_id<L: PartitionLog + Drop, S: Store>(
    parts: &mut Parts<L>,
    shelf: &mut Shelf<S>,
    request: &InitProducerIdRequest<'_>,
) -> InitProducerIdReply
    requires sound { (scene L.log S.disk parts.old shelf.old).sound }
    ensures step { IsStep (scene L.log S.disk parts.old shelf.old) (scene L.log S.disk parts.new shelf.new) }
    ensures meets { let a = scene L.log S.disk parts.old shelf.old in let b = scene L.log S.disk parts.new shelf.new in
        Meets a b ((b.state.world, result) ≡ init_producer_id a.state.world request.now) }
    ensures told { let a = scene L.log S.disk parts.old shelf.old in let b = scene L.log S.disk parts.new shelf.new in
        IsTold a b ((b.state.world, result) ≡ init_producer_id a.state.world request.now)
        (IsFaultOf (IsCatalogWant a b) result.error_code × (result ≡ id_refused result.error_code)) }
    // An id that is answered with no error was given out, whatever else was refused.
    ensures acknowledged { let a = scene L.log S.disk parts.old shelf.old in let b = scene L.log S.disk parts.new shelf.new in
        result.error_code ≡ pos 0 → IsDone a b ((b.state.world, result) ≡ init_producer_id a.state.world request.now) }
{
    if request.transactional_id.is_some() {
        return refused(ErrorCode::InvalidRequest.code());
    }
    match parts.issue(shelf) {
        Ok(producer_id) => InitProducerIdReply {
            throttle_time_ms: 0,
            error_code: ErrorCode::None.code(),
            producer_id,
            producer_epoch: 0,
        },
        Err(fault) => refused(fault.code()),
    }
}

/// Serves InitProducerId: writes the reply behind what the sink has.
///
/// The id is given out before the reply is written, so an `Err`, which is want of memory for the reply, loses it.
#[tactic(auto, unfolding(kb_api_data::specs::Layouts::init_producer_id_reply, kb_wire::specs::Codec::int))]
pub fn init_producer_id<L: PartitionLog + Drop, S: Store>(
    parts: &mut Parts<L>,
    shelf: &mut Shelf<S>,
    request: &InitProducerIdRequest<'_>,
    sink: &mut Sink,
) -> Result<(), AllocError>
    requires sound { (scene L.log S.disk parts.old shelf.old).sound }
    ensures step { IsStep (scene L.log S.disk parts.old shelf.old) (scene L.log S.disk parts.new shelf.new) }
    ensures meets { let a = scene L.log S.disk parts.old shelf.old in let b = scene L.log S.disk parts.new shelf.new in
        OnOk result (Meets a b (let r = init_producer_id a.state.world request.now in
        (b.state.world ≡ r.0) × (sink.new.bytes ≡ sink.old.bytes ++ init_producer_id_reply.written r.1))) }
    // An id that is answered with no error was given out, whatever else was refused.
    ensures told { OnOk result (let a = scene L.log S.disk parts.old shelf.old in let b = scene L.log S.disk parts.new shelf.new in
        WhereHonest a b ((reply : InitProducerIdReply) × ((sink.new.bytes ≡ sink.old.bytes ++ init_producer_id_reply.written reply)
        × IsIssueTold (CatalogFailed a b) a.state.world request.now b.state.world reply))) }
    // On an `Err` one id was given out at most.
    ensures cut { OnErr result (let a = scene L.log S.disk parts.old shelf.old in let b = scene L.log S.disk parts.new shelf.new in
        WhereHonest a b (IsIssueCut a.state.world request.now b.state.world)) }
{
    give_id(parts, shelf, request).write(sink)
}
