//! The turn of one connection, beside the tenants.

ghost use Rattle.kb_isolation_spec.specs.Greeting.{for_tenant, node_of};
ghost use Rattle.kb_wire.specs.declared.clock.TheConstants.{MAX_CLOCK};
ghost use Rattle.std.specs.Prelude.{◌≡◌, ◌≢◌, ◌<◌, ◌≤◌, ◌⊎◌, ℕ, ℤ, List, length, OnOk, OnErr, IfOk, Ok, None, true};
ghost use Rattle.std.specs.Prelude.{false};
ghost use Rattle.std.specs.FinMap as fin;
ghost use Rattle.kb_tenant_api.specs.Hosted.{kept_of};
ghost use Rattle.kb_tenant_api.specs.Turns.{IsTurn, IsMet};
ghost use Rattle.kb_tenant_api.specs.Replies.{Reaction, IsAnswer};
ghost use Rattle.kb_tenant_api.specs.declared.answer.Answer.TheVariants as any;
ghost use Rattle.kb_tenant.specs.Replies as plain;
ghost use Rattle.kb_tenant.specs.Told.{FailedBy};
ghost use Rattle.kb_isolation_spec.specs.declared.head.Head.{Head};
ghost use Rattle.kb_isolation_spec.specs.declared.shut.Shut.TheVariants as causes;
ghost use Rattle.kb_isolation_spec.specs.Session.{BoundTo, shut_down, can, in_front};
ghost use Rattle.kb_isolation_spec.specs.Machine.{after_reaction, after_turn, kept_by_turn};
ghost use Rattle.kb_isolation_spec.specs.Broker.{InRange};
ghost use Rattle.kb_isolation_spec.specs.Tenant.{reaction_to, kept_after, is_overdue, ready};
ghost use Rattle.kb_isolation_spec.specs.Turned.{is_looked_for};
ghost use Rattle.kb_tenant_state.specs.declared.topic_partition.TopicPartition.{TopicPartition};
ghost use Rattle.kb_tenants.specs.Counts.{AreSameCounts};
ghost use Rattle.kb_tenants.specs.Tenants.{commands_of, shelf_is_honest, IsCatalogFull};
ghost use Rattle.kb_connection.specs.Fronts.{is_tenants_at, IsAsked};
ghost use Rattle.kb_connection.specs.View.{awaited_of, wait_of, with_session, without_front};
ghost use Rattle.kb_broker.specs.Hosts.{tenants_in, AreHosted, AreLater};
ghost use Rattle.kb_tenant_api.specs.Waiters.{AreServed, IsWaitTold};
ghost use Rattle.kb_broker.specs.Places.{IsSpent, IsTakenAt, IsTurnAt, IsLookedAt, IsLookAnswer, IsMemberTurnAt, IsWaitTurnAt};
ghost use Rattle.kb_broker.specs.Places.{TellsAwaited, IsPutOut, IsToldAt, IsToldAgain, IsTrueAnswer};
ghost use Rattle.kb_broker.specs.Parked.{parked_for, until_of, deadline_at, IsKeyedAt, IsOwnedAt, IsAskedOn, IsAskedOnAt, IsTouchedBy};
ghost use Rattle.kb_broker.specs.Parked.{IsTouchedTurnBy, AreWaitingFor, IsConcern, IsKnownOrCounted, IsLeftBy, IsOwnTo};
ghost use Rattle.kb_broker.specs.Parked.{IsWhose};

use crate::parking::Parking;
use kb_connection::{Awaited, Connection, Phase, Setup, Waiting};
use kb_isolation_spec::{Shut, Whom};
use kb_log::PartitionLog;
use kb_store::Store;
use kb_tenant::{Request, Wait};
use kb_tenant_api::Answer;
use kb_tenant_state::TopicPartition;
use kb_tenants::{Outcome, Tenants};
use std::alloc::{AllocError, Global};

/// What a turn of a tenant's connection touched of what requests wait for.
#[derive(Drop)]
pub enum Touched {
    /// These partitions, and no group.
    Partitions(Vec<TopicPartition>),
    /// Groups, which answered requests that waited for them, and no partition.
    Groups,
    /// That is not known: something was refused to the tenant.
    Unknown,
}

/// Whose waiting requests may be ready after a turn, and are to be looked at again.
#[derive(Drop)]
pub enum Concerned {
    /// Nobody's: nobody waits for what was touched, and no other connection has changed.
    Nobody,
    /// Of a tenant those of these connections. The one that took the turn stands among them.
    These(usize, Vec<u64>),
    /// All of a tenant.
    All(usize),
}

/// Serves what stands in front of a connection that can take a turn, and answers whose waiting requests may be ready after it. If it
/// waits then, it is parked. Where memory is refused the connection is shut.
///
/// The tenants change as by a call for the connection's tenant, or not where it still greets.
pub fn take_turn<L: PartitionLog + Drop, S: Store>(
    alloc: Global,
    setup: &Setup,
    tenants: &mut Tenants<L, S>,
    parking: &mut Parking,
    clock: u64,
    connection: &mut Connection,
) -> Result<Concerned, AllocError>
    requires hosted { AreHosted L.log S.disk tenants.old }
    requires clock { clock ≤ MAX_CLOCK }
    requires tenant { InRange (length (tenants_in L.log S.disk tenants.old)) connection.old.session.stage }
    requires able { can connection.old.session ≡ true }
    requires free { fin.get parking.old connection.old.number ≡ None }
    ensures hosted { AreHosted L.log S.disk tenants.new }
    ensures later { AreLater L.log S.disk tenants.old tenants.new }
    ensures turn { IsTurnAt (shelf_is_honest S.disk tenants.new) connection.old.session.stage (tenants_in L.log S.disk tenants.old)
        (tenants_in L.log S.disk tenants.new) }
    ensures number { connection.new.number ≡ connection.old.number }
    ensures spent { IsSpent connection.old.session connection.new.session }
    ensures parked { (k : ℕ) → k ≢ connection.old.number → fin.get parking.new k ≡ fin.get parking.old k }
    ensures dated { until_of (fin.get parking.new connection.old.number) ≡ deadline_at connection.new.session.stage }
    ensures owned { IsOwnedAt connection.new.session.stage (fin.get parking.new connection.old.number) }
    ensures keyed { shelf_is_honest S.disk tenants.new
        → IsKeyedAt (tenants_in L.log S.disk tenants.new) connection.old.number connection.new.session.stage
        (fin.get parking.new connection.old.number) }
    ensures asked { shelf_is_honest S.disk tenants.new
        → IsAskedOnAt connection.old.session.stage (tenants_in L.log S.disk tenants.old) (tenants_in L.log S.disk tenants.new) }
    ensures ok { OnOk result (IsTakenAt (shelf_is_honest S.disk tenants.new) setup.now clock connection.old.number
        connection.old.session.stage (tenants_in L.log S.disk tenants.old)
        (tenants_in L.log S.disk tenants.new) connection.old.session connection.new.session) }
    // Whatever was refused, what is put out for a tenant's request is the truth, and all else is as defined, or the connection is shut.
    ensures told { shelf_is_honest S.disk tenants.new → IsToldAt
        (FailedBy (S.disk tenants.old.shelf.store).failures (S.disk tenants.new.shelf.store).failures tenants.new.shelf.next)
        (IsCatalogFull L.log tenants.new) setup.now clock connection.old.number connection.old.session.stage
        (tenants_in L.log S.disk tenants.old) (tenants_in L.log S.disk tenants.new) connection.old.session connection.new.session }
    ensures tenant { IfOk result (λ c. IsWhose c connection.old.session.stage) }
    ensures includes_itself { IfOk result (λ c. IsOwnTo c connection.old.number) }
    ensures remaining { shelf_is_honest S.disk tenants.new
        → IfOk result (λ c. IsLeftBy c setup.now clock connection.old.session.stage connection.old.number parking.old
        (tenants_in L.log S.disk tenants.old) (tenants_in L.log S.disk tenants.new) connection.old.session connection.new.session) }
    ensures waits { IsWaitTurnAt connection.old.number connection.old.session.stage (tenants_in L.log S.disk tenants.old)
        (tenants_in L.log S.disk tenants.new) }
    ensures member { OnOk result (IsMemberTurnAt connection.old.number connection.old.session.stage (tenants_in L.log S.disk tenants.old)
        (tenants_in L.log S.disk tenants.new) connection.new.session.stage) }
    ensures err { OnErr result (connection.new ≡ with_session connection.old (shut_down causes.Memory connection.old.session)) }
{
    match connection.phase() {
        Phase::Greets(greeting) => {
            connection.greet(alloc, setup, greeting)?;
            Ok(Concerned::Nobody)
        }
        Phase::Bound(tenant) => {
            let touched = serve_bound(alloc, setup, tenants, parking, clock, tenant, connection)?;
            let number = connection.number();
            Ok(whom_it_concerns(alloc, tenants, parking, tenant, number, touched))
        }
    }
}

/// Whose waiting requests may be ready after a turn of a tenant that touched that.
///
/// Where the list of those cannot be kept, a refusal is counted for the tenant, and all of it are looked at. What the tenants keep
/// stays.
fn whom_it_concerns<L: PartitionLog + Drop, S: Store>(
    alloc: Global,
    tenants: &mut Tenants<L, S>,
    parking: &Parking,
    tenant: usize,
    number: u64,
    touched: Touched,
) -> Concerned
    requires hosted { AreHosted L.log S.disk tenants.old }
    requires tenant { tenant < length (tenants_in L.log S.disk tenants.old) }
    ensures hosted { AreHosted L.log S.disk tenants.new }
    ensures concern { IsConcern result tenant number (tenants_in L.log S.disk tenants.old) parking.now touched }
    ensures counted { IsKnownOrCounted result tenant (tenants_in L.log S.disk tenants.old) (tenants_in L.log S.disk tenants.new) }
    ensures turn { IsTurn tenant (Unit {0}) (tenants_in L.log S.disk tenants.old) (tenants_in L.log S.disk tenants.new) }
    ensures stays { (t : ℕ) → kept_of (tenants_in L.log S.disk tenants.new) t ≡ kept_of (tenants_in L.log S.disk tenants.old) t }
    ensures counts { AreSameCounts tenants.old tenants.new }
    ensures commands { (t : ℕ) → commands_of L.log tenants.new t ≡ commands_of L.log tenants.old t }
    ensures shelf { tenants.new.shelf ≡ tenants.old.shelf }
    ensures strays { tenants.new.strays ≡ tenants.old.strays }
{
    if let Touched::Partitions(places) = &touched {
        if places.is_empty() {
            return Concerned::Nobody;
        }
    }
    match those_concerned(alloc, tenants, parking, tenant, number, &touched) {
        Ok(concerned) => concerned,
        Err(_) => {
            tenants.refuse(tenant); // the list could not be kept
            Concerned::All(tenant)
        }
    }
}

/// The connections that wait for one of these partitions of the tenant.
///
/// As long as nothing was ever refused to the tenant the queue has each fetch under what it asks; else all of the tenant that wait stand
/// in the list.
fn who_waits_for<L: PartitionLog + Drop, S: Store>(
    alloc: Global,
    tenants: &Tenants<L, S>,
    parking: &Parking,
    tenant: usize,
    places: &[TopicPartition],
) -> Result<Vec<u64>, AllocError>
    requires { tenant < length (tenants_in L.log S.disk tenants.now) }
    ensures { IfOk result (λ ns. AreWaitingFor tenant (tenants_in L.log S.disk tenants.now) parking.now places.now ns.items) }
{
    if tenants.refusals(tenant) == 0 {
        parking.touched(alloc, tenant, places)
    } else {
        parking.of_tenant(alloc, tenant)
    }
}

/// The connections that wait for one of the tenant's partitions that were touched, or that its groups answered, and that of the number
/// behind them. Where it is not known what was touched all of the tenant that wait stand in the list.
///
/// Where nobody waits for the partitions there is no list, and no memory is asked for.
fn those_concerned<L: PartitionLog + Drop, S: Store>(
    alloc: Global,
    tenants: &Tenants<L, S>,
    parking: &Parking,
    tenant: usize,
    number: u64,
    touched: &Touched,
) -> Result<Concerned, AllocError>
    requires { tenant < length (tenants_in L.log S.disk tenants.now) }
    ensures concern { IfOk result (λ c. IsConcern c tenant number (tenants_in L.log S.disk tenants.now) parking.now touched.now) }
    ensures known { IfOk result (λ c. IsKnownOrCounted c tenant (tenants_in L.log S.disk tenants.now)
        (tenants_in L.log S.disk tenants.now)) }
{
    let mut numbers = match touched {
        Touched::Groups => tenants.answered(alloc, tenant)?,
        Touched::Partitions(places) => {
            let waiting = who_waits_for(alloc, tenants, parking, tenant, places)?;
            if waiting.is_empty() {
                return Ok(Concerned::Nobody);
            }
            waiting
        }
        Touched::Unknown => parking.of_tenant(alloc, tenant)?,
    };
    numbers.push(number)?;
    Ok(Concerned::These(tenant, numbers))
}

/// Serves what stands in front of a connection that is bound to a tenant, and answers what was touched. If it waits then, it is
/// parked.
fn serve_bound<L: PartitionLog + Drop, S: Store>(
    alloc: Global,
    setup: &Setup,
    tenants: &mut Tenants<L, S>,
    parking: &mut Parking,
    clock: u64,
    tenant: usize,
    connection: &mut Connection,
) -> Result<Touched, AllocError>
    requires hosted { AreHosted L.log S.disk tenants.old }
    requires clock { clock ≤ MAX_CLOCK }
    requires tenant { tenant < length (tenants_in L.log S.disk tenants.old) }
    requires bound { connection.old.session.stage ≡ BoundTo tenant None }
    requires able { can connection.old.session ≡ true }
    requires free { fin.get parking.old connection.old.number ≡ None }
    ensures hosted { AreHosted L.log S.disk tenants.new }
    ensures later { AreLater L.log S.disk tenants.old tenants.new }
    ensures turn { IsTurn tenant (shelf_is_honest S.disk tenants.new) (tenants_in L.log S.disk tenants.old)
        (tenants_in L.log S.disk tenants.new) }
    ensures number { connection.new.number ≡ connection.old.number }
    ensures spent { IsSpent connection.old.session connection.new.session }
    ensures parked { (k : ℕ) → k ≢ connection.old.number → fin.get parking.new k ≡ fin.get parking.old k }
    ensures dated { until_of (fin.get parking.new connection.old.number) ≡ deadline_at connection.new.session.stage }
    ensures owned { IsOwnedAt connection.new.session.stage (fin.get parking.new connection.old.number) }
    ensures keyed { shelf_is_honest S.disk tenants.new
        → IsKeyedAt (tenants_in L.log S.disk tenants.new) connection.old.number connection.new.session.stage
        (fin.get parking.new connection.old.number) }
    ensures asked { shelf_is_honest S.disk tenants.new
        → IsAskedOn tenant (tenants_in L.log S.disk tenants.old) (tenants_in L.log S.disk tenants.new) }
    ensures ok { OnOk result (IsMet tenant (shelf_is_honest S.disk tenants.new) (tenants_in L.log S.disk tenants.old)
        (tenants_in L.log S.disk tenants.new)
        (λ k l. let own = for_tenant setup.now tenant in
        (connection.new.session ≡ after_turn own k clock connection.old.number connection.old.session)
        × (l ≡ kept_by_turn own k clock connection.old.number (in_front connection.old.session)))) }
    ensures told { shelf_is_honest S.disk tenants.new → IsToldAt
        (FailedBy (S.disk tenants.old.shelf.store).failures (S.disk tenants.new.shelf.store).failures tenants.new.shelf.next)
        (IsCatalogFull L.log tenants.new) setup.now clock connection.old.number (BoundTo tenant None)
        (tenants_in L.log S.disk tenants.old) (tenants_in L.log S.disk tenants.new) connection.old.session connection.new.session }
    ensures touched { IfOk result (λ touched.
        shelf_is_honest S.disk tenants.new → IsTouchedTurnBy touched setup.now tenant clock connection.old.number
        (tenants_in L.log S.disk tenants.old) (tenants_in L.log S.disk tenants.new) connection.old.session connection.new.session) }
    ensures waits { IsWaitTurnAt connection.old.number (BoundTo tenant None) (tenants_in L.log S.disk tenants.old)
        (tenants_in L.log S.disk tenants.new) }
    ensures member { OnOk result (IsMemberTurnAt connection.old.number (BoundTo tenant None) (tenants_in L.log S.disk tenants.old)
        (tenants_in L.log S.disk tenants.new) connection.new.session.stage) }
    ensures err { OnErr result (connection.new ≡ with_session connection.old (shut_down causes.Memory connection.old.session)) }
{
    let (answer, touched) = match connection.request(alloc, setup) {
        Ok(Some(request)) => ask(alloc, setup, tenants, clock, tenant, &request),
        Ok(None) => {
            connection.serve(alloc, setup)?;
            return Ok(Touched::Partitions(Vec::new(alloc)));
        }
        Err(e) => {
            connection.shut_down(Shut::Memory);
            return Err(e);
        }
    };
    hand_over(alloc, setup, parking, tenant, connection, answer)?;
    Ok(touched)
}

/// Gives a tenant's answer to the connection that asked, and parks it where it is to wait. Where memory is refused it is shut.
fn hand_over(
    alloc: Global,
    setup: &Setup,
    parking: &mut Parking,
    tenant: usize,
    connection: &mut Connection,
    answer: Answer,
) -> Result<(), AllocError>
    requires bound { connection.old.session.stage ≡ BoundTo tenant None }
    requires asks { is_tenants_at setup.now.versions (in_front connection.old.session) ≡ true }
    requires free { fin.get parking.old connection.old.number ≡ None }
    ensures number { connection.new.number ≡ connection.old.number }
    ensures spent { IsSpent connection.old.session connection.new.session }
    ensures parked { (k : ℕ) → k ≢ connection.old.number → fin.get parking.new k ≡ fin.get parking.old k }
    ensures ok { (key version : ℤ) (head : Head) (body : List ℕ) (reaction : Reaction)
        → IsAsked setup.now connection.old.session key version head body → IsAnswer head.correlation_id reaction answer → OnOk result
        (connection.new ≡ with_session connection.old (after_reaction reaction head (without_front connection.old.session))) }
    ensures output { (key version : ℤ) (head : Head) (body : List ℕ) → IsAsked setup.now connection.old.session key version head body
        → IsPutOut head answer connection.old.session connection.new.session }
    ensures dated { (key version : ℤ) (head : Head) (body : List ℕ) → IsAsked setup.now connection.old.session key version head body
        → until_of (fin.get parking.new connection.old.number) ≡ deadline_at connection.new.session.stage }
    ensures owned { IsOwnedAt connection.new.session.stage (fin.get parking.new connection.old.number) }
    ensures keyed { OnOk result (fin.get parking.new connection.old.number ≡ parked_for tenant answer) }
    ensures err { OnErr result (connection.new ≡ with_session connection.old (shut_down causes.Memory connection.old.session)) }
{
    let number = connection.number();
    if park(alloc, parking, tenant, number, &answer).is_err() {
        connection.shut_down(Shut::Memory);
        return Err(AllocError);
    }
    let given = connection.answer(answer);
    if given.is_err() {
        parking.forget(number);
    }
    given
}

/// Parks a connection that is not parked, where the answer to its request is to wait: until the fetch's deadline under the partitions
/// that it asks, or for its group, without a deadline. After an `Err` nothing has changed.
fn park(
    alloc: Global,
    parking: &mut Parking,
    tenant: usize,
    number: u64,
    answer: &Answer,
) -> Result<(), AllocError>
    requires { fin.get parking.old number ≡ None }
    ensures parked { OnOk result (fin.get parking.new number ≡ parked_for tenant answer.now) }
    ensures others { (k : ℕ) → k ≢ number → fin.get parking.new k ≡ fin.get parking.old k }
    ensures refused { OnErr result (parking.new ≡ parking.old) }
{
    match answer {
        Answer::Plain(plain) => park_fetch(alloc, parking, tenant, number, plain),
        Answer::Rebalance => parking.park(alloc, number, tenant, u64::MAX, &[]),
    }
}

/// Parks a connection that is not parked, where the answer to its fetch is to wait. After an `Err` nothing has changed.
fn park_fetch(
    alloc: Global,
    parking: &mut Parking,
    tenant: usize,
    number: u64,
    answer: &kb_tenant::Answer,
) -> Result<(), AllocError>
    requires { fin.get parking.old number ≡ None }
    ensures parked { OnOk result (fin.get parking.new number ≡ parked_for tenant (any.Plain answer.now)) }
    ensures others { (k : ℕ) → k ≢ number → fin.get parking.new k ≡ fin.get parking.old k }
    ensures refused { OnErr result (parking.new ≡ parking.old) }
{
    match answer {
        kb_tenant::Answer::Wait { deadline, keys, .. } => {
            parking.park(alloc, number, tenant, *deadline, keys)
        }
        _ => Ok(()),
    }
}

/// A tenant's answer to its request, and what the request touched.
fn ask<L: PartitionLog + Drop, S: Store>(
    alloc: Global,
    setup: &Setup,
    tenants: &mut Tenants<L, S>,
    clock: u64,
    tenant: usize,
    request: &Request<'_>,
) -> (Answer, Touched)
    requires hosted { AreHosted L.log S.disk tenants.old }
    requires clock { clock ≤ MAX_CLOCK }
    requires tenant { tenant < length (tenants_in L.log S.disk tenants.old) }
    ensures hosted { AreHosted L.log S.disk tenants.new }
    ensures later { AreLater L.log S.disk tenants.old tenants.new }
    ensures turn { IsTurn tenant (shelf_is_honest S.disk tenants.new) (tenants_in L.log S.disk tenants.old)
        (tenants_in L.log S.disk tenants.new) }
    ensures meets { IsMet tenant (shelf_is_honest S.disk tenants.new) (tenants_in L.log S.disk tenants.old)
        (tenants_in L.log S.disk tenants.new)
        (λ k l. let node = node_of setup.now tenant in
        (l ≡ kept_after node k clock request.now.connection request.now.api_key request.now.api_version request.now.body.now)
        × IsAnswer request.now.correlation_id (reaction_to node k clock request.now.connection request.now.api_key
        request.now.api_version request.now.body.now) result.0) }
    ensures truthful { shelf_is_honest S.disk tenants.new → (touched : List TopicPartition) × IsTrueAnswer
        (FailedBy (S.disk tenants.old.shelf.store).failures (S.disk tenants.new.shelf.store).failures tenants.new.shelf.next)
        (IsCatalogFull L.log tenants.new tenant) (node_of setup.now tenant) clock request.now.connection request.now.api_key
        request.now.api_version request.now.correlation_id request.now.body.now (kept_of (tenants_in L.log S.disk tenants.old) tenant)
        (kept_of (tenants_in L.log S.disk tenants.new) tenant) touched result.0 }
    ensures asked { shelf_is_honest S.disk tenants.new
        → IsAskedOn tenant (tenants_in L.log S.disk tenants.old) (tenants_in L.log S.disk tenants.new) }
    ensures touched { shelf_is_honest S.disk tenants.new
        → IsTouchedBy result.1 tenant clock (tenants_in L.log S.disk tenants.old) (tenants_in L.log S.disk tenants.new) }
    ensures waits { AreServed request.now.connection true (kept_of (tenants_in L.log S.disk tenants.old) tenant).groups
        (kept_of (tenants_in L.log S.disk tenants.new) tenant).groups }
    ensures told { IsWaitTold request.now.connection (kept_of (tenants_in L.log S.disk tenants.old) tenant).groups result.0
        (kept_of (tenants_in L.log S.disk tenants.new) tenant).groups }
{
    let node = setup.node(tenant);
    let Outcome {
        answer,
        touched,
        released,
        refused,
    } = tenants.serve(alloc, tenant, clock, &node, request);
    if refused {
        (answer, Touched::Unknown)
    } else if released {
        (answer, Touched::Groups)
    } else {
        (answer, Touched::Partitions(touched))
    }
}

/// Looks at a connection again, where it waits for what is looked for. A request that is ready is answered. Where memory or the store
/// refused something, which is counted, its reply says so; or the connection is shut.
pub fn look_again<L: PartitionLog + Drop, S: Store>(
    alloc: Global,
    tenants: &mut Tenants<L, S>,
    clock: u64,
    whom: Whom,
    connection: &mut Connection,
)
    requires hosted { AreHosted L.log S.disk tenants.old }
    requires tenant { InRange (length (tenants_in L.log S.disk tenants.old)) connection.old.session.stage }
    ensures hosted { AreHosted L.log S.disk tenants.new }
    ensures later { AreLater L.log S.disk tenants.old tenants.new }
    ensures looked { IsLookedAt (shelf_is_honest S.disk tenants.new) whom clock connection.old.session.stage
        (tenants_in L.log S.disk tenants.old) (tenants_in L.log S.disk tenants.new) connection.old connection.new }
    // Whatever was refused, what is put out for a fetch that waited is the truth, and for a member what its group told it.
    ensures told { shelf_is_honest S.disk tenants.new → IsToldAgain
        (FailedBy (S.disk tenants.old.shelf.store).failures (S.disk tenants.new.shelf.store).failures tenants.new.shelf.next)
        clock connection.old.number connection.old.session.stage (tenants_in L.log S.disk tenants.old) connection.old.session
        connection.new.session }
    ensures waits { (connection.new.session.stage ≡ connection.old.session.stage) ⊎ (deadline_at connection.new.session.stage ≡ None) }
{
    let Some((tenant, waiting)) = connection.waiting() else {
        return;
    };
    if !is_looked_for(whom, clock, tenant, waiting) {
        return;
    }
    let number = connection.number();
    let answer = ask_again(alloc, tenants, clock, tenant, number, waiting);
    if connection.wake(answer).is_err() {
        tenants.refuse(tenant); // its reply could not be kept
    }
}

/// What the request that waits on the connection of a number comes to now: `NoReply` says that it still waits. What the tenants keep
/// stays, also where something was refused; and then a fetch waits no longer, and its reply tells what was refused.
fn ask_again<L: PartitionLog + Drop, S: Store>(
    alloc: Global,
    tenants: &mut Tenants<L, S>,
    clock: u64,
    tenant: usize,
    number: u64,
    waiting: &Waiting,
) -> kb_tenant::Answer
    requires hosted { AreHosted L.log S.disk tenants.old }
    requires tenant { tenant < length (tenants_in L.log S.disk tenants.old) }
    ensures hosted { AreHosted L.log S.disk tenants.new }
    ensures later { AreLater L.log S.disk tenants.old tenants.new }
    ensures turn { IsTurn tenant (shelf_is_honest S.disk tenants.new) (tenants_in L.log S.disk tenants.old)
        (tenants_in L.log S.disk tenants.new) }
    ensures meets { IsMet tenant (shelf_is_honest S.disk tenants.new) (tenants_in L.log S.disk tenants.old)
        (tenants_in L.log S.disk tenants.new)
        (λ k l. (l ≡ k) × plain.IsAnswer waiting.now.head.correlation_id (ready k clock number (wait_of waiting.now)) result) }
    ensures stays { shelf_is_honest S.disk tenants.new → (t : ℕ)
        → kept_of (tenants_in L.log S.disk tenants.new) t ≡ kept_of (tenants_in L.log S.disk tenants.old) t }
    ensures answers { shelf_is_honest S.disk tenants.new → let ts = tenants_in L.log S.disk tenants.old in
        IsLookAnswer tenant clock number ts (tenants_in L.log S.disk tenants.new) (wait_of waiting.now) result }
    // Whatever was refused, a fetch's reply tells it.
    ensures told { shelf_is_honest S.disk tenants.new
        → TellsAwaited (FailedBy (S.disk tenants.old.shelf.store).failures (S.disk tenants.new.shelf.store).failures tenants.new.shelf.next)
        waiting.now.head.correlation_id clock (kept_of (tenants_in L.log S.disk tenants.old) tenant)
        (awaited_of waiting.now.awaited) result }
{
    match &waiting.awaited {
        Awaited::Records { fetch, deadline } => {
            let wait = Wait {
                correlation_id: waiting.head.correlation_id,
                deadline: *deadline,
                fetch,
            };
            tenants.look(alloc, tenant, clock, &wait)
        }
        Awaited::Group => tenants.tell(alloc, tenant, number, waiting.head.correlation_id),
    }
}

/// Whether what waits is looked at.
fn is_looked_for(whom: Whom, clock: u64, tenant: usize, waiting: &Waiting) -> bool
    ensures { result ≡ is_looked_for whom clock tenant (wait_of waiting.now) }
{
    match whom {
        Whom::Tenant(concerned) => tenant == concerned,
        Whom::Due => is_past(clock, &waiting.awaited),
        Whom::All => true,
    }
}

/// Whether a fetch's deadline has come. One that waits for its group has none.
fn is_past(clock: u64, awaited: &Awaited) -> bool
    ensures { result ≡ is_overdue clock (awaited_of awaited.now) }
{
    match awaited {
        Awaited::Records { deadline, .. } => *deadline <= clock,
        Awaited::Group => false,
    }
}
