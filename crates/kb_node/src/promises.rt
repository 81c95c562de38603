//! Laws about many turns, as contracts of functions with empty bodies.

ghost use Rattle.std.specs.Prelude.{◌≡◌, ◌≤◌, ◌++◌, ◌∷◌, ℕ, List, [], IsSome};
ghost use Rattle.kb_isolation_spec.specs.Broker.{Rising};
ghost use Rattle.kb_broker.specs.Hosts.{is_honest};
ghost use Rattle.kb_node.specs.Commits.{Host};
ghost use Rattle.kb_node.specs.Cores.{Seen};
ghost use Rattle.kb_node.specs.Got.{AreIsolated};
ghost use Rattle.kb_node.specs.Known.{lasting};
ghost use Rattle.kb_node.specs.Moves.{GoesWith, IsRunOf, IsRunThrough, IsTurn};
ghost use Rattle.kb_node.specs.Numbers.{IsInOrder};
ghost use Rattle.kb_node.specs.Streams.{AreCarried, AreClientsServed, IsAlone};
ghost use Rattle.kb_node.specs.Traffic.{Along};
ghost use Rattle.kb_node.specs.declared.commits.Commits.{Commits};

use kb_store::Store;
use std::io::{Read, Write};

/// However often an edge is turned, what it does to its broker is one run, whose moments are those that it was given. `Edge::turn` says
/// `IsRunOf` of each turn, and an edge begins where its broker is. What is known of the store at each deed is so with any setting of
/// commits.
pub fn turns_are_a_run<S: Store>()
    ensures { (commits : Commits) (nows : List ℕ) → (from to : Host S)
        → Along (IsRunOf S.disk (lasting S.settled S.disk S.loss commits)) nows from to
        → IsRunThrough S.disk (lasting S.settled S.disk S.loss commits) nows from to }
{}

/// The same, turn by turn, as for a loop: nothing was done yet, and one turn more goes on with the run.
pub fn a_turn_goes_on_with_the_run<S: Store>()
    ensures begun { (commits : Commits) (x : Host S) → IsRunThrough S.disk (lasting S.settled S.disk S.loss commits) [] x x }
    ensures turned { (commits : Commits) (nows : List ℕ) → (now : ℕ) → (from at to : Host S)
        → IsRunThrough S.disk (lasting S.settled S.disk S.loss commits) nows from at
        → IsRunOf S.disk (lasting S.settled S.disk S.loss commits) now at to
        → IsRunThrough S.disk (lasting S.settled S.disk S.loss commits) (nows ++ now ∷ []) from to }
    // What is known of the store stays known, where a refused commit does.
    ensures kept { (old new : Commits) → new.sync ≡ old.sync → (IsSome old.fault → IsSome new.fault) → (nows : List ℕ)
        → (from to : Host S) → IsRunThrough S.disk (lasting S.settled S.disk S.loss old) nows from to
        → IsRunThrough S.disk (lasting S.settled S.disk S.loss new) nows from to }
{}

/// The sockets of an edge stand by rising number of their connections, and no two carry one connection: an edge begins with no socket, and
/// it is so after each move, and each turn, where it was so before. `Edge::turn` says `IsTurn` of each turn.
pub fn sockets_stand_by_number<S: Store, T: Read + Write>()
    ensures begun { (x : Seen S T) → x.sockets ≡ [] → IsInOrder x }
    ensures moved { (commits : Commits) (from to : Seen S T)
        → GoesWith S.disk (lasting S.settled S.disk S.loss commits) T.contents T.remaining from to → IsInOrder from → IsInOrder to }
    ensures turned { (commits : Commits) (now : ℕ) → (from to : Seen S T)
        → IsTurn S.disk (lasting S.settled S.disk S.loss commits) T.contents T.remaining now from to → IsInOrder from → IsInOrder to }
{}

/// Turns keep tenants apart, as a run of the broker does (`Broker::run`): what was taken of a tenant's connections in them is what the
/// machine of that tenant alone writes to them, given the tenant's events and the moments, up to what was not taken. That is so where the
/// store is honest to the end, for a tenant to which nothing was refused, and nothing to a connection that was not bound.
///
/// Whatever was refused, it is what that machine may have had to say that may be refused something at each step (`own`).
pub fn turns_keep_tenants_apart<S: Store>()
    ensures { (commits : Commits) (nows : List ℕ) → (from to : Host S)
        → (run : IsRunThrough S.disk (lasting S.settled S.disk S.loss commits) nows from to)
        → Rising 0 from.broker.state.last from.broker.state.lines → from.broker.state.last ≤ from.tried → is_honest S.disk to.broker
        → AreIsolated run.deeds from.broker.state to.broker.state }
{}

/// However often an edge is turned, each connection is carried by one socket, or by none. What is written to its stream is what was taken
/// of that connection, in order, and what is handed on as that connection's bytes is what was read of the stream, in order. Behind its end
/// nothing is read or written. It is so turn by turn, as for a loop.
pub fn each_connection_has_one_socket<S: Store, T: Read + Write>()
    ensures begun { (commits : Commits) (x : Seen S T) → IsInOrder x
        → AreCarried S.disk (lasting S.settled S.disk S.loss commits) T.contents T.remaining [] x x }
    ensures turned { (commits : Commits) (nows : List ℕ) → (now : ℕ) → (from at to : Seen S T)
        → AreCarried S.disk (lasting S.settled S.disk S.loss commits) T.contents T.remaining nows from at
        → IsTurn S.disk (lasting S.settled S.disk S.loss commits) T.contents T.remaining now at to
        → AreCarried S.disk (lasting S.settled S.disk S.loss commits) T.contents T.remaining (nows ++ now ∷ []) from to }
    ensures all { (commits : Commits) (nows : List ℕ) → (from to : Seen S T)
        → Along (IsTurn S.disk (lasting S.settled S.disk S.loss commits) T.contents T.remaining) nows from to → IsInOrder from
        → AreCarried S.disk (lasting S.settled S.disk S.loss commits) T.contents T.remaining nows from to }
{}

/// Where nobody is connected before, clients are served in turns, however many: what is written to the stream of a connection is what the
/// machine of its tenant alone writes, in order and up to some byte. The premises are those of [`turns_keep_tenants_apart`].
pub fn clients_are_sent_what_machines_write<S: Store, T: Read + Write>()
    ensures { (commits : Commits) (nows : List ℕ) → (from to : Seen S T)
        → Along (IsTurn S.disk (lasting S.settled S.disk S.loss commits) T.contents T.remaining) nows from to → IsAlone from
        → AreClientsServed S.disk (lasting S.settled S.disk S.loss commits) T.contents T.remaining nows from to }
{}
