//! Laws about the definitions, each as the contract of a function with an empty body.
ghost use Rattle.std.specs.Prelude.{◌≡◌, ◌≤ℤ◌, ℕ, ℤ, List, Bool, true, Option, None, FitsSigned};
ghost use Rattle.kb_client.specs.Consumer.{fault_at};
ghost use Rattle.kb_api_group.specs.declared.plain.PlainLogin.{PlainLogin};
ghost use Rattle.kb_client.specs.Sent.{Target};
ghost use Rattle.kb_client.specs.Requests.{plain_message};
ghost use Rattle.kb_client_spec.specs.Receiver.{knows};
ghost use Rattle.kb_client_spec.specs.Partition.{IsLog, end_of_log};
ghost use Rattle.kb_client_spec.specs.Consuming.{IsGiven};
ghost use Rattle.kb_client_spec.specs.Consuming as consuming;
ghost use Rattle.std.specs.Int.{w64};
ghost use Rattle.kb_client_spec.specs.Sending.{Delivery, Event, Runs, IsTyped, IsDelivered, HasNoFault, new_delivery};

/// Whatever happens on the network, the receiver stores the lines that were handed in, in order and each once: at any moment the
/// first of them, and at most one more than are acknowledged. Where the producer has nothing left to do, all are stored.
pub fn lines_are_stored_once()
    ensures { (target : Target) (create : Option ℤ) (users : List PlainLogin) (created : Bool) (next_id : ℕ) (es : List Event)
        (last : Delivery)
        → IsTyped target create → Runs es (new_delivery target create users created next_id) last → IsDelivered last }
{}

/// Where the receiver knows the user with its password, no call answers a fault that stands, whatever happens on the network. A line
/// is refused where it is too long, and any call for want of memory.
pub fn no_fault_with_the_right_login()
    ensures { (target : Target) (create : Option ℤ) (users : List PlainLogin) (created : Bool) (next_id : ℕ) (es : List Event)
        (last : Delivery)
        → IsTyped target create → knows users (plain_message target) ≡ true
        → Runs es (new_delivery target create users created next_id) last
        → HasNoFault es }
{}

/// Whatever is added to a partition and deleted from it, whatever the broker refuses, and whatever happens on the network: a consumer
/// gives the lines of the first records from the asked offset on, in order and each once, and no more than are wanted. It is finished
/// only where it gave as many as are wanted, or each line up to an end that a fetch met.
pub fn lines_are_given_once()
    ensures { (target : Target) (offset : ℤ) (wanted : Option ℕ) (follow : Bool) (users : List PlainLogin) (there : Bool)
        (origin : ℤ) (start : ℤ) (batches : List (List ℕ)) (es : List consuming.Event) (last : consuming.Reading)
        → consuming.IsTyped target → FitsSigned w64 offset → IsLog origin batches
        → consuming.Runs es (consuming.new_reading target offset wanted follow users there origin start batches) last
        → IsGiven offset wanted follow last }
{}

/// Where the broker knows the user with its password, the partition is there, and the asked offset is from its start to its end, no
/// fault stands, whatever is added to the partition and whatever happens on the network. So it is while nothing is deleted and nothing
/// refused.
pub fn no_fault_within_the_partition()
    ensures { (target : Target) (offset : ℤ) (wanted : Option ℕ) (follow : Bool) (users : List PlainLogin) (origin : ℤ) (start : ℤ)
        (batches : List (List ℕ)) (es : List consuming.Event) (last : consuming.Reading)
        → consuming.IsTyped target → FitsSigned w64 offset → IsLog origin batches → start ≤ℤ offset
        → offset ≤ℤ end_of_log origin batches → knows users (plain_message target) ≡ true → consuming.AreCalm es
        → consuming.Runs es (consuming.new_reading target offset wanted follow users true origin start batches) last
        → fault_at last.core.stage ≡ None }
{}
