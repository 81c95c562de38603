//! Laws about the definitions, each as the contract of a function with an empty body.
ghost use Rattle.std.specs.Prelude.{◌≡◌, ◌↔◌, ◌≤◌, ◌<◌, ◌+◌, ◌^◌, ◌++◌, ◌∷◌, ℕ, ℤ, pos, List, [], Bool, true, false, length, max};
ghost use Rattle.std.specs.Prelude.{Ok, Err, Option, Some, None};
ghost use Rattle.std.specs.List.{Contains};
ghost use Rattle.kb_wire.specs.declared.api_key.TheConstants.{DELETE_TOPICS, FETCH, JOIN_GROUP};
ghost use Rattle.kb_isolation_spec.specs.declared.head.Head.{Head};
ghost use Rattle.kb_isolation_spec.specs.declared.login.Login.TheVariants as logins;
ghost use Rattle.kb_isolation_spec.specs.declared.shut.Shut.TheVariants as causes;
ghost use Rattle.kb_isolation_spec.specs.Session.{Session, Stage, Bare, BoundTo, fed, has_member, overruns, replied, shut_down};
ghost use Rattle.kb_isolation_spec.specs.Session.{in_front, unread_limit, without_wait};
ghost use Rattle.kb_api_group.specs.Frames.{Whole};
ghost use Rattle.kb_api_data.specs.declared.fetch.FetchRequest.{FetchRequest};
ghost use Rattle.kb_isolation_spec.specs.Requests.{Another, Authenticate, request};
ghost use Rattle.kb_isolation_spec.specs.Tenant.{Records, Wait, ready};
ghost use Rattle.kb_isolation_spec.specs.Fetches.{AllTurnsGiveBatches, AllWakeWithBatches, EventGivesBatches, FetchesGetBatches};
ghost use Rattle.kb_isolation_spec.specs.Fetches.{GetsBatches, NextGivesBatches, ServesBatches, after_request};
ghost use Rattle.kb_tenant.specs.Batches.{HasSmallLogs};
ghost use Rattle.kb_tenant.specs.Fetch.{asked_fetch, bounded, fetched, fetched_in};
ghost use Rattle.kb_tenant.specs.LimitsKept.{AreLimitsKept, HasOrderedCommits};
ghost use Rattle.kb_tenant.specs.Replies.{Replies, framed};
ghost use Rattle.kb_isolation_spec.specs.Versions.{base_of};
ghost use Rattle.kb_coordinator.specs.Calls.{left};
ghost use Rattle.kb_tenant_api.specs.Hosted.{Kept, passed};
ghost use Rattle.kb_isolation_spec.specs.Greeting.{Setup, failed, for_tenant, greeted, greeted_by, login, node_of};
ghost use Rattle.kb_isolation_spec.specs.Machine.{View, Line, Happening, Opens, Comes, Closes, Moment, Sent, again, all_woken, each_line};
ghost use Rattle.kb_isolation_spec.specs.Machine.{on};
ghost use Rattle.kb_isolation_spec.specs.Machine.{first_able, turn, turns, work, those, those_sent, find_line, after_turn, kept_fed, step};
ghost use Rattle.kb_isolation_spec.specs.Machine.{stepped, leaving, run, by_number, woken};
ghost use Rattle.kb_isolation_spec.specs.Owners.{whose, concerns, purge};
ghost use Rattle.kb_isolation_spec.specs.Broker.{BrokerState, IsCalmFor, IsReady, IsEventRun, IsUnowned, Mine, Rising, alone_unowned};
ghost use Rattle.kb_isolation_spec.specs.Broker.{owned_by};
ghost use Rattle.kb_isolation_spec.specs.Broker.{kept_of_tenant, view_of};
ghost use Rattle.kb_isolation_spec.specs.Greetings.{greeted_alone};
ghost use Rattle.kb_isolation_spec.specs.Isolation.{IsIsolated, StartsAlike, AreAlike, own_events, own_sent};
ghost use Rattle.kb_isolation_spec.specs.Left.{last_world, LeavesWorlds};
ghost use Rattle.kb_isolation_spec.specs.Logins.{HaveLoggedIn};
ghost use Rattle.kb_isolation_spec.specs.RequestLimits.{HaveLimit};
ghost use Rattle.kb_isolation_spec.specs.Alone.{HasToItself};
ghost use Rattle.kb_isolation_spec.specs.Told.{quieted};
ghost use Rattle.kb_isolation_spec.specs.LimitsKept.{IsMachineOf, StaysWithin};

/// Isolation, as a tenant sees it: two runs in which its own events and the moments are the same, in the same order, give its
/// connections the same bytes, and shut the same of them, whatever the others do in either. The tenant has the same before both
/// runs, as on two brokers that were opened with the same settings and that nobody has used, and in neither anything is refused
/// to it or to a connection that is not bound.
pub fn others_change_nothing()
    ensures same { (t : ℕ) (es fs : List Happening) (a after_a b after_b : BrokerState) (got others : List Sent)
        → IsIsolated es a after_a got → IsIsolated fs b after_b others → AreAlike t es fs a after_a b after_b
        → own_sent t fs b others ≡ own_sent t es a got }
    ensures unused { (t : ℕ) (es fs : List Happening) (b : BrokerState) → b.lines ≡ [] → StartsAlike t es fs b b }
{}

/// A tenant gets on a broker that it shares what it gets on one that it has to itself: given the tenant's own events and the moments
/// alone, that broker writes the same bytes to the tenant's connections, and shuts the same of them. It has the same settings, and
/// begins with what the tenant has on the shared one, as a broker does that is newly opened. On neither anything is refused to the
/// tenant or to a connection that is not bound.
pub fn alone_is_the_same()
    ensures same { (t : ℕ) (es : List Happening) (shared after own own_after : BrokerState) (got own_got : List Sent)
        → IsIsolated es shared after got → IsIsolated (own_events t es shared) own own_after own_got → HasToItself t es shared own
        → IsCalmFor t shared after → IsCalmFor t own own_after
        → own_sent t (own_events t es shared) own own_got ≡ own_sent t es shared got }
    ensures owners { (t n : ℕ) (es : List Happening) (shared own : BrokerState) → HasToItself t es shared own
        → owned_by t (own_events t es shared) own n ≡ owned_by t es shared n }
    ensures alike { (t : ℕ) (es : List Happening) (shared after own own_after : BrokerState) → HasToItself t es shared own
        → IsCalmFor t shared after → IsCalmFor t own own_after → AreAlike t es (own_events t es shared) shared after own own_after }
    ensures unused { (t : ℕ) (es : List Happening) (b : BrokerState) → b.lines ≡ [] → HasToItself t es b b }
{}

/// Which connections and events are a tenant's depends on no event of others: where the tenant's own events and the moments are all
/// that comes, the same connections are its own, and so all these events are. They are a run where all events are one.
pub fn own_events_stay_own()
    ensures owners { (t n : ℕ) (es : List Happening) (b : BrokerState) → owned_by t (own_events t es b) b n ≡ owned_by t es b n }
    ensures events { (t : ℕ) (es : List Happening) (b : BrokerState) → own_events t (own_events t es b) b ≡ own_events t es b }
    ensures in_order { (t last : ℕ) (es : List Happening) (b : BrokerState) → IsEventRun last es → IsEventRun last (own_events t es b) }
{}

/// Among a tenant's own events is none of a connection that is not its own.
pub fn own_events_are_of_own_connections()
    ensures opens { (t n : ℕ) (es : List Happening) (b : BrokerState) → Contains (own_events t es b) (Opens n) → owned_by t es b n ≡ true }
    ensures comes { (t n : ℕ) (piece : List ℕ) (es : List Happening) (b : BrokerState)
        → Contains (own_events t es b) (Comes n piece) → owned_by t es b n ≡ true }
    ensures closes { (t n : ℕ) (es : List Happening) (b : BrokerState) → Contains (own_events t es b) (Closes n)
        → owned_by t es b n ≡ true }
{}

/// A run after a run goes on, for a tenant to which nothing is refused in either, where the first left its machine: the output
/// that was taken is gone, and nothing else.
pub fn runs_go_on()
    ensures { (t : ℕ) (mine : ℕ → Bool) (es fs later : List Happening) (a b c : BrokerState) (got more : List Sent)
        → LeavesWorlds es a b got → LeavesWorlds fs b c more → Mine t mine (es ++ (fs ++ later)) a → IsCalmFor t a b → IsCalmFor t b c
        → (those_sent mine more ≡ by_number (run (purge mine fs) (quieted (last_world (purge mine es) (view_of t mine a)))))
        × (view_of t mine c ≡ quieted (last_world (purge mine fs) (quieted (last_world (purge mine es) (view_of t mine a))))) }
{}

/// A connection that is never bound gets what the greeting answers to its own pieces, and changes no world.
pub fn strangers_are_greeted()
    ensures { (n : ℕ) (es : List Happening) (b : BrokerState) → IsReady b → IsEventRun b.last es → IsUnowned n es b
        → by_number (alone_unowned n es b) ≡ greeted_alone n es b }
{}

/// What a machine answers to a fetch, where its connection takes a turn and where it has waited, holds whole batches of the
/// tenant's partitions as they are at that moment, one after the other, from the one that holds the asked offset; or the
/// connection gets no reply. The tenant's logs are within their limits, as `logs_stay_small` (`kb_tenant_api`) says of each that there is.
pub fn fetches_get_whole_batches()
    ensures at_once { (setup : Setup) (kept : Kept) (clock n : ℕ) (s : Session) (frame rest : List ℕ) (version : ℤ) (body : List ℕ)
        (fetch : FetchRequest)
        → HasSmallLogs kept.world → in_front s ≡ Whole frame rest
        → (request setup.versions frame).asked ≡ Another FETCH version body → asked_fetch version body ≡ Ok fetch
        → GetsBatches kept.world version fetch (request setup.versions frame).head (record s { unread = rest })
        (after_turn setup kept clock n s) }
    ensures after_a_wait { (kept : Kept) (clock n tenant : ℕ) (s : Session) (head : Head) (version : ℤ) (body : List ℕ) (deadline : ℕ)
        (limit : Option ℕ) (fetch : FetchRequest)
        → HasSmallLogs kept.world → s.stage
        ≡ BoundTo tenant (Some (record { head = head; awaited = Records version body deadline limit }))
        → asked_fetch version body ≡ Ok fetch
        → GetsBatches kept.world version fetch head (record s { stage = without_wait s.stage }) (woken kept clock n s) }
{}

/// In a whole run of a machine each reply to a fetch, at once or after a wait, holds whole batches of each partition that it answers
/// without an error, as the partition is at that moment, one after the other, from the one that holds the asked offset. The logs of
/// what the tenant keeps are within their limits before the run, and then after it too.
pub fn fetches_get_batches_in_runs()
    ensures run { (es : List Happening) (w : View) → HasSmallLogs w.kept.world → FetchesGetBatches es w }
    ensures later { (es : List Happening) (w : View) → HasSmallLogs w.kept.world → HasSmallLogs (last_world es w).kept.world }
{}

/// What is said of the fetches of an event is said of the very worlds through which the machine's step goes: those of each of its
/// turns, from the world after the piece or the moment on; and in a turn of a bound connection that after its request, whose waits
/// are looked at.
pub fn batches_are_of_each_turn()
    ensures piece { (n : ℕ) (piece : List ℕ) (w : View)
        → let fed_world : View = record w {
          kept = kept_fed piece w.clock n (find_line n w.lines) w.kept;
          lines = each_line (on n (fed piece)) w.lines;
        } in
        (step (Comes n piece) w ≡ turns fed_world) × (EventGivesBatches (Comes n piece) w ↔ AllTurnsGiveBatches fed_world) }
    ensures moment { (now : ℕ) (w : View)
        → let passed_world : View = record w { kept = passed (max w.clock now) w.kept; clock = max w.clock now } in
        (step (Moment now) w ≡ turns (all_woken passed_world))
        × (EventGivesBatches (Moment now) w ↔ (AllWakeWithBatches passed_world × AllTurnsGiveBatches (all_woken passed_world))) }
    ensures turns { (w : View) → (turns w ≡ again turn (work w.lines) w)
        × (AllTurnsGiveBatches w ↔ ((count : ℕ) → NextGivesBatches (again turn count w) (first_able (again turn count w).lines))) }
    ensures request { (w : View) (l : Line) (tenant : ℕ) (wait : Option Wait)
        → first_able w.lines ≡ Some l → l.session.stage ≡ BoundTo tenant wait → (turn w ≡ all_woken (after_request w tenant l))
        × (NextGivesBatches w (first_able w.lines)
        ↔ (ServesBatches w tenant l.number l.session × AllWakeWithBatches (after_request w tenant l))) }
{}

/// A fetch that waits is answered at its deadline, whatever is kept: with what there then is of the partitions that it asks for. The
/// reply ends its wait.
pub fn fetches_end_at_their_deadline()
    ensures ready { (kept : Kept) (clock n : ℕ) (head : Head) (version : ℤ) (body : List ℕ) (deadline : ℕ) (limit : Option ℕ)
        (fetch : FetchRequest)
        → asked_fetch version body ≡ Ok fetch → deadline ≤ clock
        → ready kept clock n (record { head = head; awaited = Records version body deadline limit })
        ≡ Replies (fetched_in version (fetched kept.world (bounded limit fetch)).1) }
    ensures answered { (kept : Kept) (clock n tenant : ℕ) (s : Session) (head : Head) (version : ℤ) (body : List ℕ) (deadline : ℕ)
        (limit : Option ℕ) (fetch : FetchRequest)
        → s.stage ≡ BoundTo tenant (Some (record { head = head; awaited = Records version body deadline limit }))
        → asked_fetch version body ≡ Ok fetch → deadline ≤ clock
        → woken kept clock n s
        ≡ replied head (fetched_in version (fetched kept.world (bounded limit fetch)).1) (record s { stage = without_wait s.stage }) }
{}

/// A connection never has more unread bytes than its limit, and one that was shut takes no piece.
pub fn room_is_kept()
    ensures limit { (piece : List ℕ) (s : Session) → length s.unread ≤ unread_limit s.limit
        → length (fed piece s).unread ≤ unread_limit s.limit }
    ensures shut { (piece : List ℕ) (s : Session) → s.shut ≡ true → fed piece s ≡ s }
{}

/// A member of a group waits no longer on a connection that is gone: once it closes, or is shut since a piece is longer than its room,
/// its group stands as after a connection that ends. A connection on which no member waited leaves what is kept as it was.
pub fn members_wait_no_longer()
    ensures closed { (n : ℕ) (s : Session) (w : View) → find_line n w.lines ≡ Some s → has_member s.stage ≡ true
        → (step (Closes n) w).kept.groups ≡ left w.clock n w.kept.groups }
    ensures overrun { (n : ℕ) (piece : List ℕ) (s : Session) (w : View) → find_line n w.lines ≡ Some s → has_member s.stage ≡ true
        → overruns piece s ≡ true
        → (fed piece s ≡ shut_down causes.Overrun s)
        × ((kept_fed piece w.clock n (find_line n w.lines) w.kept).groups ≡ left w.clock n w.kept.groups) }
    ensures others { (n : ℕ) (s : Session) (w : View) → find_line n w.lines ≡ Some s → has_member s.stage ≡ false
        → (step (Closes n) w).kept ≡ w.kept }
{}

/// Before authentication a request of a tenant shuts the connection; a login that names no user with its password shuts it, and the name
/// in it is kept. After a handshake of version 0 the next frame is the login whatever it says, a request too, and a wrong one shuts it
/// without a reply.
pub fn nothing_before_login()
    ensures request { (setup : Setup) (handshaken : Bool) (head : Head) (key version : ℤ) (body : List ℕ) (s : Session)
        → greeted_by setup handshaken head (Another key version body) s ≡ shut_down (causes.NotLoggedIn head.api_key head.api_version) s }
    ensures denied { (setup : Setup) (head : Head) (message name : List ℕ) (s : Session) → login setup.users message ≡ Err name
        → let after : Session = greeted_by setup true head (Authenticate message) s in
        (after.shut ≡ true) × (after.login ≡ logins.Failed name) }
    ensures bare { (setup : Setup) (frame rest name : List ℕ) (s : Session) → in_front s ≡ Whole frame rest
        → login setup.users frame ≡ Err name → greeted setup Bare s ≡ shut_down causes.Denied (failed name s) }
{}

/// A reply to a version whose throttle time the tenant's answer has not begins with one of 0 milliseconds behind its correlation id, and
/// any other has none there. A join of version 2, as a first of each kind, is asked in version 1 and has one; a deletion of version 3 is
/// asked in version 1 too, whose reply has one already.
pub fn throttle_times_stand_in_front()
    ensures throttled { (id key version : ℤ) (body : List ℕ) (s : Session) → 8 + length body < 2 ^ 31
        → replied (record { correlation_id = id; is_throttled = true; api_key = key; api_version = version }) body s
        ≡ record s { output = s.output ++ framed id (0 ∷ 0 ∷ 0 ∷ 0 ∷ body) } }
    ensures plain { (id key version : ℤ) (body : List ℕ) (s : Session) → 4 + length body < 2 ^ 31
        → replied (record { correlation_id = id; is_throttled = false; api_key = key; api_version = version }) body s
        ≡ record s { output = s.output ++ framed id body } }
    ensures join { base_of JOIN_GROUP (pos 2) ≡ record { version = pos 1; is_throttled = true } }
    ensures deletion { base_of DELETE_TOPICS (pos 3) ≡ record { version = pos 1; is_throttled = false } }
{}

/// A connection that is bound to a tenant has logged in as a user of that tenant, at each moment of a machine's run that begins with
/// nobody connected, or where it was so before. So it is on the broker of all tenants, where nothing is refused to the tenant or to a
/// connection that is not bound.
pub fn bound_connections_have_logged_in()
    ensures machine { (last : ℕ) (es : List Happening) (w : View) → Rising 0 last w.lines → IsEventRun last es
        → HaveLoggedIn w.setup.users w.lines → HaveLoggedIn w.setup.users (last_world es w).lines }
    ensures broker { (t : ℕ) (mine : ℕ → Bool) (es later : List Happening) (a b : BrokerState) (got : List Sent)
        → a.lines ≡ [] → IsEventRun a.last es → LeavesWorlds es a b got → Mine t mine (es ++ later) a → IsCalmFor t a b
        → HaveLoggedIn a.setup.users (those mine b.lines) }
{}

/// On each connection the limit of a request is that of the setup, at each moment of a machine's run that begins with nobody connected,
/// or where it was so before. So it is on the broker of all tenants, where nothing is refused to the tenant or to a connection that is
/// not bound.
pub fn requests_have_one_limit()
    ensures machine { (es : List Happening) (w : View) → HaveLimit w.setup.request_bytes w.lines
        → HaveLimit w.setup.request_bytes (last_world es w).lines }
    ensures broker { (t : ℕ) (mine : ℕ → Bool) (es later : List Happening) (a b : BrokerState) (got : List Sent)
        → a.lines ≡ [] → LeavesWorlds es a b got → Mine t mine (es ++ later) a → IsCalmFor t a b
        → HaveLimit a.setup.request_bytes (those mine b.lines) }
{}

/// A connection stays its tenant's for good, whatever it asks.
pub fn bound_for_good()
    ensures { (setup : Setup) (kept : Kept) (clock n tenant : ℕ) (s : Session) → whose s.stage ≡ Some tenant
        → whose (after_turn setup kept clock n s).stage ≡ Some tenant }
{}

/// A request of a tenant sees of all nodes its tenant's alone: what is fixed is the same to it wherever this node is, whatever the nodes of
/// other tenants are.
pub fn nodes_are_a_tenants_own()
    ensures { (a b : Setup) (tenant : ℕ) → a.versions ≡ b.versions → a.users ≡ b.users → node_of a tenant ≡ node_of b tenant
        → a.request_bytes ≡ b.request_bytes → for_tenant a tenant ≡ for_tenant b tenant }
{}

/// Turns come to an end: then no connection can take one.
pub fn turns_end()
    ensures { (w : View) → first_able (turns w).lines ≡ None }
{}

/// A run is for a tenant what the run of its own events is: one event that is a step of its machine, or nothing, and then
/// the others.
pub fn first_event()
    ensures { (mine : ℕ → Bool) (e : Happening) (es : List Happening) (w next : View) (lines : List Line)
        → w.lines ≡ those mine lines → next ≡ stepped (concerns mine e) e w
        → those_sent mine (leaving e lines) ++ run (purge mine es) next ≡ run (purge mine (e ∷ es)) w }
{}

/// Putting what was sent into the order of numbers and leaving a tenant's alone may be done in either order.
pub fn one_tenants_in_order()
    ensures { (mine : ℕ → Bool) (all : List Sent) → those_sent mine (by_number all) ≡ by_number (those_sent mine all) }
{}

/// A tenant's connections, as they are told apart before a run, are those that their own bytes will bind to it.
pub fn owners_at_entry()
    ensures { (tenant : ℕ) (es : List Happening) (b : BrokerState) → Rising 0 b.last b.lines → Mine tenant (owned_by tenant es b) es b }
{}

/// No run brings what a tenant has past its limits: at every moment the bytes of its batches, its topics, their partitions, and the
/// offsets that its groups have committed are each at most the limit, or at most what they were before the run. No group had two
/// offsets of one partition then, as `commits_stay_ordered` (`kb_tenant`) says of each world that there is.
///
/// `turn`: the turn of a connection. `run`: each moment of a run of a tenant's machine. `own`: that machine among all tenants, given the
/// events of the tenant's connections. `left`: what the tenant has on the broker after a run in which nothing was refused to it or to
/// a connection that is not bound.
pub fn limits_are_kept()
    ensures turn { (w : View) (l : Line) (t : ℕ) (wait : Option Wait) → first_able w.lines ≡ Some l
        → l.session.stage ≡ BoundTo t wait → HasOrderedCommits w.kept.world
        → AreLimitsKept (node_of w.setup t).limits w.kept.world (turn w).kept.world }
    ensures run { (t last : ℕ) (es : List Happening) (w : View) → IsMachineOf t last es w → HasOrderedCommits w.kept.world
        → StaysWithin (node_of w.setup t).limits w.kept.world es w }
    ensures own { (t : ℕ) (mine : ℕ → Bool) (es : List Happening) (b : BrokerState) → IsReady b → IsEventRun b.last es → Mine t mine es b
        → HasOrderedCommits (kept_of_tenant b t).world
        → StaysWithin (node_of b.setup t).limits (kept_of_tenant b t).world (purge mine es) (view_of t mine b) }
    ensures left { (t : ℕ) (es : List Happening) (old new : BrokerState) (got : List Sent) → LeavesWorlds es old new got → IsReady old
        → IsEventRun old.last es → IsCalmFor t old new → HasOrderedCommits (kept_of_tenant old t).world
        → AreLimitsKept (node_of old.setup t).limits (kept_of_tenant old t).world (kept_of_tenant new t).world }
{}
