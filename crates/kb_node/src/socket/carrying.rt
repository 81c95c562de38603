//! What a socket carries between its stream and its connection.

ghost use Rattle.std.specs.Prelude.{◌≡◌, ◌≢◌, ◌<◌, ◌+◌, ◌-◌, ◌^◌, ◌++◌, ◌||◌, min, ℕ, List, [], is_some, true, false, vec_len};
ghost use Rattle.std.specs.Io.KnownBytes.{Appends};
ghost use Rattle.kb_isolation_spec.specs.Broker.{bound_to};
ghost use Rattle.kb_isolation_spec.specs.Calls.{is_open, login_on, output_of};
ghost use Rattle.kb_broker.specs.Places.{numbers};
ghost use Rattle.kb_node.specs.Carries.{Carries, CarriesWith, HasBeenTold, HasToldAll, WritesTaken, TellsInTurn, TellsWith};
ghost use Rattle.kb_node.specs.Carries.{unhanded_of, unwritten_of};
ghost use Rattle.kb_node.specs.Commits.{may_tell, tells_at_once};
ghost use Rattle.kb_node.specs.Known.{hasty, telling};
ghost use Rattle.kb_node.specs.News.{IsAddedIf};
ghost use Rattle.kb_node.specs.Next.{waits_for};
ghost use Rattle.kb_node.specs.Notices.{IsReported, closed_told, is_new_denial, is_new_login, login_told, one_more_if};
ghost use Rattle.kb_node.specs.Seats.{IsReseated, KeepsSeat};
ghost use Rattle.kb_node.specs.Sockets.{is_denied, is_done, is_held};
ghost use Rattle.kb_node.specs.declared.socket.Next.TheVariants.{End};

use crate::closed::{Cause, Closed};
use crate::committed::Committed;
use crate::input::Input;
use crate::news::{LoginAttempt, News};
use crate::socket::{Next, Socket, is_denial};
use crate::socket_shares::SocketShares;
use crate::transfer::write_to;
use crate::turn::Turn;
use kb_broker::Broker;
use kb_log::PartitionLog;
use kb_store::Store;
use std::alloc::Global;
use std::io::{ErrorKind, Read, Write};

impl<T: Read + Write + Drop> Socket<T> {
    /// Writes what the connection has to say, hands on a request where all is written and nothing is waited for, and writes what
    /// is said to that. With `may_ask` false nothing is handed on, and no request begins of more than `most` bytes. It is for replies
    /// that wait for no commit.
    ///
    /// Where the peer is gone, or the connection is shut and all is written, the connection is closed. A failed login is answered only once
    /// it may be.
    pub fn serve<S: Store, L: PartitionLog + Drop>(
        &mut self,
        alloc: Global,
        host: &mut Committed<S, L>,
        shares: &mut SocketShares,
        buffer: &mut [u8],
        may_ask: bool,
        most: u64,
        news: &mut News,
        turn: &mut Turn,
    ) -> Next
        requires not_ended { self.now.is_ended ≡ false }
        requires at_once { tells_at_once host.old.commits ≡ true }
        ensures carries { CarriesWith S.disk hasty T.contents T.remaining self.old self.new host.old.broker host.new.broker }
        ensures connection { self.new.connection ≡ self.old.connection }
        ensures seat { IsReseated self.old self.new shares.old shares.new }
        ensures tried { host.new.tried ≡ host.old.tried }
        // Where it may not be asked nothing is read or handed on.
        ensures unasked { may_ask ≡ false
            → TellsWith S.disk hasty T.contents T.remaining self.old self.new host.old.broker host.new.broker }
        ensures sync { (host.new.commits.sync ≡ host.old.commits.sync) × (tells_at_once host.new.commits ≡ true) }
        // Where it has ended the broker was told, and its connection is not open.
        ensures ended { self.new.is_ended ≡ true → is_open self.old.connection host.new.broker.state ≡ false }
        ensures over { result ≡ End → self.new.is_ended ≡ true }
        // Else its connection and all others are open as before, and there is no cause to close it.
        ensures stays { result ≢ End → (numbers host.new.broker.state ≡ numbers host.old.broker.state)
            × (is_done self.new.is_over self.new.is_half_closed self.new.may_answer
            (vec_len self.new.output - self.new.written) self.new.connection host.new.broker.state ≡ false)
            × (result ≡ waits_for self.new host.new.broker.state) }
        // Then the broker has nothing more to say to it, but to a failed login before its time, or behind what is still to be written.
        ensures told { result ≢ End → HasBeenTold self.old self.new host.old.broker.state host.new.broker.state }
    {
        self.write_all(alloc, host, turn);
        if may_ask && self.can_ask(host.broker()) {
            self.ask(alloc, host, buffer, most, turn);
            if self.take_seat(host.broker(), shares, turn) {
                self.write_output(alloc, host, turn);
            }
        }
        self.finish(alloc, host, news, turn)
    }

    /// Writes what is left of the output that was taken, and hands on a request where all is written that the connection had to say and
    /// nothing is waited for. With `may_ask` false nothing is handed on, and no request begins of more than `most` bytes. What is said
    /// since is left where it is.
    ///
    /// It answers how much is to be kept free for what is said to that.
    pub fn hand_on<S: Store, L: PartitionLog + Drop>(
        &mut self,
        alloc: Global,
        host: &mut Committed<S, L>,
        shares: &mut SocketShares,
        buffer: &mut [u8],
        may_ask: bool,
        most: u64,
        turn: &mut Turn,
    ) -> usize
        requires { self.now.is_ended ≡ false }
        ensures carries { Carries S.disk T.contents T.remaining self.old self.new host.old.broker host.new.broker }
        ensures connection { self.new.connection ≡ self.old.connection }
        ensures seat { IsReseated self.old self.new shares.old shares.new }
        ensures tried { host.new.tried ≡ host.old.tried }
        ensures sync { host.new.commits.sync ≡ host.old.commits.sync }
        ensures ended { self.new.is_ended ≡ self.old.is_ended }
        ensures numbers { numbers host.new.broker.state ≡ numbers host.old.broker.state }
        // Where it may not be asked the broker is not called, and nothing is read.
        ensures uncalled { may_ask ≡ false → host.new ≡ host.old }
        ensures unasked { may_ask ≡ false
            → WritesTaken S.disk T.contents T.remaining self.old self.new host.old.broker host.new.broker }
    {
        self.write_on(turn);
        if may_ask && self.can_ask(host.broker()) && !host.speaks(self.connection) {
            let reserve = self.ask(alloc, host, buffer, most, turn);
            self.take_seat(host.broker(), shares, turn);
            reserve
        } else {
            0
        }
    }

    /// Writes what the connection has to say, once all is written that it said before. It is for replies that waited for a commit.
    ///
    /// When the connection is closed is as in [`Socket::serve`].
    pub fn tell<S: Store, L: PartitionLog + Drop>(
        &mut self,
        alloc: Global,
        host: &mut Committed<S, L>,
        news: &mut News,
        turn: &mut Turn,
    ) -> Next
        requires not_ended { self.now.is_ended ≡ false }
        requires may_tell { may_tell host.old.commits ≡ true }
        ensures tells { TellsWith S.disk (telling S.settled S.disk S.loss host.old.commits) T.contents T.remaining
            self.old self.new host.old.broker host.new.broker }
        ensures connection { self.new.connection ≡ self.old.connection }
        ensures seat { KeepsSeat self.old self.new }
        ensures tried { host.new.tried ≡ host.old.tried }
        ensures commits { host.new.commits ≡ host.old.commits }
        // Where it has ended the broker was told, and its connection is not open.
        ensures ended { self.new.is_ended ≡ true → is_open self.old.connection host.new.broker.state ≡ false }
        ensures over { result ≡ End → self.new.is_ended ≡ true }
        // Else its connection and all others are open as before, and there is no cause to close it.
        ensures stays { result ≢ End → (numbers host.new.broker.state ≡ numbers host.old.broker.state)
            × (is_done self.new.is_over self.new.is_half_closed self.new.may_answer
            (vec_len self.new.output - self.new.written) self.new.connection host.new.broker.state ≡ false)
            × (result ≡ waits_for self.new host.new.broker.state) }
        // Then the broker has nothing more to say to it, but to a failed login before its time, or behind what is still to be written.
        ensures told { result ≢ End → HasBeenTold self.old self.new host.old.broker.state host.new.broker.state }
    {
        if self.unwritten() == 0 && !self.is_over {
            self.write_output(alloc, host, turn);
        }
        self.finish(alloc, host, news, turn)
    }

    /// Closes the connection where it is to be closed, and answers what it waits for.
    fn finish<S: Store, L: PartitionLog + Drop>(
        &mut self,
        alloc: Global,
        host: &mut Committed<S, L>,
        news: &mut News,
        turn: &mut Turn,
    ) -> Next
        requires { self.now.is_ended ≡ false }
        ensures tells { WritesTaken S.disk T.contents T.remaining self.old self.new host.old.broker host.new.broker }
        ensures connection { self.new.connection ≡ self.old.connection }
        ensures seat { KeepsSeat self.old self.new }
        ensures tried { host.new.tried ≡ host.old.tried }
        ensures commits { host.new.commits ≡ host.old.commits }
        ensures ended { self.new.is_ended ≡ true → is_open self.old.connection host.new.broker.state ≡ false }
        ensures over { result ≡ End → self.new.is_ended ≡ true }
        ensures open { result ≢ End → numbers host.new.broker.state ≡ numbers host.old.broker.state }
        ensures rest { result ≢ End → (host.new ≡ host.old)
            × (self.new ≡ record self.old { is_known = self.new.is_known; is_denied = self.new.is_denied })
            × (result ≡ waits_for self.new host.new.broker.state) }
        ensures stays { result ≢ End → is_done self.new.is_over self.new.is_half_closed self.new.may_answer
            (vec_len self.new.output - self.new.written) self.new.connection host.new.broker.state ≡ false }
        ensures told { IsReported self.old host.old.broker.state self.new.is_ended news.old news.new turn.old turn.new }
    {
        self.note_login(host.broker(), news);
        self.note_denial(host.broker(), news, turn);
        if self.is_done(host.broker()) {
            self.tell_closed(host.broker(), news);
            self.end(alloc, host, turn);
            return Next::End;
        }
        self.next(host.broker())
    }

    /// Notes that its connection has logged in, and tells of it, once.
    fn note_login<S: Store, L: PartitionLog + Drop>(
        &mut self,
        broker: &Broker<S, L>,
        news: &mut News,
    )
        ensures rest { self.new ≡ record self.old { is_known = self.new.is_known } }
        ensures connection { self.new.connection ≡ self.old.connection }
        ensures ended { self.new.is_ended ≡ self.old.is_ended }
        ensures known { self.new.is_known ≡ (self.old.is_known || is_some (bound_to self.old.connection broker.now.state)) }
        ensures told { IsAddedIf (login_told (is_new_login self.old broker.now.state) self.old broker.now.state)
            news.old.logins news.new.logins }
        ensures others { (news.new.denied ≡ news.old.denied) × (news.new.closed ≡ news.old.closed) }
    {
        if self.is_known {
            return;
        }
        let Some(_) = broker.tenant_of(self.connection) else {
            return;
        };
        self.is_known = true;
        news.logins.add(self.attempt(broker));
    }

    /// Notes that a login on its connection failed, and tells of it, once.
    fn note_denial<S: Store, L: PartitionLog + Drop>(
        &mut self,
        broker: &Broker<S, L>,
        news: &mut News,
        turn: &mut Turn,
    )
        ensures rest { self.new ≡ record self.old { is_denied = self.new.is_denied } }
        ensures connection { self.new.connection ≡ self.old.connection }
        ensures ended { self.new.is_ended ≡ self.old.is_ended }
        ensures denied { self.new.is_denied ≡ (self.old.is_denied || is_denied self.old.connection broker.now.state) }
        ensures told { IsAddedIf (login_told (is_new_denial self.old broker.now.state) self.old broker.now.state)
            news.old.denied news.new.denied }
        ensures counted { turn.new
            ≡ record turn.old { denied = one_more_if (is_new_denial self.old broker.now.state) turn.old.denied } }
        ensures others { (news.new.logins ≡ news.old.logins) × (news.new.closed ≡ news.old.closed) }
    {
        if self.is_denied || !is_denial(broker.why(self.connection)) {
            return;
        }
        self.is_denied = true;
        news.denied.add(self.attempt(broker));
        turn.count_denied();
    }

    /// The login on its connection, and from where it came.
    fn attempt<S: Store, L: PartitionLog + Drop>(&self, broker: &Broker<S, L>) -> LoginAttempt
        ensures { result ≡ record { address = self.now.peer; login = login_on self.now.connection broker.now.state } }
    {
        LoginAttempt {
            address: self.peer,
            login: broker.login_of(self.connection),
        }
    }

    /// Tells of its connection, which is closed now, where the broker shut it, or too long a request came before the login.
    fn tell_closed<S: Store, L: PartitionLog + Drop>(&self, broker: &Broker<S, L>, news: &mut News)
        ensures told { IsAddedIf (closed_told true self.now broker.now.state) news.old.closed news.new.closed }
        ensures others { (news.new.logins ≡ news.old.logins) × (news.new.denied ≡ news.old.denied) }
    {
        let tenant = broker.tenant_of(self.connection);
        let cause = Cause::of(broker.why(self.connection), self.has_too_long());
        if let Some(closed) = Closed::of(self.peer, tenant, cause) {
            news.closed.add(closed);
        }
    }

    /// Closes its connection as if the peer were gone.
    pub fn close<S: Store, L: PartitionLog + Drop>(
        &mut self,
        alloc: Global,
        host: &mut Committed<S, L>,
        turn: &mut Turn,
    )
        ensures tells { WritesTaken S.disk T.contents T.remaining self.old self.new host.old.broker host.new.broker }
        ensures connection { self.new.connection ≡ self.old.connection }
        ensures seat { KeepsSeat self.old self.new }
        ensures tried { host.new.tried ≡ host.old.tried }
        ensures commits { host.new.commits ≡ host.old.commits }
        ensures ended { self.new.is_ended ≡ true }
        ensures closed { is_open self.old.connection host.new.broker.state ≡ false }
        ensures counted { turn.new ≡ record turn.old { closed = min (turn.old.closed + 1) (2 ^ 64 - 1) } }
    {
        self.is_over = true;
        self.end(alloc, host, turn);
    }

    /// Closes its connection, and forgets what is not written.
    #[tactic(auto, using(crate::proofs::Closing::is_closed))]
    fn end<S: Store, L: PartitionLog + Drop>(
        &mut self,
        alloc: Global,
        host: &mut Committed<S, L>,
        turn: &mut Turn,
    )
        requires { is_done self.now.is_over self.now.is_half_closed self.now.may_answer
            (vec_len self.now.output - self.now.written) self.now.connection host.now.broker.state ≡ true }
        ensures tells { WritesTaken S.disk T.contents T.remaining self.old self.new host.old.broker host.new.broker }
        ensures connection { self.new.connection ≡ self.old.connection }
        ensures seat { KeepsSeat self.old self.new }
        ensures tried { host.new.tried ≡ host.old.tried }
        ensures commits { host.new.commits ≡ host.old.commits }
        ensures ended { self.new.is_ended ≡ true }
        ensures closed { is_open self.old.connection host.new.broker.state ≡ false }
        ensures counted { turn.new ≡ record turn.old { closed = min (turn.old.closed + 1) (2 ^ 64 - 1) } }
    {
        self.is_ended = true;
        self.output = Vec::new(alloc);
        self.written = 0;
        self.input = Input::new(alloc);
        host.disconnect(alloc, self.connection);
        turn.count_closed();
    }

    /// Writes what the socket takes now of what is left of the output, and then of what the connection has to say since.
    fn write_all<S: Store, L: PartitionLog + Drop>(
        &mut self,
        alloc: Global,
        host: &mut Committed<S, L>,
        turn: &mut Turn,
    )
        requires not_ended { self.now.is_ended ≡ false }
        requires may_tell { may_tell host.old.commits ≡ true }
        ensures tells { TellsWith S.disk (telling S.settled S.disk S.loss host.old.commits) T.contents T.remaining
            self.old self.new host.old.broker host.new.broker }
        ensures connection { self.new.connection ≡ self.old.connection }
        ensures seat { KeepsSeat self.old self.new }
        ensures tried { host.new.tried ≡ host.old.tried }
        ensures commits { host.new.commits ≡ host.old.commits }
        ensures ended { self.new.is_ended ≡ self.old.is_ended }
        ensures numbers { numbers host.new.broker.state ≡ numbers host.old.broker.state }
        ensures told { HasBeenTold self.old self.new host.old.broker.state host.new.broker.state }
    {
        self.write_on(turn);
        if self.unwritten() == 0 {
            self.write_output(alloc, host, turn);
        }
    }

    /// Writes what the socket takes now of the output. New output is taken only once the earlier one is written, and that of a failed login
    /// once it may be answered.
    fn write_output<S: Store, L: PartitionLog + Drop>(
        &mut self,
        alloc: Global,
        host: &mut Committed<S, L>,
        turn: &mut Turn,
    )
        requires not_ended { self.now.is_ended ≡ false }
        requires may_tell { may_tell host.old.commits ≡ true }
        ensures tells { TellsWith S.disk (telling S.settled S.disk S.loss host.old.commits) T.contents T.remaining
            self.old self.new host.old.broker host.new.broker }
        ensures connection { self.new.connection ≡ self.old.connection }
        ensures seat { KeepsSeat self.old self.new }
        ensures tried { host.new.tried ≡ host.old.tried }
        ensures commits { host.new.commits ≡ host.old.commits }
        ensures ended { self.new.is_ended ≡ self.old.is_ended }
        ensures numbers { numbers host.new.broker.state ≡ numbers host.old.broker.state }
        ensures read { turn.new.read ≡ turn.old.read }
        // Nothing is taken before all is written, and a failed login is not answered before its time.
        ensures held { (self.old.written < vec_len self.old.output → host.new ≡ host.old)
            × (is_held self.old.may_answer self.old.connection host.old.broker.state ≡ true → host.new ≡ host.old) }
        ensures told { TellsInTurn self.old host.old.broker.state → HasToldAll self.new host.new.broker.state }
    {
        if self.unwritten() == 0 && !self.is_held(host.broker()) {
            self.take_output(alloc, host);
        }
        self.write_on(turn);
    }

    /// Takes what the connection has to say, once all is written that it said before.
    #[tactic(auto, using(crate::proofs::Closing::numbers_taken, crate::proofs::Closing::none_left))]
    fn take_output<S: Store, L: PartitionLog + Drop>(
        &mut self,
        alloc: Global,
        host: &mut Committed<S, L>,
    )
        requires written { self.now.written ≡ vec_len self.now.output }
        requires may_tell { may_tell host.old.commits ≡ true }
        requires may_answer { is_held self.now.may_answer self.now.connection host.now.broker.state ≡ false }
        ensures tells { TellsWith S.disk (telling S.settled S.disk S.loss host.old.commits) T.contents T.remaining
            self.old self.new host.old.broker host.new.broker }
        ensures connection { self.new.connection ≡ self.old.connection }
        ensures seat { KeepsSeat self.old self.new }
        ensures tried { host.new.tried ≡ host.old.tried }
        ensures commits { host.new.commits ≡ host.old.commits }
        ensures ended { self.new.is_ended ≡ self.old.is_ended }
        ensures unwritten { self.new.written ≡ 0 }
        ensures none { output_of self.old.connection host.new.broker.state ≡ [] }
        ensures numbers { numbers host.new.broker.state ≡ numbers host.old.broker.state }
    {
        self.written = 0;
        self.output = host.take_output(alloc, self.connection);
    }

    /// Writes what the socket takes now of what was said.
    pub fn write_on(&mut self, turn: &mut Turn)
        ensures written { (put : List ℕ) × Appends (T.contents self.old.stream) (T.contents self.new.stream) put
            × (unwritten_of self.old ≡ put ++ unwritten_of self.new) }
        ensures unhanded { unhanded_of self.new ≡ unhanded_of self.old }
        ensures over { self.old.is_over ≡ true → self.new.is_over ≡ true }
        ensures lost { self.new.is_lost ≡ self.old.is_lost }
        ensures connection { self.new.connection ≡ self.old.connection }
        ensures seat { KeepsSeat self.old self.new }
        ensures ended { self.new.is_ended ≡ self.old.is_ended }
        ensures read { turn.new.read ≡ turn.old.read }
        ensures answer { self.new.may_answer ≡ self.old.may_answer }
    {
        let rest = &self.output[self.written..];
        if rest.is_empty() {
            return;
        }
        match write_to(&mut self.stream, rest) {
            Ok(0) => self.is_over = true,
            Ok(n) => {
                self.written += n;
                turn.count_written(n);
            }
            Err(e) if e.kind() == ErrorKind::WouldBlock => {}
            Err(_) => self.is_over = true,
        }
    }
}
