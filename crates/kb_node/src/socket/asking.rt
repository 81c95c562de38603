//! What a socket's connection is asked.

ghost use Rattle.std.specs.Prelude.{◌≡◌, ◌≢◌, [], ◌≤◌, ◌+◌, ◌-◌, ◌||◌, min, take, true, false, drop, length, vec_len};
ghost use Rattle.std.specs.Io.KnownBytes.{Consumes};
ghost use Rattle.kb_isolation_spec.specs.Calls.{room_of};
ghost use Rattle.kb_broker.specs.Places.{numbers};
ghost use Rattle.kb_node.specs.Carries.{Carries, HandsOn, unhanded_of, unwritten_of};
ghost use Rattle.kb_node.specs.Commits.{tells_at_once};
ghost use Rattle.kb_node.specs.Notices.{one_more_if};
ghost use Rattle.kb_node.specs.Pieces.{begins_too_long, has_too_long, passed_len, progress_behind, progress_on, unhanded};
ghost use Rattle.kb_node.specs.Replies.{reserve_for};
ghost use Rattle.kb_node.specs.Requests.{awaited, is_short, is_too_long, may_begin, reach};
ghost use Rattle.kb_node.specs.Seats.{KeepsSeat};
ghost use Rattle.kb_node.specs.Sockets.{can_ask};

use crate::committed::Committed;
use crate::socket::Socket;
use crate::tenant_traffic::key_in;
use crate::transfer::read_from;
use crate::turn::Turn;
use kb_log::PartitionLog;
use kb_store::Store;
use std::alloc::Global;
use std::io::{ErrorKind, Read, Write};

/// The API key of a Fetch (Kafka protocol guide, "Protocol Api Keys").
const FETCH: u16 = 1;

/// The most bytes of batches that a Fetch is answered.
const FETCH_REPLY: usize = 8_388_608;

/// How many bytes are kept free for another reply.
const OTHER_REPLY: usize = 65_536;

/// The most bytes of a request before the login, those of its size not among them.
pub const STRANGER_FRAME: usize = 65_536;

/// The bytes of a request's size.
const SIZE: usize = 4;

impl<T: Read + Write + Drop> Socket<T> {
    /// Hands on what is there of the request in front, and reads before that where nothing is: no more than there is room for. It answers
    /// how much is to be kept free for what is said to that. Where some of what was read is lost nothing more is read or handed on.
    ///
    /// No request begins of more than `most` bytes.
    pub(super) fn ask<S: Store, L: PartitionLog + Drop>(
        &mut self,
        alloc: Global,
        host: &mut Committed<S, L>,
        buffer: &mut [u8],
        most: u64,
        turn: &mut Turn,
    ) -> usize
        requires { can_ask self.now.is_over (vec_len self.now.output - self.now.written) self.now.connection host.now.broker.state ≡ true }
        ensures carries { Carries S.disk T.contents T.remaining self.old self.new host.old.broker host.new.broker }
        ensures connection { self.new.connection ≡ self.old.connection }
        ensures unwritten { unwritten_of self.new ≡ unwritten_of self.old }
        ensures seat { KeepsSeat self.old self.new }
        ensures ended { self.new.is_ended ≡ self.old.is_ended }
        ensures numbers { numbers host.new.broker.state ≡ numbers host.old.broker.state }
        ensures sync { (host.new.tried ≡ host.old.tried) × (host.new.commits.sync ≡ host.old.commits.sync)
            × (tells_at_once host.old.commits ≡ true → tells_at_once host.new.commits ≡ true) }
        ensures fits { turn.new.read ≤ turn.old.read
            + min (room_of self.old.connection host.old.broker.state) (reach self.old.input.progress.left most) }
        ensures reserved { host.new ≢ host.old → 65536 ≤ result }
        // What is kept of a request that may not begin is not handed on. One whose request in front is too long before the login is closed
        // for that, and counted, and nothing more is read.
        ensures held { (may_begin self.old.is_bound most (awaited self.old.input.progress.left (unhanded self.old.input)) ≡ false
            → host.new ≡ host.old) × (self.old.is_lost ≡ false → has_too_long self.old.is_bound self.old.input ≡ true
            → (self.new ≡ record self.old { is_over = true })
            × (turn.new ≡ record turn.old { strangers = one_more_if true turn.old.strangers })) }
        // What is kept is handed on as far as its request goes, where that may begin. It is noted that one became whole only where none is
        // begun.
        ensures progress { (self.old.is_lost ≡ false → is_short self.old.input.progress.left (unhanded self.old.input) ≡ false
            → self.new.input.progress ≡ progress_on self.old.is_bound most (room_of self.old.connection host.old.broker.state)
            self.old.input) × (self.old.is_anew ≡ false → self.new.is_anew ≡ true → self.new.input.progress.left ≡ 0) }
    {
        if self.is_lost {
            return 0;
        }
        let room = host.broker().room(self.connection);
        let is_bare = host.broker().takes_login(self.connection);
        let is_begun = self.input.is_begun();
        if !self.input.is_short() {
            let awaited = self.input.awaited();
            if !self.may_begin(awaited, most, turn) {
                return 0;
            }
            let count = self.input.advance(room);
            let piece = self.input.passed(count);
            self.heading.note(is_begun, is_bare, piece);
            host.input(alloc, self.connection, piece);
            let reserve = reply_reserve(piece, is_begun);
            self.is_anew = self.is_anew || !self.input.is_begun();
            self.input.tidy(alloc);
            return reserve;
        }
        let size = room.min(buffer.len());
        let size = size.min(self.reach(most));
        let piece = &mut buffer[..size];
        let read = self.read_piece(piece, turn);
        self.take_in(alloc, host, &piece[..read], room, is_bare, most, turn)
    }

    /// How far may be read where no request begins of more than so many bytes: where none is begun no further than that, but as far as a
    /// request's size.
    fn reach(&self, most: u64) -> usize
        ensures { result ≡ reach self.now.input.progress.left most }
    {
        if self.input.is_begun() {
            usize::MAX
        } else {
            usize::try_from(most).unwrap_or(usize::MAX).max(SIZE)
        }
    }

    /// Whether a request of so many bytes may begin, where none begins of more than `most`. One that is too long before the login closes
    /// the connection.
    fn may_begin(&mut self, size: usize, most: u64, turn: &mut Turn) -> bool
        ensures begins { result ≡ may_begin self.old.is_bound most size }
        ensures over { self.new.is_over ≡ (self.old.is_over || is_too_long self.old.is_bound size) }
        ensures over_stays { self.old.is_over ≡ true → self.new.is_over ≡ true }
        ensures rest { self.new ≡ record self.old { is_over = self.new.is_over } }
        ensures counted { turn.new
            ≡ record turn.old { strangers = one_more_if (is_too_long self.old.is_bound size) turn.old.strangers } }
        ensures read { turn.new.read ≡ turn.old.read }
    {
        if is_too_long(self.is_bound, size) {
            self.is_over = true;
            turn.count_stranger();
            return false;
        }
        size as u64 <= most
    }

    /// Whether the request in front is too long before the login. Nothing of it was handed on.
    pub(super) fn has_too_long(&self) -> bool
        ensures { result ≡ has_too_long self.now.is_bound self.now.input }
    {
        is_too_long(self.is_bound, self.input.awaited())
    }

    /// Hands on what of a piece may be handed on where nothing is kept, and keeps the rest.
    fn take_in<S: Store, L: PartitionLog + Drop>(
        &mut self,
        alloc: Global,
        host: &mut Committed<S, L>,
        piece: &[u8],
        room: usize,
        is_bare: bool,
        most: u64,
        turn: &mut Turn,
    ) -> usize
        ensures hands_on { HandsOn S.disk self.old self.new piece.now host.old.broker host.new.broker }
        ensures stream { self.new.stream ≡ self.old.stream }
        ensures unwritten { unwritten_of self.new ≡ unwritten_of self.old }
        ensures connection { (self.new.connection ≡ self.old.connection) × (self.new.is_ended ≡ self.old.is_ended) }
        ensures seat { KeepsSeat self.old self.new }
        ensures numbers { numbers host.new.broker.state ≡ numbers host.old.broker.state }
        ensures sync { (host.new.tried ≡ host.old.tried) × (host.new.commits.sync ≡ host.old.commits.sync)
            × (tells_at_once host.old.commits ≡ true → tells_at_once host.new.commits ≡ true) }
        ensures progress { self.new.input.progress ≡ progress_behind self.old.is_bound most room piece.now self.old.input }
        ensures reserved { host.new ≢ host.old → 65536 ≤ result }
        // Nothing is handed on of a request that may not begin. One whose piece begins too long a request before the login is closed for
        // that, and counted. The piece is kept, unless it is lost.
        ensures held { (may_begin self.old.is_bound most (awaited self.old.input.progress.left piece.now) ≡ false → host.new ≡ host.old)
            × (begins_too_long self.old.is_bound piece.now self.old.input ≡ true → (self.new.is_over ≡ true)
            × (self.new.is_lost ≡ false → has_too_long self.new.is_bound self.new.input ≡ true)) }
        ensures counted { turn.new ≡ record turn.old {
          strangers = one_more_if (begins_too_long self.old.is_bound piece.now self.old.input) turn.old.strangers;
        } }
        ensures anew { self.old.is_anew ≡ false → self.new.is_anew ≡ true → self.new.input.progress.left ≡ 0 }
    {
        let is_begun = self.input.is_begun();
        let count = self.pass(piece, room, most, turn);
        let (handed, rest) = piece.split_at(count);
        let is_lost = self.input.push(rest).is_err();
        self.is_over |= is_lost;
        self.is_lost |= is_lost;
        if handed.is_empty() {
            return 0;
        }
        self.heading.note(is_begun, is_bare, handed);
        host.input(alloc, self.connection, handed);
        self.is_anew = self.is_anew || !self.input.is_begun();
        reply_reserve(handed, is_begun)
    }

    /// How many bytes at the front of a piece are handed on past those that are kept: none where some are kept, or where the request may
    /// not begin.
    fn pass(&mut self, piece: &[u8], room: usize, most: u64, turn: &mut Turn) -> usize
        ensures passed { result ≡ passed_len self.old.is_bound most room piece.now self.old.input }
        ensures progress { self.new.input.progress ≡ progress_behind self.old.is_bound most room piece.now self.old.input }
        ensures within { result ≤ length piece.now }
        ensures first { result ≢ 0 → unhanded_of self.old ≡ [] }
        ensures held { may_begin self.old.is_bound most (awaited self.old.input.progress.left piece.now) ≡ false → result ≡ 0 }
        ensures unhanded { unhanded_of self.new ≡ unhanded_of self.old }
        ensures rest { self.new ≡ record self.old { input = self.new.input; is_over = self.new.is_over } }
        ensures over { self.old.is_over ≡ true → self.new.is_over ≡ true }
        // One whose piece begins too long a request before the login is closed for that, and counted.
        ensures refused { self.new.is_over ≡ (self.old.is_over || begins_too_long self.old.is_bound piece.now self.old.input) }
        ensures counted { turn.new ≡ record turn.old {
          strangers = one_more_if (begins_too_long self.old.is_bound piece.now self.old.input) turn.old.strangers;
        } }
        ensures read { turn.new.read ≡ turn.old.read }
    {
        let awaited = self.input.awaited_in(piece);
        if !self.input.is_empty() || !self.may_begin(awaited, most, turn) {
            return 0;
        }
        self.input.pass(piece, room)
    }

    /// Reads once: how many bytes came.
    fn read_piece(&mut self, piece: &mut [u8], turn: &mut Turn) -> usize
        ensures within { result ≤ length piece.old }
        ensures came { Consumes (T.remaining self.old.stream) (T.remaining self.new.stream) (take result piece.new) }
        ensures rest { self.new ≡ record self.old { stream = self.new.stream; is_over = self.new.is_over; can_read = self.new.can_read } }
        ensures over { self.old.is_over ≡ true → self.new.is_over ≡ true }
        ensures connection { self.new.connection ≡ self.old.connection }
        ensures ended { self.new.is_ended ≡ self.old.is_ended }
        ensures read { turn.new.read ≤ turn.old.read + length piece.old }
        ensures anew { self.new.is_anew ≡ self.old.is_anew }
    {
        if !self.can_read || piece.is_empty() {
            return 0;
        }
        match read_from(&mut self.stream, piece) {
            Ok(0) => self.is_over = true,
            Ok(n) => {
                turn.count_read(n);
                return n;
            }
            Err(e) if e.kind() == ErrorKind::WouldBlock => self.can_read = false,
            Err(_) => self.is_over = true,
        }
        0
    }
}

/// Whether a request of so many bytes, those of its size among them, is too long for a socket that has not logged in.
fn is_too_long(is_bound: bool, size: usize) -> bool
    ensures { result ≡ is_too_long is_bound size }
{
    !is_bound && size > STRANGER_FRAME + SIZE
}

/// How many bytes are kept free for the reply to a piece of a request, until it is there: many where that may be a Fetch, as where its API
/// key is not in the piece, or the request was begun before.
fn reply_reserve(piece: &[u8], is_begun: bool) -> usize
    ensures reserve { result ≡ reserve_for is_begun piece.now }
    ensures least { 65536 ≤ result }
{
    match key_in(0, 0, piece) {
        Some(key) if key != FETCH && !is_begun => OTHER_REPLY,
        _ => FETCH_REPLY,
    }
}
