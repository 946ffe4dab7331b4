//! The sockets of the system, in one loop without threads.
ghost use Rattle.std.specs.Prelude.{◌≡◌, ℕ, ◌+◌, ◌<◌, ◌≤◌, true, [], length, max, min, IfErr, IfNone, IfOk, IfSome};
ghost use Rattle.socket_source.specs.Opens.{IsFaultOf};
ghost use Rattle.socket_source.specs.Runs.{HasTurns, IsOwn, IsServed, ServesAny};
ghost use Rattle.socket_source.specs.Shares.{IsShareOf};
ghost use Rattle.socket_source.specs.Sockets.{IsEnd};
ghost use Rattle.socket_source.specs.Steps.{Becomes, IfLawful, IsLawful, IsVacant, without_open};
ghost use Rattle.socket_source.specs.Turns.{IfPiece, IsBounded};
ghost use Rattle.socket_source.specs.Waiting.{ComesBack, Keeps, number_of};

use crate::connections::Connections;
use crate::input::{InputTurn, read_input, watch_input};
use crate::limits::CONNECTIONS_MAX;
use crate::listener::Listener;
use crate::open_fault::OpenFault;
use crate::open_sockets::{OpenSockets, Taken};
use crate::opening::{check_descriptors, open_listeners};
use crate::options::SourceOptions;
use crate::pace::Pace;
use crate::ready::{INPUT_NUMBER, ReadyQueue, listener_number};
use crate::ready_sockets::{Chosen, ReadySockets};
use crate::refusal::Retry;
use crate::share::Share;
use crate::step::{ConnectionEnd, ServerStep, SourceFault};
use crate::system::spare_descriptor;
use mio::{Events, Poll};
use peer_rules::{AllowList, Rates};
use std::alloc::Global;
use std::net::Net;
use std::rt::{Clock, Files};
use std::time::{Duration, Instant};

// how many sockets the system reports at most in one call
const REPORTED_MAX: usize = 1_024;

// after how many steps of sockets the system is asked again for those that are ready
const ROUND_MAX: usize = 16;

// the shortest period, in milliseconds
const PERIOD_MIN_MILLIS: u64 = 1;

// how many ticks behind reads stand for those of periods to come, at most
const EARLY_MAX: u64 = 60_000;

// for how long what waits in the sockets is read once standard input has ended, in seconds
const DRAIN_SECONDS: u64 = 10;

// how often connections are tried again whose peers were above their rates, in milliseconds
const SLOWED_MILLIS: u64 = 100;

// how often silent connections are looked for, in seconds
const SWEEP_SECONDS: u64 = 1;

// Whether a step has read octets.
fn reads_octets(step: ServerStep) -> bool {
    matches!(step, ServerStep::Piece { .. } | ServerStep::Datagram { .. })
}

// What is known of standard input.
#[derive(Clone, Copy)]
enum InputState {
    // It ends, or nobody asks.
    Open,
    // It ended then, and what waits in the sockets is read.
    Draining(Instant),
    // Nothing waits any more.
    Drained,
}

/// The sockets of the system, and whose turn it is.
#[derive(Drop)]
pub(crate) struct Sockets<'a, R> {
    rt: &'a R,
    pub(crate) held: OpenSockets,
    events: Events,
    pub(crate) ready: ReadySockets,
    // how many more steps before the system is asked again
    round: usize,
    // some listener is to be tried again
    later: bool,
    // the connections that wait until their peers may send more, and when such were last tried again
    slowed: ReadyQueue,
    slowed_since: Instant,
    period: Duration,
    ticked: Instant,
    // a tick comes behind each step that has read octets
    at_once: bool,
    // the last step has, and its tick is due
    is_due: bool,
    // how many of these ticks stand for those of periods to come
    early: u64,
    idle: Option<Duration>,
    // when silent connections were last looked for, and the first number that was not looked at since
    sweeping_since: Instant,
    swept: usize,
    input: InputState,
}

impl<'a, R: Clock> Sockets<'a, R> {
    ghost use Rattle.socket_source.specs.Lines.{Asks, Passes, line, ready_in};
    ghost use Rattle.socket_source.specs.Standings.{framings, standing};

    // The number of a connection's socket among all.
    fn socket_number(&self, conn: u32) -> usize {
        listener_number(self.held.listeners.len()).saturating_add(conn as usize)
    }

    // Has every listener tried again, if one waits for it.
    fn retry_listeners(&mut self)
        ensures standing { standing self.new ≡ standing self.old }
        ensures stays { self.new.held ≡ self.old.held }
        ensures round { self.new.round ≡ self.old.round }
        ensures early { self.new.early ≡ self.old.early }
        ensures order { Keeps (line self.old) (line self.new) }
    {
        if self.later {
            self.later = false;
            for listener in 0..self.held.listeners.len() {
                self.ready.push(listener_number(listener));
            }
        }
    }

    // Has the connections tried again whose peers were above their rates, if it is time.
    fn retry_slowed(&mut self, now: Instant)
        ensures standing { standing self.new ≡ standing self.old }
        ensures stays { self.new.held ≡ self.old.held }
        ensures order { Keeps (line self.old) (line self.new) }
    {
        if now.duration_since(self.slowed_since) < Duration::from_millis(SLOWED_MILLIS) {
            return;
        }
        self.slowed_since = now;
        for _turn in 0..self.slowed.len() {
            if let Some(number) = self.slowed.next() {
                self.ready.push(number);
            }
        }
    }

    // The share of a socket that has its turn, beside those that wait.
    #[tactic(auto, using(crate::proofs::Shares::share_of_more))]
    fn share(&self) -> Share
        ensures share { IsShareOf (ready_in (line self.now) + 1) result }
        ensures some { 0 < result.frames }
    {
        Share::of(self.ready.len().saturating_add(1))
    }

    // A period is over. A tick behind a read may stand for its own.
    fn tick(&mut self, now: Instant) -> Option<ServerStep>
        ensures lawful { IfLawful (standing self.old) (standing self.new) 0 result }
        ensures order { Keeps (line self.old) (line self.new) }
        ensures unserved { IfSome result (λ step. (n : ℕ) → IsServed n step []) }
        ensures early { IfNone result (self.new.early < self.old.early) }
    {
        self.ticked = now;
        self.retry_listeners();
        if self.early > 0 {
            self.early -= 1;
            return None;
        }
        Some(ServerStep::Tick)
    }

    // The tick behind a read. It stands for that of a period to come: so as many ticks come as
    // periods pass, unless there are more reads than that.
    fn tick_at_once(&mut self) -> ServerStep
        ensures lawful { IsLawful (standing self.old) (standing self.new) 0 result }
        ensures order { Keeps (line self.old) (line self.new) }
        ensures unserved { (n : ℕ) → IsServed n result [] }
    {
        self.early = self.early.saturating_add(1).min(EARLY_MAX);
        ServerStep::Tick
    }

    /// Closes a connection, and so has room for another.
    pub(crate) fn release(&mut self, conn: u32)
        ensures becomes { Becomes (standing self.old) (standing self.new)
            (without_open conn (standing self.old).live) }
        ensures order { Keeps (line self.old) (line self.new) }
    {
        self.held.close(conn);
        self.retry_listeners();
    }

    // Has the listeners tried again if a step has made room for a connection.
    #[tactic(auto, using(crate::proofs::Shares::if_piece_always))]
    fn use_room(&mut self, step: Option<ServerStep>)
        ensures standing { standing self.new ≡ standing self.old }
        ensures stays { self.new.held ≡ self.old.held }
        ensures round { self.new.round ≡ self.old.round }
        ensures order { Keeps (line self.old) (line self.new) }
        ensures longer { IfSome step (IfPiece (λ conn len. ready_in (line self.new) ≤ ready_in (line self.old))) }
    {
        if let Some(ServerStep::Ended { .. }) = step {
            self.retry_listeners();
        }
    }

    // A socket has had a step, and is tried again in time.
    fn settle(&mut self, chosen: Chosen, retry: Retry)
        ensures standing { standing self.new ≡ standing self.old }
        ensures stays { self.new.held ≡ self.old.held }
        ensures comes_back { ComesBack chosen (line self.old) (line self.new) }
        ensures longer { ready_in (line self.new) ≤ ready_in (line self.old) + 1 }
    {
        match retry {
            Retry::Reported => {}
            Retry::Now => self.ready.stay(chosen),
            Retry::Later => self.later = true,
            Retry::Slowed => self.slowed.push(chosen.number()),
        }
    }

    // A socket that has something left waits for its turn.
    fn queue(&mut self, number: usize, retry: Retry)
        ensures standing { standing self.new ≡ standing self.old }
        ensures stays { self.new.held ≡ self.old.held }
        ensures round { self.new.round ≡ self.old.round }
        ensures order { Keeps (line self.old) (line self.new) }
        ensures longer { ready_in (line self.new) ≤ ready_in (line self.old) + 1 }
    {
        if let Retry::Now = retry {
            self.ready.push(number);
        }
    }

    // A connection that has given nothing for too long. All are looked at again where it is time.
    fn find_silent(&mut self, now: Instant) -> Option<u32>
        ensures standing { standing self.new ≡ standing self.old }
        ensures ready { self.new.ready ≡ self.old.ready }
        ensures round { self.new.round ≡ self.old.round }
    {
        let idle = self.idle?;
        if now.duration_since(self.sweeping_since) >= Duration::from_secs(SWEEP_SECONDS) {
            self.sweeping_since = now;
            self.swept = 0;
        }
        let silent = self.held.connections.find_idle(self.swept, now, idle);
        self.swept = match silent {
            Some(conn) => conn as usize + 1,
            None => self.held.connections.limit,
        };
        silent
    }

    // Ends a connection that has given nothing for too long, and has nothing to read. What waits is
    // read in its turn: it may have come while the process was stopped.
    fn take_silent(&mut self, now: Instant) -> Option<ServerStep>
        ensures lawful { IfLawful (standing self.old) (standing self.new) 0 result }
        ensures order { Keeps (line self.old) (line self.new) }
        ensures round { self.new.round ≡ self.old.round }
        ensures ends { IfSome result IsEnd }
    {
        let conn = self.find_silent(now)?;
        let number = self.socket_number(conn);
        let taken = self.held.end_silent(conn);
        self.queue(number, taken.retry);
        self.use_room(taken.step);
        taken.step
    }

    // An open connection ends.
    fn end(&mut self, conn: u32, end: ConnectionEnd) -> ServerStep
        requires { (standing self.old).live conn ≡ true }
        ensures lawful { IsLawful (standing self.old) (standing self.new) 0 result }
        ensures order { Keeps (line self.old) (line self.new) }
        ensures unserved { (n : ℕ) → IsServed n result [] }
    {
        self.release(conn);
        ServerStep::Ended { conn, end }
    }

    // Ends a connection that is still open, or finishes where none is.
    fn finish(&mut self, now: Instant) -> ServerStep
        ensures lawful { IsLawful (standing self.old) (standing self.new) 0 result }
        ensures order { Keeps (line self.old) (line self.new) }
        ensures unserved { (n : ℕ) → IsServed n result [] }
    {
        match self.held.connections.find_idle(0, now, Duration::ZERO) {
            Some(conn) => self.end(conn, ConnectionEnd::Closed),
            None => ServerStep::Finished,
        }
    }

    // How long the system may be waited for.
    fn patience(&self, now: Instant) -> Duration {
        if self.ready.len() > 0 {
            return Duration::ZERO;
        }
        let tick = self.period.saturating_sub(now.duration_since(self.ticked));
        if self.slowed.len() > 0 {
            return tick.min(Duration::from_millis(SLOWED_MILLIS));
        }
        if !matches!(self.input, InputState::Open) {
            return Duration::ZERO;
        }
        match self.idle {
            Some(_) => tick.min(Duration::from_secs(SWEEP_SECONDS)),
            None => tick,
        }
    }

    // Asks the system which sockets are ready, and puts them behind those that were. It waits where
    // none was. What waits when standard input has ended is read at the rates of its peers, too.
    fn ask(&mut self, now: Instant) -> Option<ServerStep>
        ensures lawful { IfLawful (standing self.old) (standing self.new) 0 result }
        ensures order { Keeps (line self.old) (line self.new) }
        ensures unserved { IfSome result (λ step. (n : ℕ) → IsServed n step []) }
        ensures round { IfNone result (self.new.round ≡ min (ready_in (line self.new)) ROUND_MAX) }
    {
        self.retry_slowed(now);
        let patience = self.patience(now);
        if self
            .held
            .poll
            .poll(&mut self.events, Some(patience))
            .is_err()
        {
            return Some(ServerStep::Failed(SourceFault::Poll));
        }
        self.ready.push_reported(&self.events);
        self.round = self.ready.len().min(ROUND_MAX);
        let none_waits = self.round == 0 && self.slowed.len() == 0;
        if none_waits && matches!(self.input, InputState::Draining(_)) {
            self.input = InputState::Drained;
        }
        None
    }

    // Looks at standard input.
    fn take_input(&mut self, now: Instant, buf: &mut [u8]) -> Taken
        ensures lawful { IfLawful (standing self.old) (standing self.new) 0 result.step }
        ensures bounded { IfSome result.step (IsBounded 1 (framings self.new) buf.new) }
        ensures own { (listeners number : ℕ) → IfSome result.step (IsOwn listeners number) }
        ensures ready { self.new.ready ≡ self.old.ready }
    {
        match read_input(buf) {
            InputTurn::Some => Taken::none(Retry::Now),
            InputTurn::Dry => Taken::none(Retry::Reported),
            InputTurn::Ended => {
                self.input = InputState::Draining(now);
                Taken::some(ServerStep::InputEnded, Retry::Reported)
            }
        }
    }

    // A step of a socket.
    fn take(&mut self, chosen: Chosen, now: Instant, buf: &mut [u8]) -> Option<ServerStep>
        ensures lawful { IfLawful (standing self.old) (standing self.new) (length buf.new) result }
        ensures bounded { IfSome result (IsBounded (ready_in (line self.new)) (framings self.new) buf.new) }
        ensures comes_back { ComesBack chosen (line self.old) (line self.new) }
        ensures own { IfSome result (IsOwn (standing self.old).listeners (number_of chosen)) }
    {
        match chosen.number().checked_sub(1) {
            Some(socket) => {
                let share = self.share();
                let taken = self.held.take(socket, share, now, buf);
                self.settle(chosen, taken.retry);
                self.use_room(taken.step);
                taken.step
            }
            None => {
                let taken = self.take_input(now, buf);
                self.settle(chosen, taken.retry);
                taken.step
            }
        }
    }

    // Whether what waited when standard input ended was read, or is not waited for any more.
    fn is_drained(&self, now: Instant) -> bool {
        match self.input {
            InputState::Open => false,
            InputState::Draining(since) => now.duration_since(since)
                >= Duration::from_secs(DRAIN_SECONDS),
            InputState::Drained => true,
        }
    }

    // One turn.
    fn turn(&mut self, buf: &mut [u8]) -> Option<ServerStep>
        ensures lawful { IfLawful (standing self.old) (standing self.new) (length buf.new) result }
        ensures bounded { IfSome result (IsBounded (ready_in (line self.new)) (framings self.new) buf.new) }
        ensures turns { HasTurns (standing self.old).listeners result (line self.old) (line self.new) }
        ensures passes { IfNone result (Passes self.old self.new) }
    {
        let Ok(now) = Instant::now(self.rt) else {
            return Some(ServerStep::Failed(SourceFault::Clock));
        };
        if self.is_drained(now) {
            self.input = InputState::Drained;
            return Some(self.finish(now));
        }
        if self.is_due {
            return Some(self.tick_at_once());
        }
        if now.duration_since(self.ticked) >= self.period {
            return self.tick(now);
        }
        if let Some(step) = self.take_silent(now) {
            return Some(step);
        }
        self.take_ready(now, buf)
    }

    // A step of the socket that has its turn. The system is asked for more after each round.
    fn take_ready(&mut self, now: Instant, buf: &mut [u8]) -> Option<ServerStep>
        ensures lawful { IfLawful (standing self.old) (standing self.new) (length buf.new) result }
        ensures bounded { IfSome result (IsBounded (ready_in (line self.new)) (framings self.new) buf.new) }
        ensures turns { HasTurns (standing self.old).listeners result (line self.old) (line self.new) }
        ensures serves { 0 < self.old.round → ServesAny (line self.old) (line self.new) }
        ensures asks { self.old.round ≡ 0 → IfNone result (Asks self.old self.new) }
    {
        let Some(round) = self.round.checked_sub(1) else {
            return self.ask(now);
        };
        self.round = round;
        match self.ready.next() {
            Some(chosen) => self.take(chosen, now, buf),
            None => None,
        }
    }

    /// The next step.
    pub(crate) fn next_step(&mut self, buf: &mut [u8]) -> ServerStep
        ensures lawful { IsLawful (standing self.old) (standing self.new) (length buf.new) result }
        ensures bounded { IsBounded (ready_in (line self.new)) (framings self.new) buf.new result }
        ensures turns { HasTurns (standing self.old).listeners (Some result) (line self.old) (line self.new) }
    {
        if buf.is_empty() {
            return ServerStep::Failed(SourceFault::NoRoom);
        }
        for _turn in 0..u64::MAX {
            if let Some(step) = self.turn(buf) {
                self.is_due = self.at_once & reads_octets(step);
                return step;
            }
        }
        ServerStep::Failed(SourceFault::Endless)
    }
}

impl<'a, R: Net + Files + Clock> Sockets<'a, R> {
    ghost use Rattle.std.specs.Prelude.{map};
    ghost use Rattle.peer_rules.specs.AllowLists.{networks_of};
    ghost use Rattle.socket_source.specs.Kinds.{is_datagrams};
    ghost use Rattle.socket_source.specs.Standings.{standing};

    /// Opens the sockets of all listeners, in their order.
    pub(crate) fn open(
        rt: &'a R,
        alloc: Global,
        listeners: &[Listener<'_>],
        allowed: AllowList,
        rates: Option<Rates>,
        options: SourceOptions,
    ) -> Result<Sockets<'a, R>, OpenFault>
        ensures vacant { IfOk result (λ sockets. IsVacant (standing sockets)
            (max 1 (min options.connections CONNECTIONS_MAX)) (length listeners.now)
            (networks_of allowed)) }
        ensures kinds { IfOk result (λ sockets. sockets.ready.kinds.items
            ≡ map is_datagrams sockets.held.listeners.items) }
        ensures told { IfErr result (IsFaultOf (length listeners.now) options.until_eof) }
    {
        if let Err(fault) = check_descriptors(listeners) {
            return Err(fault);
        }
        let poll = Poll::new(rt).map_err(OpenFault::System)?;
        let now = Instant::now(rt).map_err(OpenFault::System)?;
        let registry = poll.registry();
        let bound = match open_listeners(rt, alloc, registry, listeners, options.receive_buffer) {
            Ok(bound) => bound,
            Err(fault) => return Err(fault),
        };
        if options.until_eof {
            watch_input(poll.registry(), INPUT_NUMBER).map_err(OpenFault::Input)?;
        }
        let limit = options.connections.clamp(1, CONNECTIONS_MAX);
        let numbers = listener_number(bound.len()).saturating_add(limit);
        let ready = ReadySockets::new(alloc, numbers, bound.as_slice())?;
        Ok(Sockets {
            rt,
            held: OpenSockets {
                poll,
                listeners: bound,
                connections: Connections::new(alloc, limit, options.per_peer, now)?,
                allowed,
                pace: Pace::new(rates, now),
                spare: spare_descriptor(),
                arrived: None,
            },
            events: Events::with_capacity(alloc, REPORTED_MAX)?,
            ready,
            round: 0,
            later: false,
            slowed: ReadyQueue::new(alloc, numbers)?,
            slowed_since: now,
            period: options.period.max(Duration::from_millis(PERIOD_MIN_MILLIS)),
            ticked: now,
            at_once: options.period.is_zero(),
            is_due: false,
            early: 0,
            sweeping_since: now,
            idle: options.idle,
            swept: limit,
            input: InputState::Open,
        })
    }
}
