// Copyright (C) 2020 Matthew Waters <matthew@centricular.com>
// SPDX-License-Identifier: MIT OR Apache-2.0
// ported to Rattle, changed
//
// The agent's calls over the table and the store that the host lends. The types are the model's, which is another crate, so that the
// Rust's methods are functions here.
#![tactic(auto)]

ghost use Rattle.std.specs.Prelude.{◌≡◌, None, Some};
ghost use Rattle.model.specs.Calls.{ask, validate, numbers, mean, unsettled, anew, carries, scans, names, meets, counts, sends, transmits, reports, silence, cancel, configure, query, short_form};
ghost use Rattle.model.specs.Accepts.{is_response};
ghost use Rattle.model.specs.Effects.{sent_as, received_as, handed_out};
ghost use Rattle.model.specs.Refusals.{is_request};
ghost use Rattle.model.specs.Fresh.{unset, build_of};
ghost use Rattle.agent.specs.Ready.{ready, Lent, HandsOut};
ghost use Rattle.agent.specs.Called.{called_of, counted, refused_with, settled, noted, at_clock, on_receipt, rtt_by, Timely, Everywhere, Counting, Meeting, Carrying, Looking, Turning, Changing, Submitting, Receiving};
ghost use Rattle.agent.specs.Said.{nowhere, address_in, Dispatched};

use address::{Address, Host};
use message::{Message, MessageClass, TransactionId};
use model::{Answer, Call, Refusal, StunAgent, StunAgentBuilder};
use records::WIDTH;
use request::StunRequestState;
use requests::Polled;
use stats::{Event, StunAgentStats};
use store::{ROW, ROWS};
use waits::{LONGEST, RequestRto, Transport};

// The highest clock that a call may carry.
const LAST_CLOCK: u64 = 1 << 60;

// ---- a fresh agent

// `StunAgent::builder`
pub fn builder(transport: Transport) -> StunAgentBuilder
    ensures { result ≡ unset transport }
{
    StunAgentBuilder {
        transport,
        rto: RequestRto::default(),
        stats: false,
    }
}

pub fn request_retransmits(
    builder: StunAgentBuilder,
    initial: u64,
    max: u64,
    retransmits: u32,
    last_retransmit: u64,
) -> StunAgentBuilder
    ensures { result ≡ record {
      transport = builder.transport;
      rto = record { initial = initial; max = max; retransmits = retransmits; last_retransmit = last_retransmit };
      stats = builder.stats;
    } }
{
    StunAgentBuilder {
        rto: RequestRto {
            initial,
            max,
            retransmits,
            last_retransmit,
        },
        ..builder
    }
}

pub fn stats(builder: StunAgentBuilder, stats: bool) -> StunAgentBuilder
    ensures { result ≡ record { transport = builder.transport; rto = builder.rto; stats = stats } }
{
    StunAgentBuilder { stats, ..builder }
}

#[tactic(auto, using(model::proofs::Default::build_fresh, model::proofs::Default::build_refused))]
pub fn build(builder: StunAgentBuilder) -> Result<(StunAgent, Event), Refusal>
    ensures { result ≡ build_of builder }
{
    if !builder.rto.within_limits() {
        return Err(Refusal::Settings);
    }
    let agent = StunAgent {
        transport: builder.transport,
        stats: builder.stats,
        rto: builder.rto,
        mark: 0,
        requests: 0,
        peers: 0,
    };
    Ok((agent, event_of(agent, Event::Reset)))
}

// ---- the state

// Whether a call may start from this state: what refusal 1 tests. A table shorter than its rows is no state that is well formed.
#[tactic(auto, unfolding(crate::specs::Ready::ready))]
fn is_ready(agent: StunAgent, places: usize, table: &[u64], store: &[u8]) -> bool
    ensures { result ≡ ready agent places table.now store.now }
{
    table.len() >= ROWS * WIDTH
        && store.len() >= ROWS * ROW
        && agent.peers <= places
        && agent.mark <= LAST_CLOCK
        && agent.rto.within_limits()
        && formed::is_formed(table, agent.requests, agent.mark)
}

// The bytes of a transmission, as a part of the store and no copy.
#[tactic(auto, using(crate::proofs::Ready::handed))]
pub fn transmission<'a>(
    agent: StunAgent,
    places: usize,
    table: &[u64],
    store: &'a [u8],
    row: usize,
    len: usize,
) -> &'a [u8]
    ensures { HandsOut agent places table.now store.now row len result.now }
{
    if !is_ready(agent, places, table, store) || !formed::in_use(table, agent.requests, row, len) {
        return &store[..0];
    }
    store::part(store, row, len)
}

// ---- the calls

// What a call leaves: the agent, its answer, the event to count, and where in the lent list the call's address goes as a new peer.
#[derive(Clone, Copy, Debug, PartialEq, Eq)]
pub struct Called {
    pub agent: StunAgent,
    pub answer: Answer,
    pub event: Event,
    pub place: Option<usize>,
}

// The event counts where statistics are on.
fn done(agent: StunAgent, answer: Answer, event: Event, place: Option<usize>) -> Called
    ensures { result ≡ called_of agent answer (noted agent event) place }
{
    Called {
        agent,
        answer,
        event: event_of(agent, event),
        place,
    }
}

// A call that changes nothing.
fn refused(agent: StunAgent, refusal: Refusal) -> Called
    ensures { result ≡ refused_with agent refusal }
{
    done(agent, Answer::Refused(refusal), Event::Nothing, None)
}

// What is known of the address that a call carries: whether it is a peer, and how many places the lent list has.
#[derive(Clone, Copy, Debug, PartialEq, Eq)]
struct Contact {
    known: bool,
    places: usize,
}

impl Contact {
    ghost use Rattle.agent.specs.Called.{admitted};

    // The agent with this address among its peers, and the place of a new one: refusal 10.
    #[tactic(auto, unfolding(crate::specs::Called::admitted))]
    fn admitted(self, agent: StunAgent) -> Result<(StunAgent, Option<usize>), Refusal>
        ensures { result ≡ admitted self agent }
    {
        if self.known {
            return Ok((agent, None));
        }
        if self.places <= agent.peers {
            return Err(Refusal::PeersFull);
        }
        let next = StunAgent {
            peers: agent.peers + 1,
            ..agent
        };
        Ok((next, Some(agent.peers)))
    }
}

fn is_validated_peer(agent: StunAgent, addr: Address, contact: Contact) -> Called
    ensures { Meeting agent addr contact.known contact.places (meets addr ask) result }
{
    if contact.known {
        return done(agent, Answer::Yes, Event::Nothing, None);
    }
    done(agent, Answer::No, Event::Nothing, None)
}

#[tactic(auto, using(crate::proofs::Calls::meets_full, crate::proofs::Calls::meets_new))]
fn validated_peer(agent: StunAgent, addr: Address, contact: Contact) -> Result<Called, Refusal>
    ensures { Meeting agent addr contact.known contact.places (meets addr validate) (settled agent result) }
{
    let (next, place) = contact.admitted(agent)?;
    Ok(done(next, Answer::Ok, Event::Nothing, place))
}

// The record where statistics are on: refusal 11.
fn counted(agent: StunAgent, was: StunAgentStats) -> Result<StunAgentStats, Refusal>
    ensures { result ≡ counted agent was }
{
    if !agent.stats {
        return Err(Refusal::NoStats);
    }
    Ok(was)
}

// `StunAgent::stats`
#[tactic(auto, using(crate::proofs::Calls::counts_on, crate::proofs::Calls::counts_off))]
fn read_stats(agent: StunAgent, was: StunAgentStats) -> Result<Called, Refusal>
    ensures { Counting agent was (counts numbers) (settled agent result) }
{
    let answer = Answer::Stats(counted(agent, was)?);
    Ok(done(agent, answer, Event::Nothing, None))
}

#[tactic(auto, using(crate::proofs::Calls::counts_mean, crate::proofs::Calls::counts_off))]
fn rtt_average(agent: StunAgent, was: StunAgentStats) -> Result<Called, Refusal>
    ensures { Counting agent was (counts mean) (settled agent result) }
{
    let answer = Answer::Average(counted(agent, was)?.rtt_average());
    Ok(done(agent, answer, Event::Nothing, None))
}

#[tactic(auto, using(crate::proofs::Calls::counts_settled, crate::proofs::Calls::counts_unsettled, crate::proofs::Calls::counts_off))]
fn outstanding_requests(agent: StunAgent, was: StunAgentStats) -> Result<Called, Refusal>
    ensures { Counting agent was (counts unsettled) (settled agent result) }
{
    let n = counted(agent, was)?
        .outstanding_requests()
        .ok_or(Refusal::Counts)?;
    Ok(done(agent, Answer::Outstanding(n), Event::Nothing, None))
}

#[tactic(auto, using(crate::proofs::Calls::counts_on, crate::proofs::Calls::counts_off))]
fn reset(agent: StunAgent, was: StunAgentStats) -> Result<Called, Refusal>
    ensures { Everywhere agent (counts anew) (settled agent result) }
{
    counted(agent, was)?;
    Ok(done(agent, Answer::Ok, Event::Reset, None))
}

// The event, where statistics are on.
fn event_of(agent: StunAgent, event: Event) -> Event
    ensures { result ≡ noted agent event }
{
    if agent.stats { event } else { Event::Nothing }
}

fn is_request(class: MessageClass) -> bool
    ensures { result ≡ is_request class }
{
    class == MessageClass::Request
}

fn sent_as(n: u64, class: MessageClass) -> Event
    ensures { result ≡ sent_as n class }
{
    match class {
        MessageClass::Request => Event::Nothing,
        MessageClass::Indication => Event::IndicationSent(n),
        MessageClass::Success | MessageClass::Error => Event::ResponseSent(n),
    }
}

#[tactic(auto, using(crate::proofs::Sends::sends_bad, crate::proofs::Sends::sends_request, crate::proofs::Sends::sends_other))]
fn send(agent: StunAgent, to: Address, message: &[u8]) -> Result<Called, Refusal>
    ensures { Carrying agent (carries (sends to)) message.now (settled agent result) }
{
    let x = Message::from_bytes(message).ok_or(Refusal::BadMessage)?;
    if is_request(x.class) {
        return Err(Refusal::WrongClass);
    }
    let event = sent_as(message.len() as u64, x.class);
    Ok(done(agent, Answer::Ok, event, None))
}

// ---- the calls over the table: one request

// Agent and table stay two parameters. A struct of both was tried: by value the borrow checker doesn't cover it, and by `&mut` its
// invariant stayed open after each change of the table or of the count.

#[tactic(auto, using(crate::proofs::Table::searchable, crate::proofs::Named::looks_found, crate::proofs::Named::looks_none))]
fn request_transaction(
    agent: StunAgent,
    table: &[u64],
    id: TransactionId,
) -> Result<Called, Refusal>
    requires { Lent agent table.now }
    ensures { Looking agent table.now (names id query) (settled agent result) }
{
    let (_, q) = table::find(table, agent.requests, id).ok_or(Refusal::NoRequest)?;
    let answer = Answer::Request {
        to: q.to,
        integrity: q.request_integrity,
    };
    Ok(done(agent, answer, Event::Nothing, None))
}

// The calls that change one request.
#[tactic(auto, using(crate::proofs::Table::searchable, crate::proofs::Table::found_place))]
fn change<F: FnOnce(StunRequestState) -> StunRequestState>(
    agent: StunAgent,
    table: &mut [u64],
    id: TransactionId,
    alter: F,
) -> Result<Called, Refusal>
    requires lent { Lent agent table.old }
    requires callable { F.IsAlwaysCallable alter }
    ensures { Changing agent id (F.post alter) table.old table.new result }
{
    let (at, q) = table::find(table, agent.requests, id).ok_or(Refusal::NoRequest)?;
    table::replace(table, agent.requests, at, alter(q));
    Ok(done(agent, Answer::Ok, Event::Nothing, None))
}

fn cancel_retransmissions(
    agent: StunAgent,
    table: &mut [u64],
    id: TransactionId,
) -> Result<Called, Refusal>
    requires { Lent agent table.old }
    ensures { Turning agent (names id silence) table.old table.new (settled agent result) }
{
    change(agent, table, id, |q| q.cancel_retransmissions())
}

fn cancel(agent: StunAgent, table: &mut [u64], id: TransactionId) -> Result<Called, Refusal>
    requires { Lent agent table.old }
    ensures { Turning agent (names id cancel) table.old table.new (settled agent result) }
{
    change(agent, table, id, |q| q.cancel())
}

fn configure_timeout_with_max(
    agent: StunAgent,
    table: &mut [u64],
    id: TransactionId,
    rto: RequestRto,
) -> Result<Called, Refusal>
    requires { Lent agent table.old }
    ensures { Turning agent (names id (configure rto)) table.old table.new (settled agent result) }
{
    if !rto.within_limits() {
        return Err(Refusal::Settings);
    }
    change(agent, table, id, |q| q.configure_timeout_with_max(rto))
}

fn configure_timeout(
    agent: StunAgent,
    table: &mut [u64],
    id: TransactionId,
    initial: u64,
    retransmits: u32,
    last_retransmit: u64,
) -> Result<Called, Refusal>
    requires { Lent agent table.old }
    ensures { Turning agent (names id (configure (short_form initial retransmits last_retransmit))) table.old table.new (settled agent result) }
{
    let rto = RequestRto {
        initial,
        max: LONGEST,
        retransmits,
        last_retransmit,
    };
    configure_timeout_with_max(agent, table, id, rto)
}

// ---- the calls over the table: the passing of time

// The agent at a clock: refusal 3.
#[tactic(auto, unfolding(crate::specs::Called::at_clock))]
fn at_clock(agent: StunAgent, clock: u64) -> Result<StunAgent, Refusal>
    ensures { result ≡ at_clock agent clock }
{
    if clock > LAST_CLOCK || clock < agent.mark {
        return Err(Refusal::Clock);
    }
    Ok(StunAgent {
        mark: clock,
        ..agent
    })
}

// The Rust's `Transmit`.
fn handed_out(request: StunRequestState) -> Answer
    ensures { result ≡ handed_out request }
{
    Answer::Send {
        id: request.transaction_id,
        to: request.to,
        row: request.row,
        len: request.len,
    }
}

#[tactic(auto, using(crate::proofs::Ready::few, crate::proofs::Table::all_within_lem))]
fn poll_transmit(agent: StunAgent, table: &mut [u64], clock: u64) -> Result<Called, Refusal>
    requires { Lent agent table.old }
    ensures { Turning agent (scans transmits clock) table.old table.new (settled agent result) }
{
    let next = at_clock(agent, clock)?;
    match table::poll_transmit(table, agent.requests, agent.transport, clock) {
        Some(q) => {
            let event = Event::RetransmitBytes(q.len as u64);
            Ok(done(next, handed_out(q), event, None))
        }
        None => Ok(done(next, Answer::None, Event::Nothing, None)),
    }
}

// The arms of a request that ends are alike but for what they report; tried as one behind the match, and the proof didn't close.
#[tactic(auto, using(crate::proofs::Table::polled))]
fn poll(agent: StunAgent, table: &mut [u64], clock: u64) -> Result<Called, Refusal>
    requires { Lent agent table.old }
    ensures { Turning agent (scans reports clock) table.old table.new (settled agent result) }
{
    let mut next = at_clock(agent, clock)?;
    match table::poll(table, agent.requests, agent.transport, clock) {
        Polled::TimedOut { place, id } => {
            table::remove(table, agent.requests, place);
            next.requests -= 1;
            Ok(done(next, Answer::TimedOut(id), Event::TimedOut, None))
        }
        Polled::Cancelled { place, id } => {
            table::remove(table, agent.requests, place);
            next.requests -= 1;
            Ok(done(next, Answer::Cancelled(id), Event::Cancelled, None))
        }
        Polled::WaitUntil(w) => Ok(done(next, Answer::Wait(w), Event::Nothing, None)),
    }
}

// ---- the calls over the table: a new request

// "`send_request` stores the bytes and hands out the first transmission itself."
#[tactic(auto, using(crate::proofs::Table::searchable, crate::proofs::Ready::few, crate::proofs::Table::same_count, crate::proofs::Submits::fewer))]
fn send_request(
    agent: StunAgent,
    table: &mut [u64],
    store: &mut [u8],
    to: Address,
    clock: u64,
    message: &[u8],
) -> Result<Called, Refusal>
    requires { Lent agent table.old }
    ensures { Submitting agent to clock message.now table.old store.old table.new store.new (settled agent result) }
{
    let mut next = at_clock(agent, clock)?;
    let len = message.len();
    if len > ROW {
        return Err(Refusal::TooLong);
    }
    let x = Message::from_bytes(message).ok_or(Refusal::BadMessage)?;
    if !is_request(x.class) {
        return Err(Refusal::WrongClass);
    }
    let n = agent.requests;
    let id = x.transaction_id;
    if table::find(table, n, id).is_some() {
        return Err(Refusal::InProgress);
    }
    // 32 requests have all the rows, and fewer leave one free.
    let row = formed::free_row(table, n).ok_or(Refusal::TableFull)?;
    let q = StunRequestState::submitted(
        agent.transport,
        clock,
        id,
        x.integrity,
        row,
        len,
        to,
        agent.rto,
    );
    store::copy(store, row, message);
    let at = table::place(table, n, id);
    table::insert(table, n, at, q);
    next.requests += 1;
    let event = Event::RequestSent(len as u64);
    Ok(done(next, handed_out(q), event, None))
}

// ---- received messages

// A received message comes with a clock or without.
#[tactic(auto, unfolding(crate::specs::Called::on_receipt, crate::specs::Called::at_clock))]
fn on_receipt(agent: StunAgent, clock: Option<u64>) -> Result<StunAgent, Refusal>
    ensures { result ≡ on_receipt agent clock }
{
    match clock {
        Some(now) => at_clock(agent, now),
        None => Ok(agent),
    }
}

fn round_trip(clock: Option<u64>, request: StunRequestState) -> Option<u64>
    requires { Timely clock request }
    ensures { result ≡ rtt_by clock request }
{
    request.round_trip(clock?)
}

fn is_response(class: MessageClass) -> bool
    ensures { result ≡ is_response class }
{
    matches!(class, MessageClass::Success | MessageClass::Error)
}

fn received_as(n: u64, rtt: Option<u64>, class: MessageClass) -> Event
    ensures { result ≡ received_as n rtt class }
{
    match class {
        MessageClass::Request => Event::RequestReceived(n),
        MessageClass::Indication => Event::IndicationReceived(n),
        MessageClass::Success | MessageClass::Error => Event::ResponseReceived(n, rtt),
    }
}

// The Rust's function of this name.
#[tactic(auto, using(crate::proofs::Received::received))]
fn handle_stun_message_internal(
    agent: StunAgent,
    table: &mut [u64],
    from: Address,
    clock: Option<u64>,
    contact: Contact,
    message: &[u8],
) -> Result<Called, Refusal>
    requires { Lent agent table.old }
    ensures { Receiving agent from contact.known contact.places clock message.now table.old table.new (settled agent result) }
{
    let next = on_receipt(agent, clock)?;
    let x = Message::from_bytes(message).ok_or(Refusal::BadMessage)?;
    let len = message.len() as u64;
    if !is_response(x.class) {
        let (next, place) = contact.admitted(next)?;
        let event = received_as(len, None, x.class);
        return Ok(done(next, Answer::Yes, event, place));
    }
    let Some((at, q)) = table::find(table, agent.requests, x.transaction_id) else {
        return Ok(done(next, Answer::No, Event::Nothing, None));
    };
    let (mut next, place) = contact.admitted(next)?;
    let event = received_as(len, round_trip(clock, q), x.class);
    table::remove(table, agent.requests, at);
    next.requests -= 1;
    Ok(done(next, Answer::Yes, event, place))
}

// The Rust's two handlers, by their names; the function above is what they share.
fn handle_stun_message_with_time(
    agent: StunAgent,
    table: &mut [u64],
    from: Address,
    clock: u64,
    contact: Contact,
    message: &[u8],
) -> Result<Called, Refusal>
    requires { Lent agent table.old }
    ensures { Receiving agent from contact.known contact.places (Some clock) message.now table.old table.new (settled agent result) }
{
    handle_stun_message_internal(agent, table, from, Some(clock), contact, message)
}

fn handle_stun_message(
    agent: StunAgent,
    table: &mut [u64],
    from: Address,
    contact: Contact,
    message: &[u8],
) -> Result<Called, Refusal>
    requires { Lent agent table.old }
    ensures { Receiving agent from contact.known contact.places None message.now table.old table.new (settled agent result) }
{
    handle_stun_message_internal(agent, table, from, None, contact, message)
}

// ---- every call

// The address where a call carries none. `replay` fills places with the same literal, which is not for this function to promise.
fn nowhere() -> Address
    ensures { result ≡ nowhere }
{
    Address {
        host: Host::V4(0),
        port: 0,
    }
}

// The address that a call carries.
pub fn address_of(call: Call) -> Address
    ensures { result ≡ address_in call }
{
    match call {
        Call::SendRequest { to, .. } | Call::Send { to } => to,
        Call::HandleStunMessageWithTime { from, .. } | Call::HandleStunMessage { from } => from,
        Call::IsValidatedPeer { addr } | Call::ValidatedPeer { addr } => addr,
        Call::PollTransmit { .. }
        | Call::Poll { .. }
        | Call::CancelRetransmissions { .. }
        | Call::Cancel { .. }
        | Call::ConfigureTimeout { .. }
        | Call::ConfigureTimeoutWithMax { .. }
        | Call::RequestTransaction { .. }
        | Call::Stats
        | Call::RttAverage
        | Call::OutstandingRequests
        | Call::Reset => nowhere(),
    }
}

// Any call, behind the test of the state: one arm each, since the calls differ in what they take.
#[tactic(auto, using(crate::proofs::Ready::ready_says))]
fn perform(
    agent: StunAgent,
    call: Call,
    contact: Contact,
    was: StunAgentStats,
    message: &[u8],
    table: &mut [u64],
    store: &mut [u8],
) -> Result<Called, Refusal>
    ensures { Dispatched agent call contact.known contact.places was message.now table.old store.old table.new store.new (settled agent result) }
{
    if !is_ready(agent, contact.places, table, store) {
        return Err(Refusal::State);
    }
    match call {
        Call::SendRequest { to, now } => send_request(agent, table, store, to, now, message),
        Call::Send { to } => send(agent, to, message),
        Call::HandleStunMessageWithTime { from, now } => {
            handle_stun_message_with_time(agent, table, from, now, contact, message)
        }
        Call::HandleStunMessage { from } => {
            handle_stun_message(agent, table, from, contact, message)
        }
        Call::PollTransmit { now } => poll_transmit(agent, table, now),
        Call::Poll { now } => poll(agent, table, now),
        Call::CancelRetransmissions { id } => cancel_retransmissions(agent, table, id),
        Call::Cancel { id } => cancel(agent, table, id),
        Call::ConfigureTimeout {
            id,
            initial,
            retransmits,
            last_retransmit,
        } => configure_timeout(agent, table, id, initial, retransmits, last_retransmit),
        Call::ConfigureTimeoutWithMax { id, rto } => {
            configure_timeout_with_max(agent, table, id, rto)
        }
        Call::RequestTransaction { id } => request_transaction(agent, table, id),
        Call::IsValidatedPeer { addr } => Ok(is_validated_peer(agent, addr, contact)),
        Call::ValidatedPeer { addr } => validated_peer(agent, addr, contact),
        Call::Stats => read_stats(agent, was),
        Call::RttAverage => rtt_average(agent, was),
        Call::OutstandingRequests => outstanding_requests(agent, was),
        Call::Reset => reset(agent, was),
    }
}

// Any call, of an agent and what the host lends, but for the peers and the record: `known` says whether the call's address is a peer,
// `was` is the record. They are parameters of their own, as `entry` has them and docs/STATEMENTS.md names them. What is left to do is in
// the answer: the event to count, and the place of a new peer.
pub fn dispatch(
    agent: StunAgent,
    call: Call,
    known: bool,
    places: usize,
    was: StunAgentStats,
    message: &[u8],
    table: &mut [u64],
    store: &mut [u8],
) -> Called
    ensures { Dispatched agent call known places was message.now table.old store.old table.new store.new result }
{
    perform(
        agent,
        call,
        Contact { known, places },
        was,
        message,
        table,
        store,
    )
    .unwrap_or_else(|refusal| refused(agent, refusal))
}
