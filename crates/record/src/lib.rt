// Records of a trace: document 01, "Replay program". Any bytes go in; what comes out equals a definition of specs/Records.antt.
// A record is read from the rest of the trace, a list that starts at it, so that places are small constants.
#![tactic(auto)]

ghost use Rattle.std.specs.Prelude.{◌≡◌, ◌+◌, ◌≤◌, length};
ghost use Rattle.record.specs.Records.{rto_at, free_zero, address_at, transport_of, settings_of, body_of, record_of, short_of};

use address::{Address, Host};
use message::TransactionId;
use model::{Call, StunAgentBuilder};
use waits::{RequestRto, Transport};

// A body: settings, or a call and the place in the record behind its fixed part.
#[derive(Clone, Copy, Debug, PartialEq, Eq)]
enum Body {
    Settings(StunAgentBuilder),
    Asks { call: Call, start: usize },
}

// What stands at the start of the rest of a trace: settings; a call whose message, perhaps none, goes from `start` to `end`, where the
// next record starts. No `Body` with an end beside it: `record_of` promises this one, and docs/STATEMENTS.md names it.
#[derive(Clone, Copy, Debug, PartialEq, Eq)]
pub enum Record {
    Settings {
        builder: StunAgentBuilder,
        end: usize,
    },
    Whole {
        call: Call,
        start: usize,
        end: usize,
    },
}

// The mark that a record starts with.
const MARK: u16 = 0xa55a;

// The mark, the kind and the length: what stands before a body.
const HEAD: usize = 5;

// The most bytes that a body has.
const LONGEST: usize = 4096;

#[tactic(auto, unfolding(crate::specs::Records::rto_at))]
fn rto_at(s: &[u8], at: usize) -> RequestRto
    requires { at + 28 ≤ length s.now }
    ensures { result ≡ rto_at s.now at }
{
    RequestRto {
        initial: wire::read(s, at),
        max: wire::read(s, at + 8),
        retransmits: wire::read(s, at + 16),
        last_retransmit: wire::read(s, at + 20),
    }
}

// Whether what an IPv4 address leaves free is zero.
#[tactic(auto, unfolding(crate::specs::Records::free_zero))]
fn free_zero(s: &[u8], at: usize) -> bool
    requires { at + 27 ≤ length s.now }
    ensures { result ≡ free_zero s.now at }
{
    wire::read::<u64>(s, at + 7) == 0
        && wire::read::<u32>(s, at + 15) == 0
        && wire::read::<u64>(s, at + 19) == 0
}

#[tactic(auto, unfolding(crate::specs::Records::address_at))]
fn address_at(s: &[u8], at: usize) -> Option<Address>
    requires { at + 27 ≤ length s.now }
    ensures { result ≡ address_at s.now at }
{
    let host = match s[at] {
        4 if free_zero(s, at) => Host::V4(wire::read(s, at + 3)),
        6 => Host::V6 {
            hi: wire::read(s, at + 3),
            lo: wire::read(s, at + 11),
            flow: wire::read(s, at + 19),
            scope: wire::read(s, at + 23),
        },
        _ => return None,
    };
    Some(Address {
        host,
        port: wire::read(s, at + 1),
    })
}

// This and the kinds below are the trace's own numbers; they are read here alone. No `From`: the type is
// another crate's.
fn transport_of(code: u8) -> Transport
    ensures { result ≡ transport_of code }
{
    match code {
        1 => Transport::Tcp,
        _ => Transport::Udp,
    }
}

#[tactic(auto, unfolding(crate::specs::Records::settings_of))]
fn settings_of(s: &[u8]) -> Option<Body>
    ensures { result ≡ settings_of s.now }
{
    if s.len() != 30 || 1 < s[0] || 1 < s[1] {
        return None;
    }
    Some(Body::Settings(StunAgentBuilder {
        transport: transport_of(s[0]),
        rto: rto_at(s, 2),
        stats: s[1] == 1,
    }))
}

// Each kind by its number and the lengths that it may have. Beside the call stands how long the fixed part is: the message follows it.
#[tactic(auto, unfolding(crate::specs::Records::body_of, crate::specs::Records::timed_of, crate::specs::Records::untimed_of, crate::specs::Records::clock_of, crate::specs::Records::named_of, crate::specs::Records::configure_of, crate::specs::Records::peer_of, crate::specs::Records::plain_of))]
fn body_of(kind: u8, s: &[u8]) -> Option<Body>
    ensures { result ≡ body_of kind s.now }
{
    let (call, fixed) = match (kind, s.len()) {
        (1, _) => return settings_of(s),
        (2, 35..) => (
            Call::SendRequest {
                to: address_at(s, 8)?,
                now: wire::read(s, 0),
            },
            35,
        ),
        (3, 27..) => (
            Call::Send {
                to: address_at(s, 0)?,
            },
            27,
        ),
        (4, 35..) => (
            Call::HandleStunMessageWithTime {
                from: address_at(s, 8)?,
                now: wire::read(s, 0),
            },
            35,
        ),
        (5, 27..) => (
            Call::HandleStunMessage {
                from: address_at(s, 0)?,
            },
            27,
        ),
        (6, 8) => (
            Call::PollTransmit {
                now: wire::read(s, 0),
            },
            8,
        ),
        (7, 8) => (
            Call::Poll {
                now: wire::read(s, 0),
            },
            8,
        ),
        (8, 12) => (
            Call::CancelRetransmissions {
                id: TransactionId::from_bytes(s, 0),
            },
            12,
        ),
        (9, 12) => (
            Call::Cancel {
                id: TransactionId::from_bytes(s, 0),
            },
            12,
        ),
        (10, 40) => (
            Call::ConfigureTimeoutWithMax {
                id: TransactionId::from_bytes(s, 0),
                rto: rto_at(s, 12),
            },
            40,
        ),
        (11, 27) => (
            Call::IsValidatedPeer {
                addr: address_at(s, 0)?,
            },
            27,
        ),
        (12, 27) => (
            Call::ValidatedPeer {
                addr: address_at(s, 0)?,
            },
            27,
        ),
        (13, 0) => (Call::Stats, 0),
        (14, 0) => (Call::Reset, 0),
        (15, 12) => (
            Call::RequestTransaction {
                id: TransactionId::from_bytes(s, 0),
            },
            12,
        ),
        _ => return None,
    };
    Some(Body::Asks {
        call,
        start: HEAD + fixed,
    })
}

// The record at the start of the rest of a trace.
#[tactic(auto, unfolding(crate::specs::Records::record_of, crate::specs::Records::framed))]
pub fn record_of(rest: &[u8]) -> Option<Record>
    ensures { result ≡ record_of rest.now }
{
    if rest.len() < HEAD || wire::read::<u16>(rest, 0) != MARK {
        return None;
    }
    let len = usize::from(wire::read::<u16>(rest, 3));
    if LONGEST < len {
        return None;
    }
    let end = HEAD + len;
    let body = rest.get(HEAD..end)?;
    Some(match body_of(rest[2], body)? {
        Body::Settings(builder) => Record::Settings { builder, end },
        Body::Asks { call, start } => Record::Whole { call, start, end },
    })
}

// Whether the head of the record, or the body that it announces, is cut short: false of a whole one.
#[tactic(auto, unfolding(crate::specs::Records::short_of))]
pub fn short_of(rest: &[u8]) -> bool
    ensures { result ≡ short_of rest.now }
{
    rest.len() < HEAD || rest.len() < HEAD + usize::from(wire::read::<u16>(rest, 3))
}
