// Copyright (C) 2020 Matthew Waters <matthew@centricular.com>
// SPDX-License-Identifier: MIT OR Apache-2.0
// ported to Rattle, changed
//
// The agent's plain types: `StunAgent` and its builder, its calls and their answers. Here is little code: specs/ says of a world, a
// call and a message what the answer is and which world is left, and proofs/ has the theorems. The agent's code is held to it.
#![tactic(auto)]

ghost use Rattle.std.specs.Prelude.{◌≡◌};
ghost use Rattle.model.specs.Refusals.{number_of};

use address::Address;
use message::{IntegrityAlgorithm, TransactionId};
use stats::StunAgentStats;
use waits::{RequestRto, Transport};

// The requests lie in the table that the host lends, the peers in its list, and the statistics in its record: here are how many there
// are of either, and whether statistics are on. `rto` stands for the Rust's `request_timeouts` and `last_retransmit_timeout`; `mark`
// is the highest clock that an unrefused call carried. `stats` is a flag and no `Option` of a record: the host lends its record in either
// case.
#[derive(Clone, Copy, Debug, PartialEq, Eq)]
pub struct StunAgent {
    pub transport: Transport,
    pub stats: bool,
    pub rto: RequestRto,
    pub mark: u64,
    pub requests: usize,
    pub peers: usize,
}

#[derive(Clone, Copy, Debug, PartialEq, Eq)]
pub struct StunAgentBuilder {
    pub transport: Transport,
    pub rto: RequestRto,
    pub stats: bool,
}

// Why a call is refused, with the numbers of document 01's table.
#[derive(Clone, Copy, Debug, PartialEq, Eq)]
pub enum Refusal {
    State = 1,
    Settings = 2,
    Clock = 3,
    TooLong = 4,
    BadMessage = 5,
    WrongClass = 6,
    InProgress = 7,
    TableFull = 8,
    NoRequest = 9,
    PeersFull = 10,
    NoStats = 11,
    Counts = 12,
}

impl Refusal {
    // What a trace's line says.
    pub fn number(self) -> u64
        ensures { result ≡ number_of self }
    {
        self as u64
    }
}

// The Rust's methods, those of `StunRequestMut` with the identifier. Four of them come with the bytes of a message.
#[derive(Clone, Copy, Debug, PartialEq, Eq)]
pub enum Call {
    SendRequest {
        to: Address,
        now: u64,
    },
    Send {
        to: Address,
    },
    HandleStunMessageWithTime {
        from: Address,
        now: u64,
    },
    HandleStunMessage {
        from: Address,
    },
    PollTransmit {
        now: u64,
    },
    Poll {
        now: u64,
    },
    CancelRetransmissions {
        id: TransactionId,
    },
    Cancel {
        id: TransactionId,
    },
    // the maximum is 2^61
    ConfigureTimeout {
        id: TransactionId,
        initial: u64,
        retransmits: u32,
        last_retransmit: u64,
    },
    ConfigureTimeoutWithMax {
        id: TransactionId,
        rto: RequestRto,
    },
    RequestTransaction {
        id: TransactionId,
    },
    IsValidatedPeer {
        addr: Address,
    },
    ValidatedPeer {
        addr: Address,
    },
    Stats,
    RttAverage,
    OutstandingRequests,
    Reset,
}

// No `Result` of an answer and a refusal: the theorems of specs/ and of `runs` speak of all that a call may answer as one type, and of
// `answer.Refused`. `None` is what the Rust's `poll_transmit` answers.
#[derive(Clone, Copy, Debug, PartialEq, Eq)]
pub enum Answer {
    Refused(Refusal),
    Ok,
    Yes,
    No,
    None,
    // the Rust's `Transmit`: the bytes are the first `len` of the row
    Send {
        id: TransactionId,
        to: Address,
        row: usize,
        len: usize,
    },
    Wait(u64),
    TimedOut(TransactionId),
    Cancelled(TransactionId),
    Stats(StunAgentStats),
    Average(Option<u64>),
    Outstanding(u64),
    // the Rust's `StunRequest`
    Request {
        to: Address,
        integrity: Option<IntegrityAlgorithm>,
    },
}
