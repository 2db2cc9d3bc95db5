// Copyright (C) 2020 Matthew Waters <matthew@centricular.com>
// SPDX-License-Identifier: MIT OR Apache-2.0
// ported to Rattle, changed
//
// One outstanding request: `StunRequestState` of agent.rs, with what `StunRequestMut` does to it. Clocks are whole nanoseconds.
// The transport is the agent's and comes in with each call: every record of the Rust holds the same one.
#![tactic(auto)]

ghost use Rattle.std.specs.Prelude.{◌≡◌, ◌&&◌, ◌^◌, ◌≤◌};
ghost use Rattle.request.specs.Times.{passed_all, next_of, rtt_of};
ghost use Rattle.request.specs.Request.{new_request, submitted, stepped, silenced, cancelled, configured, transmit_of, poll_of};
ghost use Rattle.request.specs.Limits.{NewLimits, times_within, within_limits, RequestLimits};

use address::Address;
use message::{IntegrityAlgorithm, TransactionId};
use waits::{RequestRto, Transport};

// `first_send_time` and `last_send_time`, which a request has both or neither.
#[derive(Clone, Copy, Debug, PartialEq, Eq)]
pub struct SendTimes {
    pub first: u64,
    pub last: u64,
}

// `row` and `len` stand for the Rust's `bytes`, which lie in the lent store; `rto` for `timeouts` and `last_retransmit_timeout`, which
// are worked out from it. The local address and the transport are the agent's.
#[derive(Clone, Copy, Debug, PartialEq, Eq)]
pub struct StunRequestState {
    pub transaction_id: TransactionId,
    pub request_integrity: Option<IntegrityAlgorithm>,
    pub row: usize,
    pub len: usize,
    pub to: Address,
    pub rto: RequestRto,
    pub recv_cancelled: bool,
    pub send_cancelled: bool,
    pub timeout_i: u32,
    pub send_times: Option<SendTimes>,
}

// Three ends by the Rust's names; a `Result` would call two ordinary answers errors.
#[derive(Clone, Copy, Debug, PartialEq, Eq)]
pub enum StunRequestPollRet {
    WaitUntil(u64),
    Cancelled,
    TimedOut,
}

// `Option<Transmit>` of `poll_transmit`, with the record after it: a silent step changes the record and sends nothing. So there are three
// ends, none of them an error.
#[derive(Clone, Copy, Debug, PartialEq, Eq)]
pub enum StunRequestTransmit {
    Rests,
    Passes(StunRequestState),
    Goes(StunRequestState),
}

impl SendTimes {
    fn within_limits(self, mark: u64) -> bool
        ensures { result ≡ times_within mark (Some self) }
    {
        self.last <= mark && self.first <= self.last
    }
}

impl StunRequestState {
    #[tactic(auto, unfolding(crate::specs::Request::new_request))]
    pub fn new(
        transaction_id: TransactionId,
        request_integrity: Option<IntegrityAlgorithm>,
        row: usize,
        len: usize,
        to: Address,
        rto: RequestRto,
    ) -> Self
        ensures { result ≡ new_request transaction_id request_integrity row len to rto }
    {
        Self {
            transaction_id,
            request_integrity,
            row,
            len,
            to,
            rto,
            recv_cancelled: false,
            send_cancelled: false,
            timeout_i: 0,
            send_times: None,
        }
    }

    // What `send_request` does with a new request: its first `poll_transmit` hands it out.
    #[tactic(auto, unfolding(crate::specs::Request::new_request), using(crate::proofs::Kept::submitted_goes))]
    pub fn submitted(
        transport: Transport,
        now: u64,
        transaction_id: TransactionId,
        request_integrity: Option<IntegrityAlgorithm>,
        row: usize,
        len: usize,
        to: Address,
        rto: RequestRto,
    ) -> Self
        requires { NewLimits 32 row len rto }
        ensures { result ≡ submitted now transaction_id request_integrity row len to rto }
    {
        let request = Self::new(transaction_id, request_integrity, row, len, to, rto);
        let StunRequestTransmit::Goes(sent) = request.poll_transmit(transport, now) else {
            unreachable!();
        };
        sent
    }

    // Whether a record that the host may have made is one that document 01 calls well formed, at the agent's clock mark.
    #[tactic(auto, unfolding(crate::specs::Limits::within_limits))]
    pub fn within_limits(self, mark: u64) -> bool
        ensures { result ≡ within_limits 32 mark self }
    {
        20 <= self.len
            && self.len <= 1024
            && self.row < 32
            && self.timeout_i <= 32
            && self.rto.within_limits()
            && self.send_times.is_none_or(|t| t.within_limits(mark))
    }

    #[tactic(auto, unfolding(crate::specs::Times::passed_all))]
    fn all_passed(self, transport: Transport) -> bool
        ensures { result ≡ passed_all transport self }
    {
        self.timeout_i >= self.rto.timeouts_len(transport)
    }

    // This and the two polls ask for the limits by a clause and no type: a record is read of words that a host may have made, and the
    // table's clause says of all of them at once that they are within. A type would be built from that clause before each call, and is
    // no plainer.
    #[tactic(auto, unfolding(crate::specs::Times::next_of, crate::specs::Times::is_over, crate::specs::Times::moment_of, crate::specs::Times::due_of, crate::specs::Times::end_of, crate::specs::Times::passed_all), using(crate::proofs::Limits::wait_bounds))]
    pub fn next_send_time(self, transport: Transport, now: u64) -> Option<u64>
        requires { RequestLimits 32 (2 ^ 60) self }
        ensures { result ≡ next_of transport now self }
    {
        let Some(times) = self.send_times else {
            return Some(now);
        };
        if !self.all_passed(transport) {
            return Some(times.last + self.rto.timeout(self.timeout_i));
        }
        let end = times.last + self.rto.last_retransmit_timeout(transport);
        (end > now).then_some(end)
    }

    // The Rust's `self.send_cancelled && self.timeout_i >= self.timeouts.len()`.
    fn silenced_out(self, transport: Transport) -> bool
        ensures { result ≡ (self.send_cancelled && passed_all transport self) }
    {
        self.send_cancelled && self.all_passed(transport)
    }

    #[tactic(auto, unfolding(crate::specs::Request::poll_of, crate::specs::Times::next_of), using(crate::proofs::Moments::overdue))]
    pub fn poll(self, transport: Transport, now: u64) -> StunRequestPollRet
        requires { RequestLimits 32 (2 ^ 60) self }
        ensures { result ≡ poll_of transport now self }
    {
        if self.recv_cancelled {
            return StunRequestPollRet::Cancelled;
        }
        let Some(next_send) = self.next_send_time(transport, now) else {
            return StunRequestPollRet::TimedOut;
        };
        if next_send < now {
            return StunRequestPollRet::WaitUntil(now);
        }
        if self.silenced_out(transport) {
            return StunRequestPollRet::Cancelled;
        }
        StunRequestPollRet::WaitUntil(next_send)
    }

    // The middle of the Rust's `poll_transmit`: what a due step does to the record, sent or silent.
    #[tactic(auto, unfolding(crate::specs::Request::stepped))]
    fn stepped(self, now: u64) -> Self
        requires { self.timeout_i ≤ 32 }
        ensures { result ≡ stepped now self }
    {
        match self.send_times {
            None => Self {
                send_times: Some(SendTimes {
                    first: now,
                    last: now,
                }),
                ..self
            },
            Some(times) => Self {
                timeout_i: self.timeout_i + 1,
                send_times: Some(SendTimes { last: now, ..times }),
                ..self
            },
        }
    }

    #[tactic(auto, unfolding(crate::specs::Request::transmit_of, crate::specs::Times::next_of, crate::specs::Times::is_over, crate::specs::Times::is_due, crate::specs::Times::moment_of))]
    pub fn poll_transmit(self, transport: Transport, now: u64) -> StunRequestTransmit
        requires { RequestLimits 32 (2 ^ 60) self }
        ensures { result ≡ transmit_of transport now self }
    {
        if self.recv_cancelled {
            return StunRequestTransmit::Rests;
        }
        let Some(next_send) = self.next_send_time(transport, now) else {
            return StunRequestTransmit::Rests;
        };
        if now < next_send {
            return StunRequestTransmit::Rests;
        }
        let after = self.stepped(now);
        if self.send_cancelled {
            return StunRequestTransmit::Passes(after);
        }
        StunRequestTransmit::Goes(after)
    }

    #[tactic(auto, unfolding(crate::specs::Request::silenced))]
    pub fn cancel_retransmissions(self) -> Self
        ensures { result ≡ silenced self }
    {
        Self {
            send_cancelled: true,
            ..self
        }
    }

    #[tactic(auto, unfolding(crate::specs::Request::cancelled))]
    pub fn cancel(self) -> Self
        ensures { result ≡ cancelled self }
    {
        Self {
            send_cancelled: true,
            recv_cancelled: true,
            ..self
        }
    }

    // The Rust works the waits out anew; here they follow from the settings.
    #[tactic(auto, unfolding(crate::specs::Request::configured))]
    pub fn configure_timeout_with_max(self, rto: RequestRto) -> Self
        ensures { result ≡ configured rto self }
    {
        Self { rto, ..self }
    }

    // The round trip of a response at `now`, where the agent counts it: `handle_stun_message_internal`.
    #[tactic(auto, unfolding(crate::specs::Times::rtt_of))]
    pub fn round_trip(self, now: u64) -> Option<u64>
        requires { RequestLimits 32 now self }
        ensures { result ≡ rtt_of now self }
    {
        let times = self.send_times?;
        (self.timeout_i == 0).then_some(now - times.last)
    }
}
