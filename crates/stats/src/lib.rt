// Copyright (C) 2020 Matthew Waters <matthew@centricular.com>
// SPDX-License-Identifier: MIT OR Apache-2.0
// ported to Rattle, changed
//
// The statistics of an agent, counted by value: stats.rs. Its accessors are the fields. Times are whole nanoseconds. Every number stays at
// 2^64 - 1 where the Rust's would pass it.
#![tactic(auto)]

ghost use Rattle.std.specs.Prelude.{◌≡◌};
ghost use Rattle.stats.specs.Count.{times_of, timed_by, with_times, counted};
ghost use Rattle.stats.specs.Query.{average_of, outstanding_of};

#[derive(Clone, Copy, Debug, Default, PartialEq, Eq)]
pub struct StunAgentStats {
    pub requests_sent: u64,
    pub requests_received: u64,
    pub responses_sent: u64,
    pub responses_received: u64,
    pub indications_sent: u64,
    pub indications_received: u64,
    pub transactions_timed_out: u64,
    pub transactions_cancelled: u64,
    pub bytes_sent: u64,
    pub bytes_received: u64,
    pub rtt_sum: u64,
    pub rtt_min: Option<u64>,
    pub rtt_max: Option<u64>,
    pub rtt_count: u64,
}

// What one call of the agent counts. A number is the message's length in bytes. `Nothing` and no `Option`: it is a row of the table of
// specs/Count, `moves_of`, as the others are.
#[derive(Clone, Copy, Debug, PartialEq, Eq)]
pub enum Event {
    Nothing,
    RequestSent(u64),
    RequestReceived(u64),
    IndicationSent(u64),
    IndicationReceived(u64),
    ResponseSent(u64),
    // with its round trip, where that is counted
    ResponseReceived(u64, Option<u64>),
    RetransmitBytes(u64),
    TimedOut,
    Cancelled,
    Reset,
}

impl StunAgentStats {
    #[tactic(auto, unfolding(crate::specs::Query::average_of))]
    pub fn rtt_average(self) -> Option<u64>
        ensures { result ≡ average_of self }
    {
        self.rtt_sum.checked_div(self.rtt_count)
    }

    // None where it would be below zero: the Rust's difference would panic there. Refusal 12, COUNTS. Taken away one after the other,
    // since the three together may pass 64 bits.
    #[tactic(auto, unfolding(crate::specs::Query::outstanding_of))]
    pub fn outstanding_requests(self) -> Option<u64>
        ensures { result ≡ outstanding_of self }
    {
        self.requests_sent
            .checked_sub(self.responses_received)?
            .checked_sub(self.transactions_timed_out)?
            .checked_sub(self.transactions_cancelled)
    }

    // A round trip, where the response has one that counts.
    fn record_rtt(self, rtt: Option<u64>) -> Self
        ensures { result ≡ with_times (timed_by rtt (times_of self)) self }
    {
        let Some(rtt) = rtt else {
            return self;
        };
        Self {
            rtt_sum: self.rtt_sum.saturating_add(rtt),
            rtt_min: Some(self.rtt_min.map_or(rtt, |t| t.min(rtt))),
            rtt_max: Some(self.rtt_max.map_or(rtt, |t| t.max(rtt))),
            rtt_count: self.rtt_count.saturating_add(1),
            ..self
        }
    }

    #[tactic(auto, unfolding(crate::specs::Count::counted))]
    pub fn after(self, event: Event) -> Self
        ensures { result ≡ counted event self }
    {
        match event {
            Event::Nothing => self,
            // `record_request_sent`
            Event::RequestSent(bytes) => Self {
                requests_sent: self.requests_sent.saturating_add(1),
                bytes_sent: self.bytes_sent.saturating_add(bytes),
                ..self
            },
            // `record_request_received`
            Event::RequestReceived(bytes) => Self {
                requests_received: self.requests_received.saturating_add(1),
                bytes_received: self.bytes_received.saturating_add(bytes),
                ..self
            },
            // `record_indication_sent`
            Event::IndicationSent(bytes) => Self {
                indications_sent: self.indications_sent.saturating_add(1),
                bytes_sent: self.bytes_sent.saturating_add(bytes),
                ..self
            },
            // `record_indication_received`
            Event::IndicationReceived(bytes) => Self {
                indications_received: self.indications_received.saturating_add(1),
                bytes_received: self.bytes_received.saturating_add(bytes),
                ..self
            },
            // `record_response_sent`
            Event::ResponseSent(bytes) => Self {
                responses_sent: self.responses_sent.saturating_add(1),
                bytes_sent: self.bytes_sent.saturating_add(bytes),
                ..self
            },
            // `record_response_received`
            Event::ResponseReceived(bytes, rtt) => Self {
                responses_received: self.responses_received.saturating_add(1),
                bytes_received: self.bytes_received.saturating_add(bytes),
                ..self.record_rtt(rtt)
            },
            // `record_retransmit_bytes`
            Event::RetransmitBytes(bytes) => Self {
                bytes_sent: self.bytes_sent.saturating_add(bytes),
                ..self
            },
            // `record_timeout`
            Event::TimedOut => Self {
                transactions_timed_out: self.transactions_timed_out.saturating_add(1),
                ..self
            },
            // `record_cancelled`
            Event::Cancelled => Self {
                transactions_cancelled: self.transactions_cancelled.saturating_add(1),
                ..self
            },
            Event::Reset => Self::default(),
        }
    }
}

// The Rust's recorder on the lent record: it holds the new numbers afterwards.
pub fn record(stats: &mut StunAgentStats, event: Event)
    ensures { stats.new ≡ counted event stats.old }
{
    *stats = stats.after(event);
}
