// Copyright (C) 2020 Matthew Waters <matthew@centricular.com>
// SPDX-License-Identifier: MIT OR Apache-2.0
// ported to Rattle, changed
//
// The waits of a request: `RequestRto` of agent.rs. The Rust's `calculate_timeouts` answers a list of durations and a last one; here
// `timeouts_len` is the list's length, `timeout` an element of it, and `last_retransmit_timeout` the last one.
// Durations are whole nanoseconds, 0 to 2^61.
#![tactic(auto)]

ghost use Rattle.std.specs.Prelude.{◌≡◌, ◌+◌, ◌^◌, ◌≤◌, ◌<◌, min};
ghost use Rattle.waits.specs.Waits.{default_rto, Limits, within_limits, capped, sum_of, steps_of, waits_of, wait_of, final_wait};

// `TransportType` of stun-types.
#[derive(Clone, Copy, Debug, PartialEq, Eq)]
pub enum Transport {
    Udp,
    Tcp,
}

#[derive(Clone, Copy, Debug, PartialEq, Eq)]
pub struct RequestRto {
    pub initial: u64,
    pub max: u64,
    pub retransmits: u32,
    pub last_retransmit: u64,
}

// The longest duration. As a maximum it stands for the Rust's `Duration::MAX`.
pub const LONGEST: u64 = 1 << 61;

const MILLISECOND: u64 = 1_000_000;

// The most sends that settings may ask for.
const MOST_RETRANSMITS: u32 = 33;

// Twice the wait before it, up to the maximum: capped at each step, so that nothing overflows. A recursion on the falling index: the
// form that document 01 names for it, where `saturating_mul(1 << i)` would do.
fn wait(initial: u64, max: u64, i: u32) -> u64
    requires { max ≤ 2 ^ 61 }
    ensures { result ≡ capped initial max i }
{
    if i == 0 {
        return initial.min(max);
    }
    let before = wait(initial, max, i - 1);
    (before + before).min(max)
}

impl Default for RequestRto {
    ghost is_default = { λ rto. rto ≡ default_rto };

    // The Rust's default ends 8 ms after the last send; RFC 8489 has 8,000 ms.
    #[tactic(auto, unfolding(crate::specs::Waits::default_rto))]
    fn default() -> Self {
        Self {
            initial: 500 * MILLISECOND,
            max: LONGEST,
            retransmits: 7,
            last_retransmit: 8_000 * MILLISECOND,
        }
    }
}

impl RequestRto {
    // Where this is false, the settings are refused by 2.
    #[tactic(auto, unfolding(crate::specs::Waits::within_limits))]
    pub fn within_limits(self) -> bool
        ensures { result ≡ within_limits self }
    {
        self.retransmits <= MOST_RETRANSMITS
            && self.initial <= LONGEST
            && self.max <= LONGEST
            && self.last_retransmit <= LONGEST
    }

    fn steps(self) -> u32
        ensures { result ≡ steps_of self }
    {
        self.retransmits.saturating_sub(1)
    }

    pub fn timeouts_len(self, transport: Transport) -> u32
        ensures { result ≡ waits_of transport self }
    {
        match transport {
            Transport::Udp => self.steps(),
            Transport::Tcp => 0,
        }
    }

    // The limits are a clause of these three and no type: settings of any numbers are a `RequestRto`, as a host may write them, and
    // `within_limits` tests them.
    pub fn timeout(self, i: u32) -> u64
        requires { Limits self × (i < 32) }
        ensures { result ≡ wait_of self i }
    {
        wait(self.initial, self.max, i)
    }

    // The last wait and all before it together, and 2^61 if that is more.
    #[tactic(auto, using(crate::proofs::Doubling::sum_none, crate::proofs::Doubling::sum_more))]
    fn span(self) -> u64
        requires { Limits self }
        ensures { result ≡ min (self.last_retransmit + sum_of self.initial self.max (steps_of self)) (2 ^ 61) }
    {
        let mut sum = self.last_retransmit;
        for i in 0..self.steps() {
            sum = (sum + self.timeout(i)).min(LONGEST);
        }
        sum
    }

    #[tactic(auto, unfolding(crate::specs::Waits::final_wait))]
    pub fn last_retransmit_timeout(self, transport: Transport) -> u64
        requires { Limits self }
        ensures { result ≡ final_wait transport self }
    {
        match transport {
            Transport::Udp => self.last_retransmit,
            Transport::Tcp => self.span(),
        }
    }
}
