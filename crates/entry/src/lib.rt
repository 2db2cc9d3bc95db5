// Copyright (C) 2020 Matthew Waters <matthew@centricular.com>
// SPDX-License-Identifier: MIT OR Apache-2.0
// ported to Rattle, changed
//
// The public entry of the port: a call of the agent on all that the host lends, the same for callers that hold the peers and the
// statistics by value, and the start of a fresh agent. The Rust's methods of `StunAgent` are functions here, since its type is another
// crate's. What takes a list of addresses or the statistics record by reference is thin and free of branches; all tests and effects stand
// behind `agent::dispatch`.
#![tactic(auto)]

ghost use Rattle.std.specs.Prelude.{◌≡◌};
ghost use Rattle.entry.specs.Entry.{event_in, answered_in, Settled, Performed, Started};

use address::Address;
use agent::Called;
use model::{Answer, Call, Refusal, StunAgent, StunAgentBuilder};
use stats::{Event, StunAgentStats};

// What a call leaves besides what was lent.
#[derive(Clone, Copy, Debug, PartialEq, Eq)]
pub struct Answered {
    pub agent: StunAgent,
    pub answer: Answer,
}

// What an outcome does to the lent list and the lent record.
fn settle(out: Called, from: Address, peers: &mut [Address], stats: &mut StunAgentStats) -> Answered
    ensures { Settled out from peers.old peers.new stats.old stats.new result }
{
    // `put_peer` does nothing past the end, so the length stands for nowhere: document 01 wants what takes the list thin.
    let place = out.place.unwrap_or(peers.len());
    peers::put_peer(peers, place, from);
    stats::record(stats, out.event);
    Answered {
        agent: out.agent,
        answer: out.answer,
    }
}

// Every call of the agent. It asks nothing of what is lent: a state that isn't well formed is refused by 1. What is lent stays four
// parameters here and below: the host has each by itself, and would take a struct of four `&mut` apart again to use one.
pub fn call(
    agent: StunAgent,
    call: Call,
    message: &[u8],
    table: &mut [u64],
    store: &mut [u8],
    peers: &mut [Address],
    stats: &mut StunAgentStats,
) -> Answered
    ensures { Performed agent call message.now table.old store.old peers.old stats.old table.new store.new peers.new stats.new result }
{
    let from = agent::address_of(call);
    let known = peers::has_peer(peers, agent.peers, from);
    let out = agent::dispatch(
        agent,
        call,
        known,
        peers.len(),
        *stats,
        message,
        table,
        store,
    );
    settle(out, from, peers, stats)
}

// What a caller carries from call to call that holds the peers and the statistics by value; table and store stay lent.
#[derive(Clone, Copy, Debug, PartialEq, Eq)]
pub struct Held {
    pub agent: StunAgent,
    pub peers: [Address; 64],
    pub stats: StunAgentStats,
}

#[derive(Clone, Copy, Debug, PartialEq, Eq)]
pub struct Stepped {
    pub held: Held,
    pub answer: Answer,
}

// `call` for a caller that holds the peers and the statistics by value: they are lent to it as locals.
pub fn door(
    agent: StunAgent,
    c: Call,
    message: &[u8],
    table: &mut [u64],
    store: &mut [u8],
    mut peers: [Address; 64],
    mut stats: StunAgentStats,
) -> Stepped
    ensures { Performed agent c message.now table.old store.old peers stats table.new store.new result.held.peers result.held.stats (answered_in result) }
{
    let Answered { agent, answer } = call(agent, c, message, table, store, &mut peers, &mut stats);
    Stepped {
        held: Held {
            agent,
            peers,
            stats,
        },
        answer,
    }
}

// `door`, for a caller that keeps what it holds in one piece; docs/STATEMENTS.md names both.
pub fn step(held: Held, c: Call, message: &[u8], table: &mut [u64], store: &mut [u8]) -> Stepped
    ensures { Performed held.agent c message.now table.old store.old held.peers held.stats table.new store.new result.held.peers result.held.stats (answered_in result) }
{
    door(held.agent, c, message, table, store, held.peers, held.stats)
}

// The event of a fresh agent; none where the settings were refused.
fn event_in(built: Result<(StunAgent, Event), Refusal>) -> Event
    ensures { result ≡ event_in built }
{
    built.map_or(Event::Nothing, |(_, event)| event)
}

// `StunAgentBuilder::build`, with the lent record zeroed if statistics are on.
pub fn start(
    builder: StunAgentBuilder,
    stats: &mut StunAgentStats,
) -> Result<(StunAgent, Event), Refusal>
    ensures { Started builder stats.old stats.new result }
{
    let built = agent::build(builder);
    stats::record(stats, event_in(built));
    built
}
