// A replay: the records of a trace go to an agent, and each answer makes a line. Document 01, "Replay program".
#![tactic(auto)]

ghost use Rattle.std.specs.Prelude.{◌≡◌, length};
ghost use Rattle.replay.specs.Runs.{Lined, Replays};
ghost use Rattle.replay.specs.Lent.{stop_of, Plays, Begins, first_standing};

use address::{Address, Host};
use entry::Held;
use line::Reply;
use model::{Answer, StunAgent};
use record::Record;
use stats::StunAgentStats;
use waits::{RequestRto, Transport};

// Whether there is an agent yet, and what is carried from record to record; table and store are lent. Kept as a flag and a value: the
// clause `Plays` of `next_turn` speaks of any value beside a flag that is off, which an Option has no place for.
#[derive(Clone, Copy, Debug, PartialEq, Eq)]
pub struct Standing {
    pub on: bool,
    pub held: Held,
}

// What a record does: where the replay stands then, what its line says, how many bytes it took, and whether another may follow. Kept as
// a flag and a value: the clause `Plays` says how many bytes refused first settings took, too, behind which none may follow.
#[derive(Clone, Copy, Debug, PartialEq, Eq)]
pub struct Turn {
    pub standing: Standing,
    pub reply: Option<Answer>,
    pub next: usize,
    pub more: bool,
}

// Before the first settings.
pub fn start() -> Standing
    ensures { result ≡ first_standing }
{
    // What `nowhere` in `agent` answers too; there it stands for no address, here for a place not in use.
    let nobody = Address {
        host: Host::V4(0),
        port: 0,
    };
    let agent = StunAgent {
        transport: Transport::Udp,
        stats: false,
        rto: RequestRto::default(),
        mark: 0,
        requests: 0,
        peers: 0,
    };
    Standing {
        on: false,
        held: Held {
            agent,
            peers: [nobody; 64],
            stats: StunAgentStats::default(),
        },
    }
}

// `bad`, and the end.
fn stop(standing: Standing) -> Turn
    ensures { result ≡ stop_of standing }
{
    Turn {
        standing,
        reply: None,
        next: 0,
        more: false,
    }
}

// The record at the start of the rest of the trace.
pub fn next_turn(standing: Standing, rest: &[u8], table: &mut [u64], store: &mut [u8]) -> Turn
    ensures { Plays standing rest.now table.old store.old result table.new store.new }
{
    let Some(record) = record::record_of(rest) else {
        return stop(standing);
    };
    match record {
        Record::Settings { builder, end } => match agent::build(builder) {
            Ok((agent, event)) => {
                let peers = standing.held.peers;
                let stats = standing.held.stats.after(event);
                Turn {
                    standing: Standing {
                        on: true,
                        held: Held {
                            agent,
                            peers,
                            stats,
                        },
                    },
                    reply: Some(Answer::Ok),
                    next: end,
                    more: true,
                }
            }
            Err(refusal) => Turn {
                standing,
                reply: Some(Answer::Refused(refusal)),
                next: end,
                more: standing.on,
            },
        },
        Record::Whole { call, start, end } => {
            if !standing.on {
                return stop(standing);
            }
            let stepped = entry::step(standing.held, call, &rest[start..end], table, store);
            Turn {
                standing: Standing {
                    on: true,
                    held: stepped.held,
                },
                reply: Some(stepped.answer),
                next: end,
                more: true,
            }
        }
    }
}

// The lines of a trace that fit, at the start of `out`; answers how many bytes they are. What stands behind them isn't said.
fn lines(trace: &[u8], table: &mut [u64], store: &mut [u8], out: &mut [u8]) -> usize
    requires { Begins table.old store.old }
    ensures { Lined trace.now (length out.old) out.new result }
{
    let mut standing = start();
    let mut at = 0;
    let mut number: u64 = 1;
    let mut put = 0;
    // No `for` over records is plainer: how far one reaches is known only behind its turn.
    while at < trace.len() {
        let t = next_turn(standing, &trace[at..], table, store);
        standing = t.standing;
        let end = line::put_line(out, put, number, Reply::Told(t.reply));
        if out.len() < end {
            return put;
        }
        put = end;
        if !t.more {
            return put;
        }
        at += t.next;
        number += 1;
    }
    put
}

// A whole replay: the trace in, the lines that fit whole into the lent buffer, zeros behind them, the count of the lines' bytes back. A
// Rust host calls it by its export in `replay_c`.
pub fn replay(trace: &[u8], out: &mut [u8]) -> usize
    ensures { Replays trace.now (length out.old) out.new result }
{
    let mut table = [0u64; 576];
    let mut store = [0u8; 32768];
    let end = lines(trace, &mut table, &mut store, out);
    out[end..].fill(0);
    end
}
