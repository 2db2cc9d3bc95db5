// The outstanding requests in words that the host lends, the first n rows in use: the Rust's `BTreeMap`. What changes words promises
// every word afterwards, by rows, and the list of requests that they then hold. The words and their count are no struct: the host lends
// the words and keeps them from call to call, and n is the agent's own count, which refusal 1 tests; a struct of both would be made anew
// at each call. `find` and `place` look at row after row: their clauses ask for an ascending table, so that halving can come in.
#![tactic(auto)]

ghost use Rattle.std.specs.Prelude.{◌≡◌, ◌+◌, ◌-◌, ◌^◌, ◌≤◌, ◌<◌, length, set};
ghost use Rattle.message.specs.Head.{key};
ghost use Rattle.rows.specs.Lists.{insert_at, remove_at};
ghost use Rattle.rows.specs.Rows.{rows};
ghost use Rattle.records.specs.Coding.{width, size, encode};
ghost use Rattle.records.specs.Live.{live, Became};
ghost use Rattle.requests.specs.Search.{lookup, place_of};
ghost use Rattle.requests.specs.Scan.{poll_all};
ghost use Rattle.requests.specs.Formed.{AllWithin};
ghost use Rattle.table.specs.Table.{Kept, Transmits};

use message::TransactionId;
use records::WIDTH;
use request::{StunRequestPollRet, StunRequestState, StunRequestTransmit};
use requests::Polled;
use waits::Transport;

// An hour in nanoseconds: what `poll` waits at most.
const HOUR: u64 = 3_600_000_000_000;

pub fn find(t: &[u64], n: usize, id: TransactionId) -> Option<(usize, StunRequestState)>
    requires { Kept n t.now }
    ensures { result ≡ lookup (key id) (live n t.now) }
{
    let i = (0..n).find(|i| records::id_at(t, *i) == id)?;
    Some((i, records::load(t, i)))
}

// Where a request with this identifier goes.
pub fn place(t: &[u64], n: usize, id: TransactionId) -> usize
    requires { Kept n t.now }
    ensures { result ≡ place_of (key id) (live n t.now) }
{
    (0..n).find(|i| records::id_at(t, *i) >= id).unwrap_or(n)
}

// The rows from `at` on move up by one, and the request stands there.
pub fn insert(t: &mut [u64], n: usize, at: usize, r: StunRequestState)
    requires { (at ≤ n) × (n < 32) × (size ≤ length t.old) }
    ensures { Became t.old t.new (n + 1) (insert_at (rows width n t.old) at (encode r)) (insert_at (live n t.old) at r) }
{
    let start = at * WIDTH;
    t.copy_within(start..n * WIDTH, start + WIDTH);
    records::put(t, at, r);
}

// The rows behind `at` move down by one.
pub fn remove(t: &mut [u64], n: usize, at: usize)
    requires { (at < n) × (n ≤ 32) × (size ≤ length t.old) }
    ensures { Became t.old t.new (n - 1) (remove_at (rows width n t.old) at) (remove_at (live n t.old) at) }
{
    let start = at * WIDTH;
    t.copy_within(start + WIDTH..n * WIDTH, start);
}

// The request at a place is written anew.
pub fn replace(t: &mut [u64], n: usize, at: usize, r: StunRequestState)
    requires { (at < n) × (n ≤ 32) × (size ≤ length t.old) }
    ensures { Became t.old t.new n (set (rows width n t.old) at (encode r)) (set (live n t.old) at r) }
{
    records::put(t, at, r);
}

// `poll_transmit`: up the identifiers to the first request that goes out, silent steps passed on the way. A `loop` that yields what it
// found by `break`, and no `for`: the form that document 01 names for it.
pub fn poll_transmit(
    t: &mut [u64],
    n: usize,
    transport: Transport,
    clock: u64,
) -> Option<StunRequestState>
    requires { (n ≤ 32) × (size ≤ length t.old) × AllWithin 32 (2 ^ 60) (live n t.old) }
    ensures { Transmits transport n clock t.old result t.new }
{
    let mut i = 0;
    loop {
        if n <= i {
            break None;
        }
        let q = records::load(t, i);
        match q.poll_transmit(transport, clock) {
            StunRequestTransmit::Goes(p) => {
                records::put(t, i, p);
                break Some(p);
            }
            StunRequestTransmit::Passes(p) => records::put(t, i, p),
            StunRequestTransmit::Rests => {}
        }
        i += 1;
    }
}

// `poll`: the first request that timed out or was cancelled, or the clock to wait for.
#[tactic(auto, using(records::proofs::Live::live_next, records::proofs::Live::live_end))]
pub fn poll(t: &[u64], n: usize, transport: Transport, clock: u64) -> Polled
    requires { (n ≤ 32) × (clock ≤ 2 ^ 60) × (size ≤ length t.now) × AllWithin 32 (2 ^ 60) (live n t.now) }
    ensures { result ≡ poll_all transport clock (live n t.now) }
{
    let mut lowest = clock + HOUR;
    for i in 0..n {
        let q = records::load(t, i);
        let id = q.transaction_id;
        match q.poll(transport, clock) {
            StunRequestPollRet::Cancelled => return Polled::Cancelled { place: i, id },
            StunRequestPollRet::TimedOut => return Polled::TimedOut { place: i, id },
            StunRequestPollRet::WaitUntil(w) => lowest = lowest.min(w),
        }
    }
    Polled::WaitUntil(lowest)
}
