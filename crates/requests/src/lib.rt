// The outstanding requests of an agent, in the order of their identifiers: the Rust's `BTreeMap`. Here is what a poll of them answers;
// specs/ says of a list of requests which answer is right, and proofs/ has the laws. The table holds such a list.
#![tactic(auto)]

use message::TransactionId;

// The first request that `poll` reports, and its place; or the clock to wait for. Three ordinary ends, none of them an error.
#[derive(Clone, Copy, Debug, PartialEq, Eq)]
pub enum Polled {
    TimedOut { place: usize, id: TransactionId },
    Cancelled { place: usize, id: TransactionId },
    WaitUntil(u64),
}
