// The message store that the host lends: 32 rows of 1,024 bytes, a request's bytes at the start of its row. It stands for the Rust's
// `bytes: Vec<u8>` of each request. A slice with a row and a length, and nothing allocated: document 01, "Language forms".
#![tactic(auto)]

ghost use Rattle.std.specs.Prelude.{◌≡◌, ◌+◌, ◌*◌, ◌≤◌, true, false, length, MatchOption};
ghost use Rattle.store.specs.Rows.{in_store, copied, part_of};

use std::ops::Range;

pub const ROWS: usize = 32;

pub const ROW: usize = 1024;

// Where the first `len` bytes of a row stand, if there are such a row and so many bytes in it.
#[tactic(auto, unfolding(crate::specs::Rows::in_store))]
fn place(store: &[u8], row: usize, len: usize) -> Option<Range<usize>>
    ensures { MatchOption result (in_store 32 store.now row len ≡ false) (λ at. (in_store 32 store.now row len ≡ true)
        × (at.start ≡ row * 1024) × (at.end ≡ row * 1024 + len) × (at.end ≤ length store.now)) }
{
    if row < ROWS && len <= ROW && ROWS * ROW <= store.len() {
        Some(row * ROW..row * ROW + len)
    } else {
        None
    }
}

// One byte after the other, and no `copy_from_slice`: of that the compiler makes a `memmove`, which an archive for C then asks of its host.
fn copy_over(to: &mut [u8], from: &[u8])
    requires { length to.old ≡ length from.now }
    ensures { to.new ≡ from.now }
{
    for i in 0..from.len() {
        to[i] = from[i];
    }
}

// Copies a message to a row's start. Where it doesn't fit, nothing changes: the agent has refused such a message before.
#[tactic(auto, using(crate::proofs::Copies::copy_some), unfolding(crate::specs::Rows::copied))]
pub fn copy(store: &mut [u8], row: usize, bytes: &[u8])
    ensures { store.new ≡ copied 32 store.old row bytes.now }
{
    if let Some(at) = place(store, row, bytes.len()) {
        copy_over(&mut store[at], bytes);
    }
}

// The first `len` bytes of a row, as a part of the store and no copy; the empty part where there are none such.
#[tactic(auto, unfolding(crate::specs::Rows::part_of))]
pub fn part(store: &[u8], row: usize, len: usize) -> &[u8]
    ensures { result.now ≡ part_of 32 store.now row len }
{
    match place(store, row, len) {
        Some(at) => &store[at],
        None => &[],
    }
}
