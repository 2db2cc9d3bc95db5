// Questions that change nothing in the table: which row of the store is free, whether a row is in use, and whether the requests are well
// formed. Where rows are flagged, the loop goes down the table: it knows the flags of the requests behind the one that it
// reads. Words and count are two parameters, as in `table`, which says why.
#![tactic(auto)]

ghost use Rattle.std.specs.Prelude.{◌≡◌, ◌≤◌, length};
ghost use Rattle.message.specs.Head.{key};
ghost use Rattle.requests.specs.Search.{free_row};
ghost use Rattle.requests.specs.Formed.{formed};
ghost use Rattle.records.specs.Coding.{size};
ghost use Rattle.records.specs.Live.{live};
ghost use Rattle.formed.specs.Flags.{lowest_from};
ghost use Rattle.requests.specs.Use.{has, in_use};
ghost use Rattle.formed.specs.Order.{is_after};

use message::TransactionId;
use records::load;
use request::StunRequestState;

// Whether a request with this identifier may stand before the one behind, if there is one.
#[tactic(auto, using(message::proofs::Identifiers::lt_by_key))]
fn is_after(next: Option<TransactionId>, id: TransactionId) -> bool
    ensures { result ≡ is_after next (key id) }
{
    next.is_none_or(|next| id < next)
}

// The place of the first flag that is not set.
fn lowest(taken: &[bool]) -> Option<usize>
    ensures { result ≡ lowest_from 0 taken.now }
{
    taken.iter().position(|t| !*t)
}

// The lowest row that no request has. A request whose row is past the last one, as a table that isn't well formed can have it, takes none.
pub fn free_row(t: &[u64], n: usize) -> Option<usize>
    requires { (n ≤ 32) × (size ≤ length t.now) }
    ensures { result ≡ free_row 32 (live n t.now) }
{
    let mut taken = [false; 32];
    for i in (0..n).rev() {
        let row = load(t, i).row;
        if row < 32 {
            taken[row] = true;
        }
    }
    lowest(&taken)
}

// Whether the bytes of this request are the first `len` of this row.
fn has_part(r: StunRequestState, row: usize, len: usize) -> bool
    ensures { result ≡ has row len r }
{
    r.row == row && r.len == len
}

// Whether a request has this row and this length.
pub fn in_use(t: &[u64], n: usize, row: usize, len: usize) -> bool
    requires { (n ≤ 32) × (size ≤ length t.now) }
    ensures { result ≡ in_use row len (live n t.now) }
{
    (0..n).any(|i| has_part(load(t, i), row, len))
}

// Whether the requests are well formed, at the agent's clock mark.
#[tactic(auto, using(crate::proofs::Formed::row_below))]
pub fn is_formed(t: &[u64], n: usize, mark: u64) -> bool
    requires { size ≤ length t.now }
    ensures { result ≡ formed 32 mark (live n t.now) }
{
    if n > 32 {
        return false;
    }
    let mut seen = [false; 32];
    let mut next = None;
    for i in (0..n).rev() {
        let r = load(t, i);
        if !r.within_limits(mark) || seen[r.row] || !is_after(next, r.transaction_id) {
            return false;
        }
        seen[r.row] = true;
        next = Some(r.transaction_id);
    }
    true
}
