// One request as a row of words. Here alone it is known what stands where in a row. Any words are some request's, so a table that a
// host made by hand can be read before it is tested.
#![tactic(auto)]

ghost use Rattle.std.specs.Prelude.{◌≡◌, ◌∷◌, [], ◌+◌, ◌%◌, ◌≤◌, ◌<◌, length, is_some};
ghost use Rattle.rows.specs.Rows.{row};
ghost use Rattle.records.specs.Coding.{width, size, words_from, id_by, integrity_code, integrity_by, kind_of, hi_of, lo_of, flow_of, scope_of, LoFits, FlowFits, ScopeFits, host_by, flags_of, address_by, rto_by, decode, encode, Put};

use address::{Address, Host};
use message::{IntegrityAlgorithm, TransactionId};
use request::{SendTimes, StunRequestState};
use waits::RequestRto;

// The words of a row.
pub const WIDTH: usize = 18;

// A number stands for a kind here, in `words_of_host` and in their readers: the memory that the host lends is words. No `From`: the types
// are other crates'.
fn integrity_code(i: Option<IntegrityAlgorithm>) -> u64
    ensures { (result ≡ integrity_code i) × (result ≤ 2) }
{
    match i {
        None => 0,
        Some(IntegrityAlgorithm::Sha1) => 1,
        Some(IntegrityAlgorithm::Sha256) => 2,
    }
}

fn integrity_by(code: u64) -> Option<IntegrityAlgorithm>
    ensures { result ≡ integrity_by code }
{
    match code {
        0 => None,
        1 => Some(IntegrityAlgorithm::Sha1),
        _ => Some(IntegrityAlgorithm::Sha256),
    }
}

// Both cancels, whether it was sent, and the integrity in one word.
fn flags(r: StunRequestState) -> u64
    ensures { result ≡ flags_of r.recv_cancelled r.send_cancelled (is_some r.send_times) (integrity_code r.request_integrity) }
{
    u64::from(r.recv_cancelled)
        + u64::from(r.send_cancelled) * 2
        + u64::from(r.send_times.is_some()) * 4
        + integrity_code(r.request_integrity) * 8
}

// A host as its kind and its numbers.
fn words_of_host(h: Host) -> [u64; 5]
    ensures { (result ≡ kind_of h ∷ hi_of h ∷ lo_of h ∷ flow_of h ∷ scope_of h ∷ []) × LoFits h × FlowFits h × ScopeFits h }
{
    match h {
        Host::V4(a) => [4, 0, u64::from(a), 0, 0],
        Host::V6 {
            hi,
            lo,
            flow,
            scope,
        } => [6, hi, lo, u64::from(flow), u64::from(scope)],
    }
}

fn low32(w: u64) -> u32
    ensures { result ≡ w % 4294967296 }
{
    (w % 4294967296) as u32
}

// Each kind but 4 is read as 6.
fn host_by(kind: u64, hi: u64, lo: u64, flow: u64, scope: u64) -> Host
    ensures { result ≡ host_by kind hi lo flow scope }
{
    match kind {
        4 => Host::V4(low32(lo)),
        _ => Host::V6 {
            hi,
            lo,
            flow: low32(flow),
            scope: low32(scope),
        },
    }
}

// ---- a row as a request
fn id_of(row: &[u64; WIDTH]) -> TransactionId
    ensures { result ≡ id_by (words_from row.now 0) }
{
    TransactionId {
        hi: low32(row[0]),
        lo: row[1],
    }
}

fn address_of(row: &[u64; WIDTH]) -> Address
    ensures { result ≡ address_by (words_from row.now 0) }
{
    Address {
        host: host_by(row[5], row[6], row[7], row[8], row[9]),
        port: (row[10] % 65536) as u16,
    }
}

fn rto_of(row: &[u64; WIDTH]) -> RequestRto
    ensures { result ≡ rto_by (words_from row.now 0) }
{
    RequestRto {
        initial: row[11],
        max: row[12],
        retransmits: low32(row[13]),
        last_retransmit: row[14],
    }
}

#[tactic(auto, unfolding(crate::specs::Coding::decode, crate::specs::Coding::decode_by))]
fn request_of(row: &[u64; WIDTH]) -> StunRequestState
    ensures { result ≡ decode row.now }
{
    let flags = row[2];
    StunRequestState {
        transaction_id: id_of(row),
        request_integrity: integrity_by(flags / 8),
        row: row[3] as usize,
        len: row[4] as usize,
        to: address_of(row),
        rto: rto_of(row),
        recv_cancelled: flags % 2 == 1,
        send_cancelled: flags / 2 % 2 == 1,
        timeout_i: low32(row[15]),
        send_times: (flags / 4 % 2 == 1).then_some(SendTimes {
            first: row[16],
            last: row[17],
        }),
    }
}

// The request r as a row, which reads as r.
fn words_of(r: StunRequestState) -> [u64; WIDTH]
    ensures { (result ≡ encode r) × (decode (encode r) ≡ r) }
{
    let [kind, hi, lo, flow, scope] = words_of_host(r.to.host);
    let (first, last) = r.send_times.map_or((0, 0), |t| (t.first, t.last));
    [
        u64::from(r.transaction_id.hi),
        r.transaction_id.lo,
        flags(r),
        r.row as u64,
        r.len as u64,
        kind,
        hi,
        lo,
        flow,
        scope,
        u64::from(r.to.port),
        r.rto.initial,
        r.rto.max,
        u64::from(r.rto.retransmits),
        r.rto.last_retransmit,
        u64::from(r.timeout_i),
        first,
        last,
    ]
}

// ---- rows of the table
// Each asks the same of the slice by a clause: a type of 576 words would shut out a host that lends more, and a struct around the slice
// would be made anew at each call, since the table's other functions lend the words on.
#[tactic(auto, using(rows::proofs::Rows::part_row))]
fn row_at(t: &[u64], i: usize) -> &[u64; WIDTH]
    requires { (i < 32) × (size ≤ length t.now) }
    ensures { result.now ≡ row width t.now i }
{
    let b = i * WIDTH;
    (&t[b..b + WIDTH]).try_into().unwrap()
}

// The identifier of the request in row i: what a search reads of it.
#[tactic(auto, unfolding(crate::specs::Coding::decode, crate::specs::Coding::decode_by))]
pub fn id_at(t: &[u64], i: usize) -> TransactionId
    requires { (i < 32) × (size ≤ length t.now) }
    ensures { result ≡ (decode (row width t.now i)).transaction_id }
{
    id_of(row_at(t, i))
}

pub fn load(t: &[u64], i: usize) -> StunRequestState
    requires { (i < 32) × (size ≤ length t.now) }
    ensures { result ≡ decode (row width t.now i) }
{
    request_of(row_at(t, i))
}

// The request r as the words of a row that is lent. As one array and no copy of a slice: the words then go where they stand.
#[inline]
fn write(row: &mut [u64], r: StunRequestState)
    requires { length row.old ≡ width }
    ensures { (row.new ≡ encode r) × (decode (encode r) ≡ r) }
{
    let Some(row) = row.as_mut_array::<WIDTH>() else {
        unreachable!();
    };
    *row = words_of(r);
}

// The request r written to row i; no other word changes, and reading the row gives r back.
// Inline: out of line a scan over 32 requests takes 6% more instructions.
#[inline]
pub fn put(t: &mut [u64], i: usize, r: StunRequestState)
    requires { (i < 32) × (size ≤ length t.old) }
    ensures { Put t.old t.new i r }
{
    let b = i * WIDTH;
    write(&mut t[b..b + WIDTH], r);
}
