// One request: sends, ends, cancels, settings, round trips and limits. What it calls an outcome is this program's: the types are other
// crates', and print nothing.
#![tactic(auto)]

use crate::time::Time;
use address::{Address, Host};
use message::{IntegrityAlgorithm, TransactionId};
use request::{SendTimes, StunRequestPollRet, StunRequestState, StunRequestTransmit};
use std::io;
use std::io::Write;
use waits::{RequestRto, Transport};

const LAST_CLOCK: u64 = 1 << 60;

fn settings(initial: u64, max: u64, retransmits: u32, last_retransmit: u64) -> RequestRto {
    RequestRto {
        initial,
        max,
        retransmits,
        last_retransmit,
    }
}

fn usual(retransmits: u32) -> RequestRto {
    settings(500, waits::LONGEST, retransmits, 8000)
}

fn id() -> TransactionId {
    TransactionId { hi: 1, lo: 2 }
}

fn peer() -> Address {
    Address {
        host: Host::V4(16909060),
        port: 3478,
    }
}

fn fresh(rto: RequestRto) -> StunRequestState {
    StunRequestState::new(id(), None, 3, 20, peer(), rto)
}

// Submitted at a clock; as a new request where the settings are none.
fn sent(transport: Transport, now: u64, rto: RequestRto) -> StunRequestState {
    if !rto.within_limits() {
        return fresh(rto);
    }
    StunRequestState::submitted(transport, now, id(), None, 3, 20, peer(), rto)
}

fn by_udp(retransmits: u32) -> StunRequestState {
    sent(Transport::Udp, 0, usual(retransmits))
}

// Each call tests the record first, since the calls ask for one within limits.
fn transmit<W: Write>(
    out: &mut W,
    r: StunRequestState,
    transport: Transport,
    now: u64,
) -> io::Result<StunRequestState> {
    if !r.within_limits(LAST_CLOCK) {
        writeln!(out, "outside")?;
        return Ok(r);
    }
    let (answer, then) = match r.poll_transmit(transport, now) {
        StunRequestTransmit::Rests => ("rests", r),
        StunRequestTransmit::Passes(q) => ("passes", q),
        StunRequestTransmit::Goes(q) => ("goes", q),
    };
    writeln!(out, "{answer}")?;
    Ok(then)
}

fn poll<W: Write>(
    out: &mut W,
    r: StunRequestState,
    transport: Transport,
    now: u64,
) -> io::Result<()> {
    if !r.within_limits(LAST_CLOCK) {
        return writeln!(out, "outside");
    }
    match r.poll(transport, now) {
        StunRequestPollRet::WaitUntil(clock) => writeln!(out, "wait {clock}"),
        StunRequestPollRet::Cancelled => writeln!(out, "cancelled"),
        StunRequestPollRet::TimedOut => writeln!(out, "timed out"),
    }
}

fn round_trip<W: Write>(out: &mut W, r: StunRequestState, now: u64) -> io::Result<()> {
    if !r.within_limits(now) {
        return writeln!(out, "outside");
    }
    writeln!(out, "rtt {}", Time(r.round_trip(now)))
}

fn limits<W: Write>(out: &mut W, r: StunRequestState, mark: u64) -> io::Result<()> {
    let answer = if r.within_limits(mark) {
        "within"
    } else {
        "outside"
    };
    writeln!(out, "{answer}")
}

pub fn due_and_end<W: Write>(out: &mut W) -> io::Result<()> {
    writeln!(out, "# R = 3: waits 500 and 1000, then the end")?;
    let r = by_udp(3);
    poll(out, r, Transport::Udp, 0)?;
    let r = transmit(out, r, Transport::Udp, 499)?;
    let r = transmit(out, r, Transport::Udp, 500)?;
    poll(out, r, Transport::Udp, 500)?;
    let r = transmit(out, r, Transport::Udp, 1500)?;
    poll(out, r, Transport::Udp, 1500)?;
    let r = transmit(out, r, Transport::Udp, 9499)?;
    poll(out, r, Transport::Udp, 9499)?;
    poll(out, r, Transport::Udp, 9500)?;
    transmit(out, r, Transport::Udp, 9500)?;
    Ok(())
}

pub fn late_calls<W: Write>(out: &mut W) -> io::Result<()> {
    writeln!(
        out,
        "# the next wait counts from the actual send, and nothing ends with steps left"
    )?;
    let r = by_udp(3);
    poll(out, r, Transport::Udp, 700)?;
    let r = transmit(out, r, Transport::Udp, 700)?;
    poll(out, r, Transport::Udp, 700)?;
    poll(out, r, Transport::Udp, 50000)?;
    let r = transmit(out, r, Transport::Udp, 50000)?;
    poll(out, r, Transport::Udp, 50000)
}

pub fn few_sends<W: Write>(out: &mut W) -> io::Result<()> {
    writeln!(out, "# R = 1 and R = 0: no wait")?;
    let r = by_udp(1);
    poll(out, r, Transport::Udp, 0)?;
    transmit(out, r, Transport::Udp, 7999)?;
    poll(out, r, Transport::Udp, 8000)?;
    poll(out, by_udp(0), Transport::Udp, 0)
}

pub fn capped_waits<W: Write>(out: &mut W) -> io::Result<()> {
    writeln!(out, "# a maximum of 3000 with R = 6")?;
    let r = sent(Transport::Udp, 0, settings(500, 3000, 6, 8000));
    let r = transmit(out, r, Transport::Udp, 500)?;
    let r = transmit(out, r, Transport::Udp, 1500)?;
    let r = transmit(out, r, Transport::Udp, 3500)?;
    let r = transmit(out, r, Transport::Udp, 6499)?;
    let r = transmit(out, r, Transport::Udp, 6500)?;
    let r = transmit(out, r, Transport::Udp, 9500)?;
    poll(out, r, Transport::Udp, 9500)
}

pub fn by_tcp<W: Write>(out: &mut W) -> io::Result<()> {
    writeln!(out, "# TCP: sent once, and as long in all as UDP")?;
    let r = sent(Transport::Tcp, 0, usual(7));
    poll(out, r, Transport::Tcp, 0)?;
    transmit(out, r, Transport::Tcp, 500)?;
    poll(out, r, Transport::Tcp, 39499)?;
    poll(out, r, Transport::Tcp, 39500)
}

pub fn silenced<W: Write>(out: &mut W) -> io::Result<()> {
    writeln!(
        out,
        "# retransmissions cancelled: steps pass, then cancelled at once, then the end"
    )?;
    let r = by_udp(3).cancel_retransmissions();
    poll(out, r, Transport::Udp, 0)?;
    let r = transmit(out, r, Transport::Udp, 500)?;
    poll(out, r, Transport::Udp, 500)?;
    let r = transmit(out, r, Transport::Udp, 1600)?;
    poll(out, r, Transport::Udp, 1600)?;
    poll(out, r, Transport::Udp, 9599)?;
    poll(out, r, Transport::Udp, 9600)
}

pub fn cancelled<W: Write>(out: &mut W) -> io::Result<()> {
    writeln!(
        out,
        "# cancelled: said by the next poll, past the end too; never stepped"
    )?;
    let r = by_udp(3).cancel();
    let r = transmit(out, r, Transport::Udp, 500)?;
    poll(out, r, Transport::Udp, 500)?;
    poll(out, r, Transport::Udp, 99999)?;
    poll(out, by_udp(1).cancel(), Transport::Udp, 99999)
}

pub fn never_sent<W: Write>(out: &mut W) -> io::Result<()> {
    writeln!(out, "# without a last send: due now, no count, both times")?;
    let r = fresh(usual(3));
    poll(out, r, Transport::Udp, 7)?;
    let r = transmit(out, r, Transport::Udp, 7)?;
    poll(out, r, Transport::Udp, 7)?;
    let r = fresh(usual(3)).cancel_retransmissions();
    poll(out, r, Transport::Udp, 7)?;
    let r = transmit(out, r, Transport::Udp, 7)?;
    poll(out, r, Transport::Udp, 7)?;
    poll(
        out,
        fresh(usual(1)).cancel_retransmissions(),
        Transport::Udp,
        7,
    )?;
    poll(
        out,
        fresh(usual(3)).cancel_retransmissions(),
        Transport::Tcp,
        7,
    )?;
    transmit(out, fresh(usual(3)).cancel(), Transport::Udp, 7)?;
    Ok(())
}

pub fn configured<W: Write>(out: &mut W) -> io::Result<()> {
    writeln!(out, "# configure: other waits, the same count and times")?;
    let r = transmit(out, by_udp(3), Transport::Udp, 500)?;
    let s = r.configure_timeout_with_max(settings(500, waits::LONGEST, 1, 100));
    poll(out, s, Transport::Udp, 599)?;
    poll(out, s, Transport::Udp, 600)?;
    poll(
        out,
        r.configure_timeout_with_max(settings(40, waits::LONGEST, 3, 8000)),
        Transport::Udp,
        500,
    )?;
    poll(
        out,
        by_udp(1).configure_timeout_with_max(usual(5)),
        Transport::Udp,
        0,
    )?;
    poll(
        out,
        r.cancel().configure_timeout_with_max(usual(5)),
        Transport::Udp,
        500,
    )
}

pub fn zero_waits<W: Write>(out: &mut W) -> io::Result<()> {
    writeln!(out, "# waits of zero")?;
    poll(
        out,
        sent(Transport::Udp, 5, settings(500, waits::LONGEST, 1, 0)),
        Transport::Udp,
        5,
    )?;
    let r = sent(Transport::Udp, 5, settings(0, waits::LONGEST, 2, 8000));
    poll(out, r, Transport::Udp, 5)?;
    let r = transmit(out, r, Transport::Udp, 5)?;
    poll(out, r, Transport::Udp, 5)
}

pub fn round_trips<W: Write>(out: &mut W) -> io::Result<()> {
    writeln!(out, "# round trips: now minus last send, with step count 0")?;
    let r = sent(Transport::Udp, 10, usual(3));
    round_trip(out, r, 10)?;
    round_trip(out, r, 25)?;
    round_trip(out, r.cancel(), 99999)?;
    let stepped = transmit(out, r, Transport::Udp, 510)?;
    round_trip(out, stepped, 600)?;
    let stepped = transmit(out, r.cancel_retransmissions(), Transport::Udp, 510)?;
    round_trip(out, stepped, 600)?;
    round_trip(out, fresh(usual(3)), 600)
}

pub fn longest<W: Write>(out: &mut W) -> io::Result<()> {
    writeln!(out, "# the latest clock and the longest waits")?;
    let most = waits::LONGEST;
    poll(
        out,
        sent(Transport::Udp, LAST_CLOCK, settings(most, most, 33, most)),
        Transport::Udp,
        LAST_CLOCK,
    )?;
    poll(
        out,
        sent(Transport::Tcp, LAST_CLOCK, settings(most, most, 33, most)),
        Transport::Tcp,
        LAST_CLOCK,
    )
}

pub fn limits_of_settings<W: Write>(out: &mut W) -> io::Result<()> {
    writeln!(out, "# settings within limits, and not")?;
    let most = waits::LONGEST;
    limits(out, fresh(settings(most, most, 33, most)), 0)?;
    limits(out, fresh(settings(most, most, 34, most)), 0)?;
    limits(out, fresh(settings(most + 1, most, 33, most)), 0)?;
    limits(out, fresh(settings(most, most + 1, 33, most)), 0)?;
    limits(out, fresh(settings(most, most, 33, most + 1)), 0)
}

fn made(row: usize, len: usize, timeout_i: u32, send_times: Option<SendTimes>) -> StunRequestState {
    StunRequestState {
        transaction_id: id(),
        request_integrity: Some(IntegrityAlgorithm::Sha1),
        row,
        len,
        to: peer(),
        rto: usual(7),
        recv_cancelled: false,
        send_cancelled: false,
        timeout_i,
        send_times,
    }
}

pub fn limits_of_records<W: Write>(out: &mut W) -> io::Result<()> {
    writeln!(out, "# lengths, rows and counts")?;
    limits(out, made(0, 19, 0, None), 0)?;
    limits(out, made(0, 20, 0, None), 0)?;
    limits(out, made(0, 1024, 0, None), 0)?;
    limits(out, made(0, 1025, 0, None), 0)?;
    limits(out, made(31, 20, 0, None), 0)?;
    limits(out, made(32, 20, 0, None), 0)?;
    limits(out, made(0, 20, 32, None), 0)?;
    limits(out, made(0, 20, 33, None), 0)
}

pub fn limits_of_times<W: Write>(out: &mut W) -> io::Result<()> {
    writeln!(out, "# times against the mark")?;
    limits(
        out,
        made(0, 20, 0, Some(SendTimes { first: 8, last: 9 })),
        9,
    )?;
    limits(
        out,
        made(0, 20, 0, Some(SendTimes { first: 9, last: 9 })),
        9,
    )?;
    limits(
        out,
        made(0, 20, 0, Some(SendTimes { first: 8, last: 9 })),
        8,
    )?;
    limits(
        out,
        made(0, 20, 0, Some(SendTimes { first: 9, last: 8 })),
        9,
    )
}
