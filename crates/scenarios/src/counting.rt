// The statistics: what each event counts, the stops, and what is asked of them.
#![tactic(auto)]

use crate::time::Time;
use stats::{Event, StunAgentStats};
use std::io;
use std::io::Write;

const STOP: u64 = u64::MAX;

// The fourteen fields in the Rust's order, the average and the outstanding count.
fn show<W: Write>(out: &mut W, s: StunAgentStats) -> io::Result<()> {
    write!(
        out,
        "stats {} {} {} {} {} {} {} {} {} {} {} {} {} {} average {}",
        s.requests_sent,
        s.requests_received,
        s.responses_sent,
        s.responses_received,
        s.indications_sent,
        s.indications_received,
        s.transactions_timed_out,
        s.transactions_cancelled,
        s.bytes_sent,
        s.bytes_received,
        s.rtt_sum,
        Time(s.rtt_min),
        Time(s.rtt_max),
        s.rtt_count,
        Time(s.rtt_average())
    )?;
    left(out, s)
}

fn left<W: Write>(out: &mut W, s: StunAgentStats) -> io::Result<()> {
    match s.outstanding_requests() {
        Some(n) => writeln!(out, " outstanding {n}"),
        None => writeln!(out, " outstanding below zero"),
    }
}

pub fn zeroed<W: Write>(out: &mut W) -> io::Result<()> {
    writeln!(out, "# the zeroed record")?;
    show(out, StunAgentStats::default())
}

pub fn each_event<W: Write>(out: &mut W) -> io::Result<()> {
    writeln!(out, "# one event after the other")?;
    let s = StunAgentStats::default().after(Event::RequestSent(20));
    show(out, s)?;
    let s = s.after(Event::RetransmitBytes(20));
    show(out, s)?;
    let s = s
        .after(Event::RequestSent(28))
        .after(Event::ResponseReceived(32, Some(7)));
    show(out, s)?;
    let s = s
        .after(Event::RequestSent(20))
        .after(Event::ResponseReceived(40, Some(4)));
    show(out, s)?;
    let s = s
        .after(Event::RequestSent(20))
        .after(Event::ResponseReceived(44, None));
    show(out, s)?;
    let s = s
        .after(Event::RequestReceived(24))
        .after(Event::ResponseSent(36));
    show(out, s)?;
    let s = s
        .after(Event::IndicationSent(100))
        .after(Event::IndicationReceived(200));
    show(out, s)?;
    let s = s.after(Event::RequestSent(20)).after(Event::TimedOut);
    show(out, s)?;
    let s = s.after(Event::RequestSent(20)).after(Event::Cancelled);
    show(out, s)?;
    let s = s.after(Event::Nothing);
    show(out, s)?;
    show(out, s.after(Event::Reset))
}

fn with(
    requests_sent: u64,
    responses_received: u64,
    transactions_timed_out: u64,
    transactions_cancelled: u64,
    bytes_sent: u64,
    rtt_sum: u64,
    rtt_count: u64,
) -> StunAgentStats {
    StunAgentStats {
        requests_sent,
        responses_received,
        transactions_timed_out,
        transactions_cancelled,
        bytes_sent,
        rtt_sum,
        rtt_count,
        ..StunAgentStats::default()
    }
}

pub fn stops<W: Write>(out: &mut W) -> io::Result<()> {
    writeln!(out, "# numbers stay at 2^64 - 1")?;
    let s = with(STOP, 0, STOP, STOP, STOP - 10, STOP - 1, STOP);
    show(out, s.after(Event::RequestSent(10)))?;
    show(out, s.after(Event::RequestSent(11)))?;
    show(out, s.after(Event::TimedOut).after(Event::Cancelled))?;
    show(out, s.after(Event::ResponseReceived(STOP, Some(2))))?;
    show(out, with(0, 0, 0, 0, 0, 5, 0))
}

pub fn outstanding<W: Write>(out: &mut W) -> io::Result<()> {
    writeln!(out, "# exact sums, which may pass 64 bits")?;
    left(out, with(6, 1, 2, 3, 0, 0, 0))?;
    left(out, with(7, 1, 2, 3, 0, 0, 0))?;
    left(out, with(5, 1, 2, 3, 0, 0, 0))?;
    left(out, with(STOP, STOP, 0, 0, 0, 0, 0))?;
    left(out, with(STOP, STOP, STOP, STOP, 0, 0, 0))?;
    left(out, with(0, STOP, 1, 0, 0, 0, 0))
}
