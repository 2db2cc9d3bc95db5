// Scenarios on one request, the statistics and the store, each a few calls; `stdout` has the answers, worked out from document 01.
// Clocks are small: the definitions know no unit. Unless said otherwise a request has an initial wait of 500 and a final one of 8,000.
#![tactic(auto)]

mod counting;
mod requests;
mod rows;
mod time;

use std::io;

fn main(rt: HostRuntime) -> io::Result<()> {
    let mut out = io::writer(&rt);
    requests::due_and_end(&mut out)?;
    requests::late_calls(&mut out)?;
    requests::few_sends(&mut out)?;
    requests::capped_waits(&mut out)?;
    requests::by_tcp(&mut out)?;
    requests::silenced(&mut out)?;
    requests::cancelled(&mut out)?;
    requests::never_sent(&mut out)?;
    requests::configured(&mut out)?;
    requests::zero_waits(&mut out)?;
    requests::round_trips(&mut out)?;
    requests::longest(&mut out)?;
    requests::limits_of_settings(&mut out)?;
    requests::limits_of_records(&mut out)?;
    requests::limits_of_times(&mut out)?;
    counting::zeroed(&mut out)?;
    counting::each_event(&mut out)?;
    counting::stops(&mut out)?;
    counting::outstanding(&mut out)?;
    rows::copies(&mut out)?;
    rows::edges(&mut out)
}
