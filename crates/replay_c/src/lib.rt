// The replay as a static library: its one export, which a Rust host calls.
#![tactic(auto)]

ghost use Rattle.std.specs.Prelude.{length};
ghost use Rattle.replay.specs.Runs.{Replays};

// The trace in, the lines that fit whole into the lent buffer, zeros behind them, the count of the lines' bytes back.
#[unsafe(no_mangle)]
pub extern "C" fn replay(trace: &[u8], out: &mut [u8]) -> usize
    ensures { Replays trace.now (length out.old) out.new result }
{
    replay::replay(trace, out)
}
