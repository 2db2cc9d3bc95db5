// The replay as a program: standard input, or the file that its argument names, of any length, to standard output through fixed
// buffers. It takes the turns and puts the lines that the library's `replay` does, and is proved safe and ending.
#![tactic(auto)]

ghost use Rattle.std.specs.Prelude.{◌≡◌, ◌+◌, ◌≤◌, length, IfSome, Ok};

use line::{LONGEST_LINE, Reply};
use model::Answer;
use replay::Standing;
use std::env::{Env, FillError};
use std::fmt::Display;
use std::fs::File;
use std::io::{Input, Read};
use std::rt::Files;
use std::{io, str};

// The bytes of the trace, and of lines, that are held at a time.
const ROOM: usize = 65536;

// What a call gave; none where it failed, which is then said.
fn or_say<R: Eprint, T, E: Display + Drop>(rt: &R, what: &str, outcome: Result<T, E>) -> Option<T>
    ensures { IfSome result (λ given. outcome ≡ Ok given) }
{
    match outcome {
        Ok(given) => Some(given),
        Err(e) => {
            let _ = eprintln!(rt; "purlanchor: {what}: {e}");
            None
        }
    }
}

// The bytes of the trace that were read and not used yet: in memory of a fixed size, and no `Vec`, since nothing of the port is allocated.
#[derive(Drop)]
struct Unread {
    buf: [u8; ROOM],
    len: usize,
    ghost within: { len ≤ 65536 },
}

impl Unread {
    fn new() -> Unread {
        Unread {
            buf: [0; ROOM],
            len: 0,
        }
    }

    fn bytes(&self) -> &[u8]
        ensures { length result.now ≡ self.now.len }
    {
        &self.buf[..self.len]
    }

    // Reads once behind what is there; how many bytes came.
    fn fill<R: Read>(&mut self, trace: &mut R) -> io::Result<usize>
        ensures { self.old.len ≤ self.new.len }
    {
        let n = trace.read(&mut self.buf[self.len..])?;
        self.len += n;
        Ok(n)
    }

    // Moves what stands behind the used bytes to the front. Where none was used, as when a record comes in many reads, all stays where it is.
    fn consume(&mut self, used: usize)
        requires { used ≤ self.old.len }
    {
        if used == 0 {
            return;
        }
        let left = self.len - used;
        self.buf[..].copy_within(used..self.len, 0);
        self.len = left;
    }
}

// Where a replay stands, the next line's number, the memory of its agent, and the lines that were put and not written yet. Sizes are
// numbers, since Rattle computes none for an array's type; `out` is no `Unread`: `put_line` writes it at its place, and it goes out whole.
#[derive(Drop)]
struct Replay {
    standing: Standing,
    number: u64,
    table: [u64; 576],
    store: [u8; 32768],
    out: [u8; ROOM],
    put: usize,
    ghost within: { put ≤ 65536 },
}

impl Replay {
    fn new() -> Replay {
        Replay {
            standing: replay::start(),
            number: 1,
            table: [0; 576],
            store: [0; 32768],
            out: [0; ROOM],
            put: 0,
        }
    }

    fn put_line(&mut self, reply: Option<Answer>)
        requires { self.old.put + 321 ≤ 65536 }
    {
        self.put = line::put_line(&mut self.out, self.put, self.number, Reply::Told(reply));
    }

    // All records that stand whole in a part of the trace, while there is room for any line: a turn that was taken can't be taken back.
    // A record that more input could make whole is left, unless there is no more. How many bytes were used; none where no other record
    // may follow. The loop of `replay::lines` ends where a line doesn't fit, and this one before a line might not: two conditions, two
    // loops.
    fn turns(&mut self, part: &[u8], last: bool) -> Option<usize>
        ensures { IfSome result (λ used. used ≤ length part.now) }
    {
        self.put = 0;
        let mut at = 0;
        // No `for` over records is plainer: how far one reaches is known only behind its turn.
        while at < part.len()
            && self.out.len() - self.put >= LONGEST_LINE
            && (last || !record::short_of(&part[at..]))
        {
            let t = replay::next_turn(self.standing, &part[at..], &mut self.table, &mut self.store);
            self.standing = t.standing;
            self.put_line(t.reply);
            if !t.more {
                return None;
            }
            at += t.next;
            self.number = self.number.checked_add(1)?;
        }
        Some(at)
    }

    fn lines(&self) -> &[u8] {
        &self.out[..self.put]
    }
}

// One read; every whole record; the lines out; what is left to the front. None at the end, so that each step can end it by `?`.
fn round<P: Print + Eprint, R: Read>(
    rt: &P,
    trace: &mut R,
    unread: &mut Unread,
    replay: &mut Replay,
) -> Option<()> {
    let read = or_say(rt, "the trace can't be read", unread.fill(trace));
    let last = read == Some(0);
    let used = replay.turns(unread.bytes(), last);
    or_say(
        rt,
        "the lines can't be written",
        rt.write_all(replay.lines()),
    )?;
    // Behind a read that failed there is no input, but no end either: what is left of a record then is no bad one.
    read?;
    let used = used?;
    unread.consume(used);
    // At the end of the input a part of which nothing was used is the last.
    if last && used == 0 { None } else { Some(()) }
}

// What a trace is read from: the input, or a file.
#[derive(Drop)]
enum Trace<I, F> {
    Input(I),
    File(F),
}

impl<I: Read, F: Read> Read for Trace<I, F> {
    fn read(&mut self, buf: &mut [u8]) -> io::Result<usize> {
        match self {
            Trace::Input(input) => input.read(buf),
            Trace::File(file) => file.read(buf),
        }
    }
}

// The longest name of a file that is taken, in bytes.
const LONGEST_NAME: usize = 4096;

// Whether the program was started with an argument i, whatever it is.
fn has_argument<E: Env>(env: &E, i: usize) -> bool {
    !matches!(env.arg(i, &mut [0u8; 0]), Err(FillError::NotPresent))
}

// The trace: standard input without an argument, the file that it names with one; none where there is none.
fn open<R: Env + Input + Files + Eprint>(rt: &R) -> Option<Trace<R::Reader, R::File>> {
    if !has_argument(rt, 1) {
        return Some(Trace::Input(rt.reader()));
    }
    if has_argument(rt, 2) {
        let _ = eprintln!(rt; "purlanchor: one trace at a time");
        return None;
    }
    let mut name = [0u8; LONGEST_NAME];
    let given = rt.arg(1, &mut name).map_err(|_| "File name too long");
    let n = or_say(rt, "the trace's name", given)?;
    let text = str::from_utf8(&name[..n]).map_err(|_| "not UTF-8");
    let name = or_say(rt, "the trace's name", text)?;
    let file = or_say(rt, name, File::open(rt, name))?;
    Some(Trace::File(file))
}

fn main(rt: HostRuntime) {
    let Some(mut trace) = open(&rt) else {
        return;
    };
    let mut unread = Unread::new();
    let mut replay = Replay::new();
    for _ in 0..u64::MAX {
        if round(&rt, &mut trace, &mut unread, &mut replay).is_none() {
            return;
        }
    }
}
