// Calls a function of the table many times, so that its instructions can be counted (tools/costs). Its arguments: a letter for the call,
// the number of requests, and the number of turns. It prints a sum of what the calls answered.
#![tactic(auto)]

ghost use Rattle.std.specs.Prelude.{◌<◌};
ghost use Rattle.waits.specs.Waits.{Limits};

use address::{Address, Host};
use message::TransactionId;
use request::StunRequestState;
use requests::Polled;
use std::env::Env;
use std::io;
use std::io::Write;
use waits::{RequestRto, Transport};

// The largest clock mark, 2^60.
const MARK: u64 = 1 << 60;

// The words of a table: 32 rows of 18. Words and count go apart, as the calls that are measured take them; what a call answers here is
// a number for the sum that is printed.
type Words = [u64; 576];

// A request sent at a clock, whose identifier ends in k.
fn request_of(k: u64, row: usize, clock: u64, rto: RequestRto) -> StunRequestState
    requires { (row < 32) × Limits rto }
{
    let id = TransactionId { hi: 7, lo: k };
    let to = Address {
        host: Host::V4(0x7f000001),
        port: 3478,
    };
    StunRequestState::submitted(Transport::Udp, clock, id, None, row, 20, to, rto)
}

fn insert(t: &mut Words, n: usize, at: usize, k: u64, clock: u64) -> u64 {
    let rto = RequestRto::default();
    if !rto.within_limits() || n >= 32 || at > n {
        return 0;
    }
    let r = request_of(k, n, clock, rto);
    table::insert(t, n, at, r);
    1
}

fn remove(t: &mut Words, n: usize, at: usize) -> u64 {
    if n > 32 || at >= n {
        return 0;
    }
    table::remove(t, n, at);
    1
}

fn formed(t: &Words, n: usize) -> u64 {
    formed::is_formed(t, n, MARK) as u64
}

fn find(t: &Words, n: usize, k: u64) -> u64 {
    if !formed::is_formed(t, n, MARK) {
        return 0;
    }
    match table::find(t, n, TransactionId { hi: 7, lo: k }) {
        Some((place, _)) => place as u64,
        None => 64,
    }
}

fn transmit(t: &mut Words, n: usize, clock: u64) -> u64 {
    if !formed::is_formed(t, n, MARK) {
        return 0;
    }
    match table::poll_transmit(t, n, Transport::Udp, clock) {
        Some(_) => 1,
        None => 2,
    }
}

fn poll(t: &Words, n: usize, clock: u64) -> u64 {
    if clock > MARK || !formed::is_formed(t, n, MARK) {
        return 0;
    }
    match table::poll(t, n, Transport::Udp, clock) {
        Polled::WaitUntil(_) => 1,
        Polled::TimedOut { place: _, id: _ } => 2,
        Polled::Cancelled { place: _, id: _ } => 3,
    }
}

// The call whose instructions are counted.
#[derive(Clone, Copy)]
enum Call {
    Find,
    Insert,
    Poll,
    Remove,
    Transmit,
    Formed,
}

impl TryFrom<u8> for Call {
    type Error = ();

    fn try_from(letter: u8) -> Result<Call, ()> {
        match letter {
            b'f' => Ok(Call::Find),
            b'i' => Ok(Call::Insert),
            b'p' => Ok(Call::Poll),
            b'r' => Ok(Call::Remove),
            b't' => Ok(Call::Transmit),
            b'w' => Ok(Call::Formed),
            _ => Err(()),
        }
    }
}

// One turn, which for no call is what all turns take besides. Nothing is due at these clocks; insertion and removal are at the middle
// place.
// A switch at each turn and no closure. Tried with one: the compiler then takes a call that changes nothing out of the loop, and what is
// to be counted isn't done.
fn turn(t: &mut Words, call: Option<Call>, n: usize, clock: u64) -> u64 {
    let middle = n / 2;
    match call {
        None => 0,
        Some(Call::Find) => find(t, n, middle as u64),
        Some(Call::Insert) => {
            if n == 0 {
                return 0;
            }
            insert(t, n - 1, middle, middle as u64, clock)
        }
        Some(Call::Poll) => poll(t, n, clock),
        Some(Call::Remove) => remove(t, n, middle),
        Some(Call::Transmit) => transmit(t, n, clock),
        Some(Call::Formed) => formed(t, n),
    }
}

// The number that decimal digits spell, up to ten million; other characters are passed, where `parse` would refuse them.
fn number(text: &[u8]) -> u64 {
    let mut value: u32 = 0;
    for c in text {
        if let Some(d) = (*c as char).to_digit(10) {
            if value < 1000000 {
                value = value * 10 + d;
            }
        }
    }
    value as u64
}

fn run(t: &mut Words, call: Option<Call>, n: usize, turns: u64) -> u64 {
    for made in 0..n {
        insert(t, made, made, made as u64, 0);
    }
    let mut sum: u64 = 0;
    for k in 0..turns {
        sum = sum.wrapping_add(turn(t, call, n, k));
    }
    sum
}

// The first bytes of an argument, and zeros behind it or where there is none.
fn argument<E: Env>(env: &E, i: usize) -> [u8; 16] {
    let mut text = [0u8; 16];
    let _ = env.arg(i, &mut text);
    text
}

fn main(rt: HostRuntime) -> io::Result<()> {
    let mut t = [0u64; 576];
    let letter = argument(&rt, 1);
    let n = argument(&rt, 2);
    let turns = argument(&rt, 3);
    let count = number(&n) as usize;
    if count > 32 {
        return Ok(());
    }
    let call = Call::try_from(letter[0]).ok();
    let sum = run(&mut t, call, count, number(&turns));
    writeln!(io::writer(&rt), "{sum:020}")
}
