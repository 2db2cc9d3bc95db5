// Answers as lines of text: document 01, "Replay program". A line is put into a lent buffer at a place. Bytes that pass the end of the
// buffer are left out, and the place then is one past the end: whoever asked sees that the text didn't fit, and no line needs a bound on
// its length.
#![tactic(auto)]

ghost use Rattle.std.specs.Prelude.{◌≡◌, ◌+◌, ◌≤◌, ◌<◌, ◌++◌, ◌∷◌, [], length, min};
ghost use Rattle.line.specs.Lines.{Puts, line_by};

use itoa::Buffer;
use message::{IntegrityAlgorithm, TransactionId};
use model::Answer;
use stats::StunAgentStats;

// No line is longer: its number and 14 fields of `stats`, of 20 digits each (proofs/Lengths).
pub const LONGEST_LINE: usize = 321;

// What a line says: the agent's answer, or `bad` where there is none; or a refusal by any number, as a host may have some of its own.
#[derive(Clone, Copy, Debug, PartialEq, Eq)]
pub enum Reply {
    Told(Option<Answer>),
    Refused(u64),
}

// A lent buffer, and the place in it where the next text goes.
// Methods and not `Display`: `write!` promises its text only on `Ok`, and a line is promised always, so the proof of `id` didn't close.
#[derive(Drop)]
struct Text<'a> {
    out: &'a mut [u8],
    at: usize,
    ghost within: { at ≤ length out.now + 1 },
}

impl<'a> Text<'a> {
    ghost use Rattle.line.specs.Lines.{decimal_of, digits, id_text, field_of, rtt_text, integrity_text, stats_text};
    ghost use Rattle.line.specs.Lines.{answer_text, reply_text, refused_text, said_text};
    ghost use Rattle.line.specs.Texts.{Adds};

    fn new(out: &'a mut [u8], at: usize) -> Text<'a>
        ensures same { result.out.ghost_name ≡ out.entry.ghost_name }
        ensures bytes { result.out.now ≡ out.old }
        ensures place { result.at ≡ min at (length out.old + 1) }
    {
        let at = at.min(out.len() + 1);
        Text { out, at }
    }

    fn byte(&mut self, b: u8)
        ensures { Adds self.old (b ∷ []) self.new }
    {
        if self.at < self.out.len() {
            self.out[self.at] = b;
            self.at += 1;
        } else {
            self.at = self.out.len() + 1;
        }
    }

    fn bytes(&mut self, bytes: &[u8])
        ensures { Adds self.old bytes.now self.new }
    {
        for b in bytes {
            self.byte(*b);
        }
    }

    // The shortest decimal of n.
    fn decimal(&mut self, n: u64)
        ensures { Adds self.old (decimal_of n) self.new }
    {
        self.bytes(Buffer::new().format(n).as_bytes());
    }

    // The last k hexadecimal digits of n. A recursion, as `digits` of specs/ is: a loop would say the same of what is left, and is no
    // plainer.
    fn hex(&mut self, k: usize, n: u64)
        ensures { Adds self.old (digits 16 k n) self.new }
    {
        if k == 0 {
            return;
        }
        self.hex(k - 1, n / 16);
        self.byte(char::from_digit((n % 16) as u32, 16).unwrap() as u8);
    }

    fn id(&mut self, id: TransactionId)
        ensures { Adds self.old (id_text id) self.new }
    {
        self.hex(8, id.hi as u64);
        self.hex(16, id.lo);
    }

    // A space and a number.
    fn field(&mut self, n: u64)
        ensures { Adds self.old (field_of n) self.new }
    {
        self.byte(b' ');
        self.decimal(n);
    }

    #[tactic(auto, unfolding(crate::specs::Lines::rtt_text))]
    fn rtt(&mut self, t: Option<u64>)
        ensures { Adds self.old (rtt_text t) self.new }
    {
        match t {
            None => self.bytes(b" -"),
            Some(n) => self.field(n),
        }
    }

    #[tactic(auto, unfolding(crate::specs::Lines::integrity_text))]
    fn integrity(&mut self, integrity: Option<IntegrityAlgorithm>)
        ensures { Adds self.old (integrity_text integrity) self.new }
    {
        match integrity {
            None => self.bytes(b"none"),
            Some(IntegrityAlgorithm::Sha1) => self.bytes(b"sha1"),
            Some(IntegrityAlgorithm::Sha256) => self.bytes(b"sha256"),
        }
    }

    fn stats(&mut self, s: StunAgentStats)
        ensures { Adds self.old (stats_text s) self.new }
    {
        self.bytes(b"stats");
        self.field(s.requests_sent);
        self.field(s.requests_received);
        self.field(s.responses_sent);
        self.field(s.responses_received);
        self.field(s.indications_sent);
        self.field(s.indications_received);
        self.field(s.transactions_timed_out);
        self.field(s.transactions_cancelled);
        self.field(s.bytes_sent);
        self.field(s.bytes_received);
        self.field(s.rtt_sum);
        self.rtt(s.rtt_min);
        self.rtt(s.rtt_max);
        self.field(s.rtt_count);
    }

    fn named(&mut self, word: &[u8], id: TransactionId)
        ensures { Adds self.old (word.now ++ id_text id) self.new }
    {
        self.bytes(word);
        self.id(id);
    }

    // A word, a space and a number.
    fn counted(&mut self, word: &[u8], n: u64)
        ensures { Adds self.old (word.now ++ field_of n) self.new }
    {
        self.bytes(word);
        self.field(n);
    }

    #[tactic(auto, unfolding(crate::specs::Lines::answer_text))]
    fn answer(&mut self, answer: Answer)
        ensures { Adds self.old (answer_text answer) self.new }
    {
        match answer {
            Answer::Refused(refusal) => self.counted(b"refused", refusal.number()),
            Answer::Ok => self.bytes(b"ok"),
            Answer::Yes => self.bytes(b"yes"),
            Answer::No => self.bytes(b"no"),
            Answer::None => self.bytes(b"none"),
            Answer::Send {
                id,
                to: _,
                row: _,
                len,
            } => {
                self.named(b"send ", id);
                self.field(len as u64);
            }
            Answer::Wait(clock) => self.counted(b"wait", clock),
            Answer::TimedOut(id) => self.named(b"timeout ", id),
            Answer::Cancelled(id) => self.named(b"cancelled ", id),
            Answer::Stats(s) => self.stats(s),
            Answer::Average(rtt) => {
                self.bytes(b"average");
                self.rtt(rtt);
            }
            Answer::Outstanding(n) => self.counted(b"outstanding", n),
            Answer::Request { to: _, integrity } => self.integrity(integrity),
        }
    }

    // The answer, or `bad` where there is none.
    #[tactic(auto, unfolding(crate::specs::Lines::reply_text))]
    fn reply(&mut self, reply: Option<Answer>)
        ensures { Adds self.old (reply_text reply) self.new }
    {
        match reply {
            Some(answer) => self.answer(answer),
            None => self.bytes(b"bad"),
        }
    }

    #[tactic(auto, unfolding(crate::specs::Lines::refused_text))]
    fn refused(&mut self, number: u64)
        ensures { Adds self.old (refused_text number) self.new }
    {
        self.counted(b"refused", number)
    }

    fn said(&mut self, reply: Reply)
        ensures { Adds self.old (said_text reply) self.new }
    {
        match reply {
            Reply::Told(reply) => self.reply(reply),
            Reply::Refused(number) => self.refused(number),
        }
    }
}

// A whole line: its number, the reply, the line feed. The place afterwards is a number, one past the end where the line doesn't fit: what
// this promises may not change.
pub fn put_line(out: &mut [u8], at: usize, number: u64, reply: Reply) -> usize
    ensures { Puts out.old at (line_by number reply) out.new result }
{
    let mut text = Text::new(out, at);
    text.decimal(number);
    text.byte(b' ');
    text.said(reply);
    text.byte(b'\n');
    text.at
}
