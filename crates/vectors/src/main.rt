// Reads the sample messages of RFC 5769, sections 2.1 to 2.4, and damaged copies of them, and prints what it finds of each, a line each:
// class, method, identifier and integrity, or `bad`. The file stdout beside this says what RFC 5769 and RFC 8489 want there.
#![tactic(auto)]

ghost use Rattle.std.specs.Prelude.{◌≤◌, length, IfOk};

use message::{IntegrityAlgorithm, Message, MessageClass, TransactionId};
use std::fs::File;
use std::io;
use std::io::{ErrorKind, Read, Write};
use std::rt::Files;

// What a hexadecimal digit in lower case stands for; `to_digit` would take capitals too.
fn digit(c: u8) -> Option<u8> {
    match c {
        b'0'..=b'9' => Some(c - b'0'),
        b'a'..=b'f' => Some(c - b'a' + 10),
        _ => None,
    }
}

// The bytes that a text of hexadecimal digits spells, other characters being passed, as many as fit. What is counted is how many were put:
// the `for` ends early.
fn unhex<'a>(text: &[u8], out: &'a mut [u8]) -> &'a [u8]
    ensures { length result.now ≤ length out.old }
{
    let mut digits = text.iter().filter_map(|c| digit(*c));
    let mut n = 0;
    for byte in out.iter_mut() {
        let (Some(high), Some(low)) = (digits.next(), digits.next()) else {
            break;
        };
        *byte = high << 4 | low;
        n += 1;
    }
    &out[..n]
}

// The bytes up to the end of the input or of the buffer. A read that a signal interrupts is tried again.
// No `bytes()` of the file: it asks the system for each byte by itself.
fn read_full<'a, R: Read>(from: &mut R, text: &'a mut [u8]) -> io::Result<&'a [u8]>
    ensures { IfOk result (λ part. length part.now ≤ length text.old) }
{
    let mut n = 0;
    for _ in 0..u64::MAX {
        if n >= text.len() {
            break;
        }
        match from.read(&mut text[n..]) {
            Ok(0) => break,
            Ok(got) => n += got,
            Err(e) if e.kind() == ErrorKind::Interrupted => {}
            Err(e) => return Err(e),
        }
    }
    Ok(&text[..n])
}

fn load<'a, R: Files + Eprint>(rt: &R, path: &str, out: &'a mut [u8]) -> io::Result<&'a [u8]> {
    let mut file = match File::open(rt, path) {
        Ok(file) => file,
        Err(e) => {
            eprintln!(rt; "{path}: {e}")?;
            return Ok(&[]);
        }
    };
    let mut text = [0u8; 1024];
    Ok(unhex(read_full(&mut file, &mut text)?, out))
}

// The names of both are this program's: `Display` would be the other crate's to have, and it prints nothing.
fn class_name(class: MessageClass) -> &'static str {
    match class {
        MessageClass::Request => "request",
        MessageClass::Indication => "indication",
        MessageClass::Success => "success",
        MessageClass::Error => "error",
    }
}

fn integrity_name(integrity: Option<IntegrityAlgorithm>) -> &'static str {
    match integrity {
        None => "none",
        Some(IntegrityAlgorithm::Sha1) => "sha1",
        Some(IntegrityAlgorithm::Sha256) => "sha256",
    }
}

fn show<W: Write>(to: &mut W, name: &str, s: &[u8]) -> io::Result<()> {
    let Some(m) = Message::from_bytes(s) else {
        return writeln!(to, "{name}: bad");
    };
    let class = class_name(m.class);
    let method = m.method;
    let TransactionId { hi, lo } = m.transaction_id;
    let integrity = integrity_name(m.integrity);
    writeln!(
        to,
        "{name}: {class} {method:03x} {hi:08x}{lo:016x} {integrity}"
    )
}

// The first n bytes with another byte at one place: n is no length of the message, since some copies are cut or a byte longer.
fn show_changed<W: Write>(
    to: &mut W,
    name: &str,
    m: [u8; 128],
    n: usize,
    at: usize,
    byte: u8,
) -> io::Result<()> {
    let mut copy = m;
    if at < copy.len() {
        copy[at] = byte;
    }
    show(to, name, &copy[..n.min(copy.len())])
}

fn main(rt: HostRuntime) -> io::Result<()> {
    let mut out = io::writer(&rt);
    let mut m = [0u8; 128];
    let mut other = [0u8; 128];
    let whole = load(&rt, "rfc5769-2.1-request.hex", &mut m)?;
    show(&mut out, "2.1", whole)?;
    let whole = load(&rt, "rfc5769-2.2-ipv4-response.hex", &mut other)?;
    show(&mut out, "2.2", whole)?;
    let whole = load(&rt, "rfc5769-2.3-ipv6-response.hex", &mut other)?;
    show(&mut out, "2.3", whole)?;
    let whole = load(&rt, "rfc5769-2.4-long-term-request.hex", &mut other)?;
    show(&mut out, "2.4", whole)?;
    show_changed(&mut out, "2.1, a bit of the cookie", m, 108, 7, 0x43)?;
    show_changed(&mut out, "2.1, the top bit of the type", m, 108, 0, 0x80)?;
    show_changed(&mut out, "2.1, the second bit of the type", m, 108, 0, 0x40)?;
    show_changed(&mut out, "2.1, the length 4 more", m, 108, 3, 0x5c)?;
    show_changed(&mut out, "2.1, the length 4 less", m, 108, 3, 0x54)?;
    show_changed(&mut out, "2.1, the length 1 more", m, 108, 3, 0x59)?;
    show_changed(
        &mut out,
        "2.1, the length 1 more, and so the message",
        m,
        109,
        3,
        0x59,
    )?;
    show_changed(&mut out, "2.1, the last byte cut off", m, 107, 0, 0)?;
    show_changed(&mut out, "2.1, the head alone", m, 20, 3, 0)?;
    show_changed(&mut out, "2.1, a head without its last byte", m, 19, 3, 0)?;
    show_changed(
        &mut out,
        "2.1, the last attribute 1 byte longer",
        m,
        108,
        103,
        5,
    )?;
    show_changed(
        &mut out,
        "2.1, other padding behind the user name",
        m,
        108,
        75,
        0xff,
    )?;
    show_changed(&mut out, "2.1, the lower class bit set", m, 108, 1, 0x11)?;
    show_changed(&mut out, "2.1, the upper class bit set", m, 108, 0, 0x01)?;
    show_changed(&mut out, "2.1, the highest method bit set", m, 108, 0, 0x20)?;
    show_changed(
        &mut out,
        "2.1, the type of MESSAGE-INTEGRITY-SHA256",
        m,
        108,
        77,
        0x1c,
    )?;
    show_changed(&mut out, "2.1, no integrity type", m, 108, 77, 0x09)
}
