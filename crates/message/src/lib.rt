// STUN messages (RFC 8489, sections 5 and 14): what stun-types reads for the Rust. Every reader takes any bytes; its promise is an
// equation with a definition of specs/.
#![tactic(auto)]

ghost use Rattle.std.specs.Prelude.{◌≡◌, ◌+◌, ◌≤◌, length};
ghost use Rattle.message.specs.Head.{id_at, class_of, method_of, head_of};
ghost use Rattle.message.specs.Attributes.{step_at, later, walk_of, message_of};

// The bytes of a message's head.
const HEAD: usize = 20;

// The first two bits of a message are zero, so its type is below this.
const TYPES: u16 = 0x4000;

const MAGIC_COOKIE: u32 = 0x2112A442;

// The types of the two integrity attributes (sections 14.5 and 14.6).
const MESSAGE_INTEGRITY: u16 = 0x0008;

const MESSAGE_INTEGRITY_SHA256: u16 = 0x001C;

// `hi` is the first 4 bytes, `lo` the last 8; `<` is the order of the Rust's map.
#[derive(Clone, Copy, Debug, PartialEq, Eq, PartialOrd, Ord)]
pub struct TransactionId {
    pub hi: u32,
    pub lo: u64,
}

#[derive(Clone, Copy, Debug, PartialEq, Eq)]
pub enum MessageClass {
    Request,
    Indication,
    Success,
    Error,
}

#[derive(Clone, Copy, Debug, PartialEq, Eq)]
pub struct MessageHeader {
    pub class: MessageClass,
    pub method: u16,
    pub transaction_id: TransactionId,
    pub length: u16,
}

// What stands at a place of the attributes: an attribute, whose value starts at `start`, and the place of the next one; one that passes
// the end of the message; or nothing more. An enum that the walk takes apart by `let else`, and no iterator: the form that document 01
// names for it.
#[derive(Clone, Copy, Debug, PartialEq, Eq)]
pub enum Step {
    Attribute {
        kind: u16,
        start: usize,
        len: usize,
        next: usize,
    },
    Past,
    End,
}

#[derive(Clone, Copy, Debug, PartialEq, Eq)]
pub enum IntegrityAlgorithm {
    Sha1,
    Sha256,
}

#[derive(Clone, Copy, Debug, PartialEq, Eq)]
pub struct Message {
    pub class: MessageClass,
    pub method: u16,
    pub transaction_id: TransactionId,
    pub integrity: Option<IntegrityAlgorithm>,
}

impl TransactionId {
    #[tactic(auto, unfolding(crate::specs::Head::id_at))]
    pub fn from_bytes(s: &[u8], at: usize) -> Self
        requires { at + 12 ≤ length s.now }
        ensures { result ≡ id_at s.now at }
    {
        Self {
            hi: wire::read(s, at),
            lo: wire::read(s, at + 4),
        }
    }
}

// No `From`: a class is two bits of a type, and not what a type is.
#[tactic(auto, unfolding(crate::specs::Head::class_of))]
pub fn class_of(t: u16) -> MessageClass
    ensures { result ≡ class_of t }
{
    match (t / 256 % 2, t / 16 % 2) {
        (0, 0) => MessageClass::Request,
        (0, _) => MessageClass::Indication,
        (_, 0) => MessageClass::Success,
        _ => MessageClass::Error,
    }
}

pub fn method_of(t: u16) -> u16
    ensures { result ≡ method_of t }
{
    t / 512 % 32 * 128 + t / 32 % 8 * 16 + t % 16
}

impl MessageHeader {
    #[tactic(auto, unfolding(crate::specs::Head::head_of, crate::specs::Head::head_good, crate::specs::Head::read_head))]
    pub fn from_bytes(s: &[u8]) -> Option<MessageHeader>
        ensures { result ≡ head_of s.now }
    {
        if s.len() < HEAD {
            return None;
        }
        let kind = wire::read::<u16>(s, 0);
        let length = wire::read::<u16>(s, 2);
        if kind >= TYPES
            || wire::read::<u32>(s, 4) != MAGIC_COOKIE
            || length % 4 != 0
            || s.len() - HEAD != usize::from(length)
        {
            return None;
        }
        Some(MessageHeader {
            class: class_of(kind),
            method: method_of(kind),
            transaction_id: TransactionId::from_bytes(s, 8),
            length,
        })
    }
}

#[tactic(auto, unfolding(crate::specs::Attributes::step_at))]
pub fn attribute_at(s: &[u8], at: usize) -> Step
    ensures { result ≡ step_at s.now at }
{
    if s.len() <= at {
        return Step::End;
    }
    if s.len() - at < 4 {
        return Step::Past;
    }
    let start = at + 4;
    let len = usize::from(wire::read::<u16>(s, at + 2));
    let next = start + len.next_multiple_of(4);
    if s.len() < next {
        return Step::Past;
    }
    Step::Attribute {
        kind: wire::read(s, at),
        start,
        len,
        next,
    }
}

// What counts once an attribute of this type is passed.
#[tactic(auto, unfolding(crate::specs::Attributes::later))]
fn after(found: Option<IntegrityAlgorithm>, kind: u16) -> Option<IntegrityAlgorithm>
    ensures { result ≡ later found kind }
{
    match kind {
        MESSAGE_INTEGRITY => Some(IntegrityAlgorithm::Sha1),
        MESSAGE_INTEGRITY_SHA256 => Some(IntegrityAlgorithm::Sha256),
        _ => found,
    }
}

// The walk over all attributes of a message, which start behind its head: none where one passes the end, else the integrity, which again
// may be none.
pub fn integrity_of(s: &[u8]) -> Option<Option<IntegrityAlgorithm>>
    ensures { result ≡ walk_of s.now }
{
    let mut at = HEAD;
    let mut found = None;
    while at < s.len() {
        let Step::Attribute { kind, next, .. } = attribute_at(s, at) else {
            return None;
        };
        found = after(found, kind);
        at = next;
    }
    Some(found)
}

impl Message {
    #[tactic(auto, unfolding(crate::specs::Attributes::message_of))]
    pub fn from_bytes(s: &[u8]) -> Option<Message>
        ensures { result ≡ message_of s.now }
    {
        let head = MessageHeader::from_bytes(s)?;
        let integrity = integrity_of(s)?;
        Some(Message {
            class: head.class,
            method: head.method,
            transaction_id: head.transaction_id,
            integrity,
        })
    }
}
