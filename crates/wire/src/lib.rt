// Numbers in network byte order, the first byte heaviest, as STUN messages (RFC 8489, section 5) and traces hold them.
#![tactic(auto)]

ghost use Rattle.std.specs.Prelude.{◌≡◌, ℕ, ◌+◌, ◌≤◌, List, length};
ghost use Rattle.wire.specs.Wire.{be16, be32, be64, bytes_at};

fn bytes_at<const N: usize>(s: &[u8], at: usize) -> [u8; N]
    requires { at + N ≤ length s.now }
    ensures { result ≡ bytes_at s.now at N }
{
    s[at..at + N].try_into().unwrap()
}

// A number of so many bytes, and how the bytes from a place on spell it.
pub trait Number {
    ghost size: { ℕ };

    ghost spelled: { List ℕ → ℕ → Self };

    fn read(s: &[u8], at: usize) -> Self
        requires { at + size ≤ length s.now }
        ensures { result ≡ spelled s.now at };
}

impl Number for u16 {
    ghost size = { 2 };

    ghost spelled = { be16 };

    fn read(s: &[u8], at: usize) -> u16 {
        u16::from_be_bytes(bytes_at(s, at))
    }
}

impl Number for u32 {
    ghost size = { 4 };

    ghost spelled = { be32 };

    fn read(s: &[u8], at: usize) -> u32 {
        u32::from_be_bytes(bytes_at(s, at))
    }
}

impl Number for u64 {
    ghost size = { 8 };

    ghost spelled = { be64 };

    fn read(s: &[u8], at: usize) -> u64 {
        u64::from_be_bytes(bytes_at(s, at))
    }
}

// The number at a place.
pub fn read<N: Number>(s: &[u8], at: usize) -> N
    requires { at + N.size ≤ length s.now }
    ensures { result ≡ N.spelled s.now at }
{
    N::read(s, at)
}
