// Socket addresses: what `core::net::SocketAddr` is in the Rust.
#![tactic(auto)]

ghost use Rattle.std.specs.Prelude.{◌≡◌};
ghost use Rattle.address.specs.Address.{same_address};

// An IPv6 address is its first eight bytes, `hi`, and its last eight, `lo`.
#[derive(Clone, Copy, Debug, PartialEq, Eq)]
pub enum Host {
    V4(u32),
    V6 {
        hi: u64,
        lo: u64,
        flow: u32,
        scope: u32,
    },
}

// A host and a port: the element of the list of peers that a host lends.
#[derive(Clone, Copy, Debug, PartialEq, Eq)]
pub struct Address {
    pub host: Host,
    pub port: u16,
}

// What the derived `==` says, as of two `SocketAddr`: the kind and every number are equal. docs/STATEMENTS.md names it.
pub fn same_address(a: Address, b: Address) -> bool
    ensures { result ≡ same_address a b }
{
    a == b
}
