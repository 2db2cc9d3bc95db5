// The list of peer addresses that the host lends: the Rust's `validated_peers`, a set, is a slice of which the first so many are in use.
// The two functions over it are thin: the form that document 01 names.
#![tactic(auto)]

ghost use Rattle.std.specs.Prelude.{◌≡◌, set, take};
ghost use Rattle.peers.specs.Peers.{listed};

use address::Address;

// Whether the address is among the first n; all are looked at where there are fewer.
pub fn has_peer(peers: &[Address], n: usize, a: Address) -> bool
    ensures { result ≡ listed a (take n peers.now) }
{
    peers.iter().take(n).any(|p| *p == a)
}

// Puts the address at place i; past the end nothing changes.
pub fn put_peer(peers: &mut [Address], i: usize, a: Address)
    ensures { peers.new ≡ set peers.old i a }
{
    // Tried by `get_mut`, and the proof didn't close: after a write through it nothing is known of any element.
    if i < peers.len() {
        peers[i] = a;
    }
}
