// A round-trip time as text.
#![tactic(auto)]

use std::fmt;
use std::fmt::Display;

// A number, or `-` for an absent one.
#[derive(Clone, Copy)]
pub struct Time(pub Option<u64>);

impl Display for Time {
    fn fmt<W: fmt::Write>(&self, f: &mut fmt::Formatter<W>) -> fmt::Result {
        match self.0 {
            None => f.write_str("-"),
            Some(n) => write!(f, "{n}"),
        }
    }
}
