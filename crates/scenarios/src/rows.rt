// The lent store: copies into rows, and the parts handed back.
#![tactic(auto)]

use std::io;
use std::io::Write;

fn show<W: Write>(out: &mut W, store: &[u8], row: usize, len: usize) -> io::Result<()> {
    write!(out, "[")?;
    out.write_all(store::part(store, row, len))?;
    writeln!(out, "]")
}

pub fn copies<W: Write>(out: &mut W) -> io::Result<()> {
    writeln!(out, "# a message in one row leaves the others alone")?;
    let mut lent = [46u8; 32768];
    store::copy(&mut lent, 0, b"first row");
    store::copy(&mut lent, 31, b"last row");
    show(out, &lent, 0, 9)?;
    show(out, &lent, 31, 8)?;
    show(out, &lent, 31, 12)?;
    show(out, &lent, 1, 4)?;
    store::copy(&mut lent, 0, b"again");
    show(out, &lent, 0, 9)?;
    show(out, &lent, 31, 8)
}

pub fn edges<W: Write>(out: &mut W) -> io::Result<()> {
    writeln!(out, "# no such row, no room in a row, a store too short")?;
    let mut lent = [46u8; 32768];
    store::copy(&mut lent, 32, b"nowhere");
    show(out, &lent, 32, 7)?;
    show(out, &lent, 31, 7)?;
    let long = [45u8; 1025];
    store::copy(&mut lent, 5, &long);
    show(out, &lent, 5, 7)?;
    show(out, &lent, 5, 1025)?;
    let mut short = [46u8; 32767];
    store::copy(&mut short, 0, b"too short");
    show(out, &short, 0, 9)
}
