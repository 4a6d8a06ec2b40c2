// What the programs that run vectors write to standard output.
//
// No contract can say which bytes a call of C's writes, and these return nothing: they are held to
// the programs' file stdout. A write that fails is passed over.
#![tactic(auto)]

use std::fmt;

pub fn text(rt: &impl Print, s: &[u8]) {
    let _ = rt.write_all(s);
}

pub fn space(rt: &impl Print) {
    text(rt, b" ");
}

pub fn line_end(rt: &impl Print) {
    text(rt, b"\n");
}

// In decimal.
pub fn number(rt: &impl Print, n: u64) {
    let _ = rt.print(n);
}

// Bytes that are shown as two hex digits each.
#[derive(Drop)]
pub struct Hex<'a>(pub &'a [u8]);

impl fmt::Display for Hex<'_> {
    fn fmt<W: fmt::Write>(&self, f: &mut fmt::Formatter<W>) -> fmt::Result {
        for b in self.0 {
            write!(f, "{b:02x}")?;
        }
        Ok(())
    }
}

// Each byte as two hex digits.
pub fn bytes(rt: &impl Print, s: &[u8]) {
    let _ = rt.print(Hex(s));
}
