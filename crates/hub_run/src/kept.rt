// The line so far, as much of it as is kept.
ghost use Rattle.std.specs.Prelude.{◌≡◌, [], ◌≤◌, eqb, length, replicate};
ghost use Rattle.hub_rules.specs.Stream.{line_kept};
ghost use Rattle.hub_run.specs.Held.{extended};

use std::marker::Model;

// Of a line so many bytes are kept.
pub const LINE_KEPT: usize = 4097;

// The first len bytes are the line so far; beyond them is what earlier lines left.
#[derive(Clone, Copy)]
pub struct Line {
    pub bytes: [u8; LINE_KEPT],
    pub len: usize,
}

impl Model for Line {
    ghost use Rattle.std.specs.Prelude.{◌≤◌, length, take};
    ghost use mathlib.Core.Path.{ap};
    ghost use lib.Seq.{length-take-le};
    ghost use Rattle.hub_rules.specs.Stream.{line_kept};
    ghost use Rattle.hub_run.specs.Held.{Kept};

    ghost Value = { Kept };

    ghost view = { λ l. record { line = take l.len l.bytes; bytes = l.bytes } };

    ghost invariant = { λ l. (l.len ≤ line_kept) × (l.len ≤ length l.bytes) };

    ghost inverse = { λ k. record { bytes = k.bytes; len = length k.line } };

    ghost inverse_ok = { λ l h. ap (λ n. record { bytes = l.bytes; len = n }) (length-take-le l.len l.bytes h.1) };
}

impl Line {
    pub fn new() -> Line
        ensures { result ≡ record { line = []; bytes = replicate 4097 0 } }
    {
        Line {
            bytes: [0; LINE_KEPT],
            len: 0,
        }
    }

    pub fn as_slice(&self) -> &[u8]
        ensures { result.now ≡ self.now.line }
    {
        &self.bytes[..self.len]
    }

    pub fn is_empty(&self) -> bool
        ensures { result ≡ eqb (length self.now.line) 0 }
    {
        self.len == 0
    }

    // More of the line, as much of it as is kept.
    pub fn extend(&mut self, piece: &[u8])
        ensures within { (length self.old.line ≤ line_kept) × (line_kept ≤ length self.old.bytes) }
        ensures longer { self.new ≡ extended self.old piece.now }
    {
        let n = piece.len().min(LINE_KEPT - self.len);
        octets::put(&mut self.bytes[self.len..], &piece[..n]);
        self.len += n;
    }

    // The next line begins.
    pub fn clear(&mut self)
        ensures { self.new ≡ record { line = []; bytes = self.old.bytes } }
    {
        self.len = 0;
    }
}
