// The state between two chunks.
ghost use Rattle.std.specs.Prelude.{◌≡◌, ◌≤◌, ◌||◌, ◌+◌, eqb, length, replicate};
ghost use Rattle.text.specs.Writing.{Puts};
ghost use Rattle.hub_rules.specs.Stream.{begin, is_done};
ghost use Rattle.hub_rules.specs.Whole.{heading, last_line};

use crate::kept::Line;
use std::marker::Model;

// Room for a line of output.
pub(crate) const LINE_ROOM: usize = 4200;

// So many lines are read, the first among them.
const LINES: u32 = 10000;

// The lines that have ended, the first among them; whether that was another line than it must be; the
// accepted lines of sets 1 to 10; the line so far.
// `wrong` is a flag by itself, as in the definition of the state: no value goes with it.
#[derive(Clone, Copy)]
pub struct Hub {
    pub lines: u32,
    pub wrong: bool,
    pub counts: [u32; 10],
    pub line: Line,
}

// Clauses see the state of the run, and the whole buffer that holds the line so far.
impl Model for Hub {
    ghost use Rattle.hub_run.specs.Held.{Held, value_of, Sound};

    ghost Value = { Held };

    ghost view = { λ h. value_of h.lines h.wrong h.counts h.line };

    ghost invariant = { λ h. Sound h.lines h.counts };

    ghost inverse = { λ d. record { lines = d.state.lines; wrong = d.state.wrong; counts = d.state.counts; line = record { line = d.state.line; bytes = d.bytes } } };
}

impl Hub {
    // Before the first byte.
    pub fn new() -> Hub
        ensures { result ≡ record { state = begin; bytes = replicate 4097 0 } }
    {
        Hub {
            lines: 0,
            wrong: false,
            counts: [0; 10],
            line: Line::new(),
        }
    }

    // Whether no more is read.
    #[tactic(auto, unfolding(hub_rules::specs::Stream::is_done))]
    pub fn is_over(&self) -> bool
        ensures { result ≡ is_done self.now.state }
    {
        is_over(self.lines, self.wrong)
    }
}

// The same of any number of lines, whether a run comes to it or not.
pub fn is_over(lines: u32, wrong: bool) -> bool
    ensures { result ≡ (wrong || eqb lines (last_line + 1)) }
{
    wrong || lines == LINES
}

// The string s over the first bytes of out, and how many bytes that are.
pub(crate) fn put_text(s: &[u8], out: &mut [u8]) -> usize
    requires { length s.now ≤ length out.old }
    ensures { Puts s.now result out.old out.new }
{
    octets::put(out, s);
    s.len()
}

// The output's first line.
pub fn put_heading(out: &mut [u8]) -> usize
    requires { 19 ≤ length out.old }
    ensures { Puts heading result out.old out.new }
{
    put_text(b"line answer result\n", out)
}
