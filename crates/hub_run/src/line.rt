// A line's end.
ghost use Rattle.std.specs.Prelude.{◌≡◌, false, ◌+◌, ◌<◌, ◌≤◌, length};
ghost use Rattle.std.specs.Option.{unwrap_or};
ghost use Rattle.hub_rules.specs.Whole.{last_line};
ghost use Rattle.hub_rules.specs.Stream.{line_room, is_done, counted};
ghost use Rattle.hub_run.specs.Held.{Below};
ghost use Rattle.hub_run.specs.Values.{Ends};

use crate::state::{Hub, put_text};
use hub_answer::answer_line;
use hub_text::is_word;

// One more for a set, where there is one.
fn count(counts: &mut [u32; 10], set: Option<u32>)
    requires { Below counts.old (last_line + 1) }
    ensures { counts.new ≡ counted 1 (unwrap_or set 0) counts.old }
{
    let Some(n) = set else {
        return;
    };
    if let 1..=10 = n {
        counts[n as usize - 1] += 1;
    }
}

impl Hub {
    // The end of the first line.
    fn end_first(&mut self, out: &mut [u8]) -> usize
        requires { (self.old.state.lines ≡ 0) × (7 ≤ length out.old) }
        ensures { Ends self.old result self.new out.old out.new }
    {
        self.lines = 1;
        self.wrong = !is_word(self.line.as_slice(), b"act set key nonce data text");
        self.line.clear();
        if self.wrong {
            return put_text(b"0 11 -\n", out);
        }
        0
    }

    // The end of a later line.
    fn end_later(&mut self, out: &mut [u8]) -> usize
        requires lines_nonzero { (0 < self.old.state.lines) × (line_room ≤ length out.old) }
        requires line_value { is_done self.old.state ≡ false }
        ensures { Ends self.old result self.new out.old out.new }
    {
        let answer = answer_line(self.lines, self.line.as_slice(), out);
        count(&mut self.counts, answer.set);
        self.lines += 1;
        self.line.clear();
        answer.written
    }

    // The end of the line that is held.
    pub(crate) fn end_line(&mut self, out: &mut [u8]) -> usize
        requires line_value { is_done self.old.state ≡ false }
        requires line_room_in_bounds { line_room ≤ length out.old }
        ensures { Ends self.old result self.new out.old out.new }
    {
        if self.lines == 0 {
            return self.end_first(out);
        }
        self.end_later(out)
    }
}
