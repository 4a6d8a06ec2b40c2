// The end of the input.
ghost use Rattle.std.specs.Prelude.{◌≡◌, false, ◌≤◌, length};
ghost use Rattle.text.specs.Writing.{Puts};
ghost use Rattle.hub_rules.specs.Stream.{line_room, is_done, pending, summary, ending};
ghost use Rattle.hub_run.specs.Values.{summary_room, end_room, Ends};

use crate::state::{Hub, LINE_ROOM};
use crate::summary::put_rows;
use text::Writer;

impl Hub {
    // Whether the input ended within a line, or without a first line.
    #[tactic(auto, unfolding(hub_rules::specs::Stream::pending))]
    fn is_pending(&self) -> bool
        ensures { result ≡ pending self.now.state }
    {
        !self.is_over() && (self.lines == 0 || !self.line.is_empty())
    }

    // The summary, or nothing where the first line was wrong.
    fn put_summary(&self, out: &mut [u8]) -> usize
        requires { summary_room ≤ length out.old }
        ensures { (result ≤ summary_room) × Puts (summary self.now.state) result out.old out.new }
    {
        if self.wrong {
            return 0;
        }
        let mut w = Writer::new(out);
        w.bytes(b"set accepted\n");
        put_rows(&self.counts, &mut w);
        w.count()
    }

    // The end of a last line, with room left for the summary.
    fn end_last(&mut self, out: &mut [u8]) -> usize
        requires line_value { is_done self.old.state ≡ false }
        requires line_room_in_bounds { line_room ≤ length out.old }
        ensures { (result ≤ line_room) × Ends self.old result self.new out.old out.new }
    {
        self.end_line(&mut out[..LINE_ROOM])
    }

    // What is said at the end of the input.
    pub fn finish(mut self, out: &mut [u8]) -> usize
        requires { end_room ≤ length out.old }
        ensures { (result ≤ end_room) × Puts (ending self.state) result out.old out.new }
    {
        if !self.is_pending() {
            return self.put_summary(out);
        }
        let at = self.end_last(out);
        at + self.put_summary(&mut out[at..])
    }
}
