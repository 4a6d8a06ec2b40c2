// A chunk of the input, of any length.
ghost use Rattle.std.specs.Prelude.{◌≡◌, ◌≤◌, length};
ghost use Rattle.hub_run.specs.Values.{FeedsLine, FeedsChunk};
ghost use Rattle.hub_rules.specs.Stream.{line_room};

use crate::state::{Hub, LINE_ROOM};

// How many bytes of a chunk are used up, and how many are said.
#[derive(Clone, Copy)]
pub struct Fed {
    pub used: usize,
    pub written: usize,
}

impl Hub {
    // The chunk up to the end of its first line, or all of it.
    fn feed_line(&mut self, chunk: &[u8], out: &mut [u8]) -> Fed
        requires line_room_in_bounds { line_room ≤ length out.old }
        ensures { FeedsLine self.old chunk.now result self.new out.old out.new }
    {
        if self.is_over() {
            return Fed {
                used: chunk.len(),
                written: 0,
            };
        }
        let n = hub_text::length_before(chunk, b'\n');
        self.line.extend(&chunk[..n]);
        if n == chunk.len() {
            return Fed {
                used: n,
                written: 0,
            };
        }
        Fed {
            used: n + 1,
            written: self.end_line(out),
        }
    }

    // The chunk as far as there is room in out for a line of output more. No `for`: a turn takes as many
    // bytes of the rest as its line has.
    pub fn feed(&mut self, chunk: &[u8], out: &mut [u8]) -> Fed
        requires line_room_in_bounds { line_room ≤ length out.old }
        ensures { FeedsChunk self.old chunk.now result self.new out.old out.new }
    {
        let mut rest = chunk;
        let mut written = 0;
        while !rest.is_empty() {
            if out.len() - written < LINE_ROOM {
                break;
            }
            let fed = self.feed_line(rest, &mut out[written..]);
            rest = &rest[fed.used..];
            written += fed.written;
        }
        Fed {
            used: chunk.len() - rest.len(),
            written,
        }
    }
}
