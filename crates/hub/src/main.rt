// The hub program: standard input in large chunks, standard output in large writes. Every byte that it
// writes is decided by `hub_run`, which says of each chunk what it adds to the output.
#![tactic(auto)]

ghost use Rattle.std.specs.Prelude.{◌≡◌, false, ◌≤◌, length, take};
ghost use Rattle.hub.specs.Follows.{Small, going_on, Follows, Reached};
ghost use Rattle.hub_rules.specs.Stream.{is_done};

use hub_run::Hub;
use std::io::{ErrorKind, Read};

// The input and the output, so many bytes at once.
type Buffer = [u8; 65536];

// How the reading goes on: more is to be read, or no more counts or comes, or a write failed.
#[derive(Clone, Copy)]
enum Going {
    More,
    Over,
    Failed,
}

impl Going {
    // After a chunk that was said.
    fn after(hub: &Hub) -> Going
        ensures { result ≡ going_on (is_done hub.now.state) }
    {
        if hub.is_over() {
            Going::Over
        } else {
            Going::More
        }
    }
}

// How many bytes were read, how many bytes of what they say were written, and how the reading goes on.
#[derive(Clone, Copy)]
struct Step {
    read: usize,
    wrote: usize,
    going: Going,
}

impl Step {
    // Nothing was read.
    fn of_nothing(going: Going) -> Step
        ensures { result ≡ record { read = 0; wrote = 0; going = going } }
    {
        Step {
            read: 0,
            wrote: 0,
            going,
        }
    }
}

// Writes s, and says how many bytes are known to be written: all, or none where a write failed.
fn write(rt: &impl Print, s: &[u8]) -> usize
    ensures { result ≤ length s.now }
{
    match rt.write_all(s) {
        Ok(()) => s.len(),
        Err(_) => 0,
    }
}

// Feeds a chunk and writes what it says, piece by piece where the output is longer than its buffer. No
// `for`: a turn takes as many bytes of the rest as the output has room for.
fn say(rt: &impl Print, hub: &mut Hub, chunk: &[u8], out: &mut Buffer) -> Step
    requires { Small chunk.now }
    ensures { Follows hub.old chunk.now result hub.new }
{
    let mut rest = chunk;
    let mut wrote = 0;
    while !rest.is_empty() {
        let fed = hub.feed(rest, out);
        rest = &rest[fed.used..];
        let n = write(rt, &out[..fed.written]);
        wrote += n;
        if n < fed.written {
            return Step {
                read: chunk.len(),
                wrote,
                going: Going::Failed,
            };
        }
    }
    Step {
        read: chunk.len(),
        wrote,
        going: Going::after(hub),
    }
}

// What a run reads and writes by, with a buffer for each.
#[derive(Drop)]
struct Console<'a, P: Print, R: Read> {
    rt: &'a P,
    source: &'a mut R,
    input: Buffer,
    out: Buffer,
}

impl<'a, P: Print, R: Read> Console<'a, P, R> {
    // One read, and what it says: the state after the bytes that it read, which are the first of input. A
    // read that was interrupted is done again; any other that fails ends the input.
    fn read_some(&mut self, hub: &mut Hub) -> Step
        requires { is_done hub.old.state ≡ false }
        ensures { Follows hub.old (take result.read self.new.input) result hub.new }
    {
        match self.source.read(&mut self.input) {
            Err(e) if e.kind() == ErrorKind::Interrupted => Step::of_nothing(Going::More),
            Ok(0) | Err(_) => Step::of_nothing(Going::Over),
            Ok(n) => say(self.rt, hub, &self.input[..n], &mut self.out),
        }
    }

    // Reads until the input ends, no more of it counts, or a write fails. A proved loop has to end, and
    // nothing says that an input does, so it has more turns than a run uses up.
    fn read_all(&mut self) -> (Hub, Step)
        ensures { Reached result.1 result.0 }
    {
        let mut hub = Hub::new();
        for _ in 0..u64::MAX {
            let step = self.read_some(&mut hub);
            let Going::More = step.going else {
                return (hub, step);
            };
        }
        (hub, Step::of_nothing(Going::More))
    }

    // The heading, what the input says, and the end.
    fn run(&mut self) {
        let n = hub_run::put_heading(&mut self.out);
        if write(self.rt, &self.out[..n]) < n {
            return;
        }
        let (hub, step) = self.read_all();
        if let Going::Failed = step.going {
            return;
        }
        let n = hub.finish(&mut self.out);
        write(self.rt, &self.out[..n]);
    }
}

fn main(rt: HostRuntime) {
    let mut console = Console {
        rt: &rt,
        source: &mut rt.stdin(),
        input: [0; 65536],
        out: [0; 65536],
    };
    console.run();
}
