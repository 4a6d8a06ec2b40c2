// A line of output.
ghost use Rattle.std.specs.Prelude.{◌+◌, ◌*◌, ◌≤◌, ◌<◌, length};
ghost use Rattle.text.specs.Writing.{Puts};
ghost use Rattle.hub_rules.specs.Answers.{line_text};

use text::Writer;

// `n answer result` and LF, over the first bytes of out, and how many bytes that are.
pub(crate) fn put_line(n: u32, answer: u32, res: &[u8], out: &mut [u8]) -> usize
    requires { (n < 100000) × (answer < 100000) × (2 * length res.now + 14 ≤ length out.old) }
    ensures { Puts (line_text n answer res.now) result out.old out.new }
{
    let mut w = Writer::new(out);
    w.decimal(n);
    w.number(answer);
    w.string(res);
    w.byte(b'\n');
    w.count()
}
