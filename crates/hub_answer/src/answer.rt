// What a line is answered.
ghost use Rattle.std.specs.Prelude.{◌≡◌, true, ◌≤◌, ◌<◌, length};
ghost use Rattle.answers.specs.Refusals.{number_of};
ghost use Rattle.cba_mode.specs.Sets.{is_set};
ghost use Rattle.cba_rules.specs.Checks.{set_tag};
ghost use Rattle.hub_grammar.specs.Lines.{parse};
ghost use Rattle.hub_text.specs.Requests.{bytes_room, seals, request_of};
ghost use Rattle.hub_answer.specs.Replies.{result_room, InOrder, result_bytes, Sized, Called, Replies, Answers};
ghost use Rattle.hub_rules.specs.Stream.{line_room};

use crate::line::put_line;
use answers::Refusal;
use hub_text::{Act, Asked, BYTES_ROOM, LINE_LIMIT, read_line, word};

// Room for a result: a sealing is longer than its message by at most 16 bytes.
const RESULT_ROOM: usize = 2064;

// An accepted line's set, and how many bytes its result has.
#[derive(Clone, Copy)]
struct Accepted {
    set: u32,
    size: usize,
}

// The set of a line if it is accepted, and how many bytes its line of output has.
#[derive(Clone, Copy)]
pub struct Answer {
    pub set: Option<u32>,
    pub written: usize,
}

// The plain call that a request asks for, with result as its output.
fn call(a: Asked, bytes: &[u8], res: &mut [u8]) -> Result<(), Refusal>
    requires { InOrder a bytes.now }
    ensures { Called (request_of a bytes.now) res.old (number_of result) res.new }
{
    let key = word(bytes, 0, a.key);
    let nonce = word(bytes, a.key, a.nonce);
    let ad = word(bytes, a.nonce, a.ad);
    let text = word(bytes, a.ad, a.text);
    match a.act {
        Act::Seal => plain::seal_plain(a.set, key, nonce, ad, text, res),
        Act::Open => plain::open_plain(a.set, key, nonce, ad, text, res),
    }
}

// How many bytes a set's tag has.
#[tactic(auto, unfolding(plain::specs::Lookup::lookup_of))]
fn set_tag(set: u32) -> usize
    requires { is_set set ≡ true }
    ensures { result ≡ set_tag set }
{
    plain::lookup(set).unwrap().tag_bytes()
}

// How many bytes an accepted request's result has, by how many its text has.
fn result_bytes(act: Act, set: u32, text: usize) -> usize
    requires sized { Sized (seals act) set text }
    requires text_le_bytes_room { text ≤ bytes_room }
    ensures { result ≡ result_bytes (seals act) set text }
{
    let tag = set_tag(set);
    match act {
        Act::Seal => text + tag,
        Act::Open => text - tag,
    }
}

// What a line of any length is answered, its result over the first bytes of result.
fn reply_to(line: &[u8], res: &mut [u8]) -> Result<Accepted, Refusal>
    requires { result_room ≤ length res.old }
    ensures { Replies (parse line.now) result res.new }
{
    if line.len() > LINE_LIMIT {
        return Err(Refusal::Line);
    }
    let mut bytes = [0u8; BYTES_ROOM];
    let Some(a) = read_line(line, &mut bytes) else {
        return Err(Refusal::Line);
    };
    call(a, &bytes, res)?;
    Ok(Accepted {
        set: a.set,
        size: result_bytes(a.act, a.set, a.text - a.ad),
    })
}

// Answers a line, the n-th after the first: its line of output over the first bytes of out.
pub fn answer_line(n: u32, line: &[u8], out: &mut [u8]) -> Answer
    requires { (n < 100000) × (line_room ≤ length out.old) }
    ensures { Answers n line.now result out.old out.new }
{
    let mut result = [0u8; RESULT_ROOM];
    match reply_to(line, &mut result) {
        Ok(a) => {
            let size = a.size;
            Answer {
                set: Some(a.set),
                written: put_line(n, 0, &result[..size], out),
            }
        }
        Err(refusal) => Answer {
            set: None,
            written: put_line(n, refusal.into(), &[], out),
        },
    }
}
