// What a line asks for.
ghost use Rattle.std.specs.Prelude.{◌≡◌, true, ◌+◌, ◌/◌, ◌≤◌, length};
ghost use Rattle.octets.specs.Strings.{eqs};
ghost use Rattle.text.specs.Numerals.{is_value, value_of};
ghost use Rattle.hub_grammar.specs.Lines.{line_limit};
ghost use Rattle.hub_text.specs.Cuts.{part};
ghost use Rattle.hub_text.specs.Requests.{bytes_room, act_of, have_values, Fit, Next, Strings, Read};

use crate::cut::{Words, six_words};
use text::{is_value, read_set_number, read_value};

// A line has at most so many bytes.
pub const LINE_LIMIT: usize = 4096;

// Room for the bytes that a line's strings stand for, two characters each.
pub const BYTES_ROOM: usize = 2048;

#[derive(Clone, Copy, Debug, PartialEq, Eq)]
pub enum Act {
    Seal,
    Open,
}

// A request's act and set, and where its strings end in the bytes that were read. They are places
// and not slices: where a result borrows bytes, only an `ensures*` can promise what bytes holds
// then, and the check proves none of this form.
#[derive(Clone, Copy)]
pub struct Asked {
    pub act: Act,
    pub set: u32,
    pub key: usize,
    pub nonce: usize,
    pub ad: usize,
    pub text: usize,
}

// Whether a word is another.
pub fn is_word(w: &[u8], word: &[u8]) -> bool
    ensures { result ≡ eqs w.now word.now }
{
    w == word
}

fn read_act(w: &[u8]) -> Option<Act>
    ensures { result ≡ act_of w.now }
{
    match w {
        b"seal" => Some(Act::Seal),
        b"open" => Some(Act::Open),
        _ => None,
    }
}

// The characters of a line from one place to another.
pub fn word<'a>(line: &'a [u8], from: usize, to: usize) -> &'a [u8]
    requires { (from ≤ to) × (to ≤ length line.now) }
    ensures { result.now ≡ part line.now from to }
{
    &line[from..to]
}

// Whether the last four words are values.
fn have_values(w: Words) -> bool
    ensures { result ≡ have_values w.entry }
{
    is_value(w.key) && is_value(w.nonce) && is_value(w.ad) && is_value(w.text)
}

// What a value stands for, over the bytes from a place on, and where it ends.
fn read_next(w: &[u8], bytes: &mut [u8], at: usize) -> usize
    requires w_value { is_value w.now ≡ true }
    requires w_in_bounds { at + length w.now / 2 ≤ length bytes.old }
    ensures { Next (value_of w.now) at result bytes.old bytes.new }
{
    at + read_value(w, &mut bytes[at..])
}

// The request of six words that are one: its strings over the first bytes of bytes.
fn read_strings(act: Act, set: u32, w: Words, bytes: &mut [u8]) -> Asked
    requires values { have_values w ≡ true }
    requires fit { Fit w }
    requires bytes_room_in_bounds { bytes_room ≤ length bytes.old }
    ensures { Strings act set w.entry result bytes.old bytes.new }
{
    let key = read_next(w.key, bytes, 0);
    let nonce = read_next(w.nonce, bytes, key);
    let ad = read_next(w.ad, bytes, nonce);
    let text = read_next(w.text, bytes, ad);
    Asked {
        act,
        set,
        key,
        nonce,
        ad,
        text,
    }
}

// What a line within the limit says.
pub fn read_line(line: &[u8], bytes: &mut [u8]) -> Option<Asked>
    requires { (length line.now ≤ line_limit) × (bytes_room ≤ length bytes.old) }
    ensures { Read line.now result bytes.old bytes.new }
{
    let w = six_words(line)?;
    let act = read_act(w.act)?;
    let set = read_set_number(w.set)?;
    if !have_values(w) {
        return None;
    }
    Some(read_strings(act, set, w, bytes))
}
