// Runs a script of ledger calls: for each record of standard input, a line with the call's answer, each
// field of the ledger after it and, of a sealing, the output. Of each name the line has - for nothing at
// all, else whether something is kept, a colon and the sum.
//
// A record has 64 bytes, with numbers big-endian; bytes that are not named are not looked at.
//   make: byte 0 is 0; 1..5 the set, 5..7 the console, 7 the key's length, 8.. the key
//   put:  byte 0 is 1; 1..5 the set, 5..37 the key, 37..39 the console, 39..47 the total, 47 whether there
//         is a last nonce, 48..60 that nonce, 60 whether heartbeats are charged: the ledger is these values,
//         whatever they are, with nothing kept under any name
//   seal: byte 0 is 2; 1 the nonce's length, 2..5, 5..8 and 8..11 the lengths of data, message and output,
//         11 and 12 the seeds of data and message, 13.. the nonce
//   lent: byte 0 is 3; the rest as for seal. The ledger is lent to the call, which changes it in place
//   hold: byte 0 is 4; 1 a name, 7 where it is above, 2 whether something is kept there, 3..19 the sum:
//         what the ledger has there is these values, whatever they are
//   keep: byte 0 is 5; 1..5 the name, 5..8 the data's length, 8 their seed
//   name: byte 0 is 6; 1..5 the name, 5 the nonce's length, 6..9 and 9..12 the lengths of message and
//         output, 12 the message's seed, 13.. the nonce
//   carry: byte 0 is 7
//
// Data, message and what the output holds before a call are made from their seeds by `script::fill`; the output's
// seed is 165. The files stdin and stdout beside src/ are what tests/ledger_model writes, the
// ledger written a second time, which ./test makes again and compares.
#![tactic(auto)]

mod call;
mod lines;

ghost use Rattle.std.specs.Prelude.{◌≡◌, length};
ghost use Rattle.answers.specs.Refusals.{number_of};
ghost use Rattle.ledger_rules.specs.Ledger.{carried_ledger};
ghost use Rattle.ledger.specs.Values.{value_of, Ran};
ghost use Rattle.ledger_script.specs.Records.{made_by, put_by, held_by, kept_by, sealed_by, named_by};

use crate::call::Call;
use crate::lines::{print_ledger, print_outcome, print_sealed};
use ledger::{Heading, Ledger, NOTHING, Outcome};
use script::{Record, fill, next_record};

// What the calls' strings are made in.
#[derive(Drop)]
struct Buffers<'a> {
    ad: &'a mut [u8],
    message: &'a mut [u8],
    out: &'a mut [u8],
}

fn made(rt: &impl Print, r: &Record) -> Ledger
    ensures { value_of result ≡ made_by r.now.bytes }
{
    let m = ledger::make(r.number(1), r.string(8, r.byte(7)), r.short_number(5));
    print_outcome(rt, Call::Make, &m);
    show::line_end(rt);
    m.ledger
}

fn hand_made(r: &Record) -> Ledger
    ensures { value_of result ≡ put_by r.now.bytes }
{
    Ledger {
        set: r.number(1),
        key: r.part(5),
        console: r.short_number(37),
        total: r.long_number(39),
        heartbeats: r.flag(60),
        begun: r.flag(47),
        last: r.part(48),
        headings: [NOTHING; 8],
    }
}

// The line of a ledger that a record gives, which answers nothing.
fn print_given(rt: &impl Print, call: Call, l: &Ledger) {
    let _ = rt.print(call);
    print_ledger(rt, l);
    show::line_end(rt);
}

fn put(rt: &impl Print, r: &Record) -> Ledger
    ensures { value_of result ≡ put_by r.now.bytes }
{
    let l = hand_made(r);
    print_given(rt, Call::Put, &l);
    l
}

fn hold(rt: &impl Print, l: Ledger, r: &Record) -> Ledger
    ensures { value_of result ≡ held_by (value_of l) r.now.bytes }
{
    let i = (r.byte(1) as usize).min(7);
    let mut after = l;
    after.headings[i] = Heading {
        kept: r.flag(2),
        sum: r.part(3),
    };
    print_given(rt, Call::Hold, &after);
    after
}

// A keeping of data that have the record's length.
fn keep(rt: &impl Print, l: Ledger, r: &Record, ad: &mut [u8]) -> Ledger
    ensures { value_of result ≡ kept_by (value_of l) r.now.bytes (length ad.old) }
{
    fill(ad, r.byte(8));
    let s = l.keep(r.number(1), ad);
    print_outcome(rt, Call::Keep, &s);
    show::line_end(rt);
    s.ledger
}

fn carry(rt: &impl Print, l: Ledger) -> Ledger
    ensures { value_of result ≡ carried_ledger (value_of l) }
{
    let s = l.carry_over();
    print_outcome(rt, Call::Carry, &s);
    show::line_end(rt);
    s.ledger
}

// Lends its ledger, and gives back what the call by value does.
fn seal_lent(mut l: Ledger, nonce: &[u8], ad: &[u8], message: &[u8], out: &mut [u8]) -> Outcome
    ensures { Ran l nonce.now ad.now message.now out.old (number_of result.answer) result.ledger out.new }
{
    let answer = ledger::seal_in_place(&mut l, nonce, ad, message, out);
    Outcome { answer, ledger: l }
}

// The call by value, or by a ledger that is lent. Both promise the same.
fn seal_by(
    call: Call,
    l: Ledger,
    nonce: &[u8],
    ad: &[u8],
    message: &[u8],
    out: &mut [u8],
) -> Outcome
    ensures { Ran l nonce.now ad.now message.now out.old (number_of result.answer) result.ledger out.new }
{
    if call == Call::Lent {
        return seal_lent(l, nonce, ad, message, out);
    }
    l.sealed(nonce, ad, message, out)
}

// A sealing of strings that have the record's lengths.
fn seal(
    rt: &impl Print,
    l: Ledger,
    r: &Record,
    ad: &mut [u8],
    message: &mut [u8],
    out: &mut [u8],
) -> Ledger
    ensures { value_of result ≡ sealed_by (value_of l) r.now.bytes (length ad.old) (length message.old) (length out.old) }
{
    fill(ad, r.byte(11));
    fill(message, r.byte(12));
    fill(out, 165);
    let call = Call::from(r.byte(0));
    let s = seal_by(call, l, r.string(13, r.byte(1)), ad, message, out);
    print_sealed(rt, call, &s, out);
    s.ledger
}

// A sealing by name of strings that have the record's lengths.
fn seal_named(rt: &impl Print, l: Ledger, r: &Record, message: &mut [u8], out: &mut [u8]) -> Ledger
    ensures { value_of result ≡ named_by (value_of l) r.now.bytes (length message.old) (length out.old) }
{
    fill(message, r.byte(12));
    fill(out, 165);
    let s = l.sealed_by_name(r.number(1), r.string(13, r.byte(5)), message, out);
    print_sealed(rt, Call::Name, &s, out);
    s.ledger
}

// The call of a record, in as much of the buffers as it says.
fn step(rt: &impl Print, l: Ledger, r: &Record, b: &mut Buffers) -> Ledger {
    match Call::from(r.byte(0)) {
        Call::Make => made(rt, r),
        Call::Put => put(rt, r),
        Call::Hold => hold(rt, l, r),
        Call::Keep => {
            let h = r.length(5).min(b.ad.len());
            keep(rt, l, r, &mut b.ad[..h])
        }
        Call::Name => {
            let t = r.length(6).min(b.message.len());
            let o = r.length(9).min(b.out.len());
            seal_named(rt, l, r, &mut b.message[..t], &mut b.out[..o])
        }
        Call::Carry => carry(rt, l),
        Call::Seal | Call::Lent => {
            let h = r.length(2).min(b.ad.len());
            let t = r.length(5).min(b.message.len());
            let o = r.length(8).min(b.out.len());
            seal(
                rt,
                l,
                r,
                &mut b.ad[..h],
                &mut b.message[..t],
                &mut b.out[..o],
            )
        }
    }
}

// Up to a million records. The other script program has its like: what they share is `next_record`.
fn main(rt: HostRuntime) {
    let mut input = rt.stdin();
    let mut b = Buffers {
        ad: &mut [0u8; 8192],
        message: &mut [0u8; 66000],
        out: &mut [0u8; 66000],
    };
    let mut l = hand_made(&Record { bytes: [0; 64] });
    for _ in 0..1000000 {
        let Some(r) = next_record(&mut input) else {
            return;
        };
        l = step(&rt, l, &r, &mut b);
    }
}
