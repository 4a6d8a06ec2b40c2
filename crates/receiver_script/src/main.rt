// Runs a script of a receiver's calls: for each record of standard input, a line with the call's
// answer, each field of the receiver after it and, of an opening, the output.
//
// A record has a head of 64 bytes, with numbers big-endian; bytes that are not named are not looked at.
//   make:  byte 0 is 0; 1..5 the set, 5..9 the prefix, 9 the key's length, 10.. the key
//   put:   byte 0 is 1; 1..5 the set, 5..37 the key, 37..41 the prefix, 41 whether a counter was
//          accepted, 42..50 the highest, 50..58 the marks: the receiver is these values, whatever they are
//   open:  byte 0 is 2; 1 the nonce's length, 2..5, 5..8 and 8..11 the lengths of data, ciphertext and
//          output, 11 the data's seed, 13.. the nonce; after the head comes the ciphertext
//   noise: byte 0 is 3; as for open, but nothing comes after the head: the ciphertext is made from the
//          seed in byte 12
//   plain: byte 0 is 4; as for open, but it is plain opening under the receiver's set and the first
//          bytes of its key, as many as byte 12 says; the receiver stays as it is
// Any other first byte is taken for 2.
//
// Data and what the output holds before a call are made from their seeds by `script::fill`; the output's
// seed is 165. The files stdin and stdout beside src/ are what tests/receiver_model writes, the receiver
// written a second time, which ./test makes again and compares.
#![tactic(auto)]

mod call;
mod lines;

ghost use Rattle.std.specs.Prelude.{◌≡◌};
ghost use Rattle.receiver.specs.Values.{value_of};
ghost use Rattle.receiver_script.specs.Records.{made_by, put_by};

use crate::call::Call;
use crate::lines::{print_opened, print_outcome, print_receiver};
use receiver::{Outcome, Receiver, Window};
use script::{Record, fill, next_record};
use std::io::Read;

// What the calls' strings are made in.
#[derive(Drop)]
struct Buffers<'a> {
    ad: &'a mut [u8],
    text: &'a mut [u8],
    out: &'a mut [u8],
}

fn made(rt: &impl Print, r: &Record) -> Receiver
    ensures { value_of result ≡ made_by r.now.bytes }
{
    let m = receiver::make(r.number(1), r.string(10, r.byte(9)), r.number(5));
    print_outcome(rt, Call::Make, &m);
    show::line_end(rt);
    m.receiver
}

fn hand_made(r: &Record) -> Receiver
    ensures { value_of result ≡ put_by r.now.bytes }
{
    Receiver {
        set: r.number(1),
        key: r.part(5),
        prefix: r.number(37),
        window: Window {
            begun: r.flag(41),
            highest: r.long_number(42),
            marks: r.long_number(50),
        },
    }
}

fn put(rt: &impl Print, r: &Record) -> Receiver
    ensures { value_of result ≡ put_by r.now.bytes }
{
    let v = hand_made(r);
    let _ = rt.print(Call::Put);
    print_receiver(rt, &v);
    show::line_end(rt);
    v
}

// Plain opening under the receiver's set and n bytes of its key.
fn open_plainly(
    v: Receiver,
    n: u8,
    nonce: &[u8],
    ad: &[u8],
    text: &[u8],
    out: &mut [u8],
) -> Outcome {
    let end = (n as usize).min(32);
    Outcome {
        answer: plain::open_plain(v.set, &v.key[..end], nonce, ad, text, out),
        receiver: v,
    }
}

// An opening of strings that have the record's lengths. The ciphertext is noise, or what comes after
// the head.
fn opening(
    rt: &impl Print,
    input: &mut impl Read,
    v: Receiver,
    r: &Record,
    ad: &mut [u8],
    text: &mut [u8],
    out: &mut [u8],
) -> Receiver {
    let call = Call::from(r.byte(0));
    fill(ad, r.byte(11));
    if call == Call::Noise {
        fill(text, r.byte(12));
    } else {
        let _ = input.read_exact(text);
    }
    fill(out, 165);
    let nonce = r.string(13, r.byte(1));
    let s = if call == Call::Plain {
        open_plainly(v, r.byte(12), nonce, ad, text, out)
    } else {
        v.opened(nonce, ad, text, out)
    };
    print_opened(rt, call, &s, out);
    s.receiver
}

// The call of a record, in as much of the buffers as it says.
fn step(
    rt: &impl Print,
    input: &mut impl Read,
    v: Receiver,
    r: &Record,
    b: &mut Buffers,
) -> Receiver {
    match Call::from(r.byte(0)) {
        Call::Make => made(rt, r),
        Call::Put => put(rt, r),
        Call::Open | Call::Noise | Call::Plain => {
            let h = r.length(2).min(b.ad.len());
            let t = r.length(5).min(b.text.len());
            let o = r.length(8).min(b.out.len());
            opening(
                rt,
                input,
                v,
                r,
                &mut b.ad[..h],
                &mut b.text[..t],
                &mut b.out[..o],
            )
        }
    }
}

// Up to a million records. The other script program has its like: what they share is `next_record`.
fn main(rt: HostRuntime) {
    let mut input = rt.stdin();
    let mut b = Buffers {
        ad: &mut [0u8; 8192],
        text: &mut [0u8; 66000],
        out: &mut [0u8; 66000],
    };
    let mut v = hand_made(&Record { bytes: [0; 64] });
    for _ in 0..1000000 {
        let Some(r) = next_record(&mut input) else {
            return;
        };
        v = step(&rt, &mut input, v, &r, &mut b);
    }
}
