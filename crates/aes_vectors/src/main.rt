// Writes what FIPS 197's appendices A, B and C have, as our code computes it: the three key
// expansions, every word; the State after each round of the cipher example; the three example
// vectors, encrypted and decrypted again; and of these three the State after each step of the
// equivalent inverse cipher, with the standard's labels.
//
// The file stdout beside src/, which this is held to, was not written from a run of this program.
// tests/vectors.sh holds its ciphertexts and plaintexts against openssl at every run of ./test, and
// the step `rows` the States of the equivalent inverse cipher against the second implementation.
// The round keys of A and the inner states of B, which openssl does not show, were held against an
// AES of its own kind, with the S-box computed from the field, and that one against openssl under
// the same keys.
#![tactic(auto)]

ghost use Rattle.std.specs.Prelude.{◌≤◌};
ghost use Rattle.fips197.specs.Cipher.{key_rounds};

use aes::{Decryption, Encryption};
use show::Hex;

// A line of appendix A: a round key's number and its words.
fn print_round_key(rt: &impl Print, e: &Encryption, n: usize)
    requires { n ≤ key_rounds e.now }
{
    let k = e.round_key(n);
    let _ = println!(rt;
        "{n} {} {} {} {}",
        Hex(&k[..4]),
        Hex(&k[4..8]),
        Hex(&k[8..12]),
        Hex(&k[12..])
    );
}

// Appendix A: every round key.
fn expansion(rt: &impl Print, name: &str, key: &[u8]) {
    let _ = println!(rt; "{name} {}", Hex(key));
    if aes::is_key(key) {
        let mut ctx = aes::blank();
        let e = Encryption::new(key, &mut ctx);
        for n in 0..key.len() / 4 + 7 {
            print_round_key(rt, &e, n);
        }
    }
}

// A line of appendix B: the number of a round and a State.
fn print_state(rt: &impl Print, n: usize, s: [u8; 16]) {
    let _ = println!(rt; "{n} {}", Hex(&s));
}

// Appendix B: the State after each round, the last of which is the ciphertext.
fn states(rt: &impl Print, key: &[u8], block: [u8; 16]) {
    let _ = println!(rt; "B {}", Hex(&block));
    if aes::is_key(key) {
        let rounds = key.len() / 4 + 6;
        let mut ctx = aes::blank();
        let e = Encryption::new(key, &mut ctx);
        for n in 0..rounds {
            print_state(rt, n, e.state_after(n, block));
        }
        print_state(rt, rounds, e.encrypt(block));
    }
}

// Appendix C: the ciphertext, and what it decrypts to.
fn example(rt: &impl Print, name: &str, key: &[u8], block: [u8; 16]) {
    let mut b = block;
    aes::aes_encrypt(key, &mut b);
    let _ = print!(rt; "{name} {} ", Hex(&b));
    aes::aes_decrypt(key, &mut b);
    let _ = println!(rt; "{}", Hex(&b));
}

// The standard's label of step j of a round.
fn label(j: usize, last: bool) -> &'static str {
    match j {
        0 => "istart",
        1 => "is_box",
        2 => "is_row",
        _ if last => "ioutput",
        _ => "im_col",
    }
}

// A line of a trace: the number of the round, the step's label, and the State after it.
fn print_step(rt: &impl Print, k: usize, last: bool, s: [u8; 16]) {
    let _ = println!(rt; "{} {} {}", k / 4 + 1, label(k % 4, last), Hex(&s));
}

// The State after each step of the equivalent inverse cipher.
fn steps(rt: &impl Print, key: &[u8], block: [u8; 16]) {
    if aes::is_key(key) {
        let mut ctx = aes::blank();
        let e = Encryption::new(key, &mut ctx);
        let mut inv = aes::blank_inverse();
        let d = Decryption::new(&e, &mut inv);
        let n = 4 * (key.len() / 4 + 6);
        for k in 0..n {
            print_step(rt, k, k + 1 == n, d.inverse_state(k, block));
        }
    }
}

// Appendix C: the equivalent inverse cipher on the ciphertext.
fn trace(rt: &impl Print, name: &str, key: &[u8], block: [u8; 16]) {
    let mut b = block;
    aes::aes_encrypt(key, &mut b);
    let _ = println!(rt; "{name} EqInvCipher {}", Hex(&b));
    steps(rt, key, b);
}

fn main(rt: HostRuntime) {
    let key_a = b"\x2b\x7e\x15\x16\x28\xae\xd2\xa6\xab\xf7\x15\x88\x09\xcf\x4f\x3c";
    expansion(&rt, "A.1", key_a);
    expansion(
        &rt,
        "A.2",
        b"\x8e\x73\xb0\xf7\xda\x0e\x64\x52\xc8\x10\xf3\x2b\x80\x90\x79\xe5\x62\xf8\xea\xd2\x52\x2c\x6b\x7b",
    );
    expansion(
        &rt,
        "A.3",
        b"\x60\x3d\xeb\x10\x15\xca\x71\xbe\x2b\x73\xae\xf0\x85\x7d\x77\x81\x1f\x35\x2c\x07\x3b\x61\x08\xd7\x2d\x98\x10\xa3\x09\x14\xdf\xf4",
    );
    let block_b = b"\x32\x43\xf6\xa8\x88\x5a\x30\x8d\x31\x31\x98\xa2\xe0\x37\x07\x34";
    states(&rt, key_a, *block_b);
    let key_c =
        b"\x00\x01\x02\x03\x04\x05\x06\x07\x08\x09\x0a\x0b\x0c\x0d\x0e\x0f\x10\x11\x12\x13\x14\x15\x16\x17\x18\x19\x1a\x1b\x1c\x1d\x1e\x1f";
    let keys = &key_c[..];
    let block_c = *b"\x00\x11\x22\x33\x44\x55\x66\x77\x88\x99\xaa\xbb\xcc\xdd\xee\xff";
    example(&rt, "C.1", &keys[..16], block_c);
    example(&rt, "C.2", &keys[..24], block_c);
    example(&rt, "C.3", keys, block_c);
    trace(&rt, "C.1", &keys[..16], block_c);
    trace(&rt, "C.2", &keys[..24], block_c);
    trace(&rt, "C.3", keys, block_c);
}
