// Runs vectors of the second implementation (tests/reference) through the proved code: for each
// record of standard input, the tag T_A of its associated data, a line each. A record is a set's
// number, a key's length, the data's length in two bytes, the key and the data.
//
// The files stdin and stdout beside src/ are what `reference ta-records` and `reference ta-tags`
// write, which ./test makes again and compares.
#![tactic(auto)]

use aes::Encryption;
use show::Hex;
use std::io::Read;

// T_A under a set and a key, where both are good.
fn print_data_tag(rt: &impl Print, set: u8, key: &[u8], ad: &[u8]) {
    let Some(p) = plain::lookup(set as u32) else {
        return;
    };
    if ad.len() > plain::MOST_DATA || !aes::is_key(key) {
        return;
    }
    let mut ctx = aes::blank();
    let e = Encryption::new(key, &mut ctx);
    let h = cba_steps::data_hash(&e, p, ad);
    let n = p.tag_bytes().min(16);
    let _ = println!(rt; "{}", Hex(&h[..n]));
}

// Reads the key and the data of a record into the buffers that are lent.
fn record(rt: &impl Print, input: &mut impl Read, head: [u8; 4], key: &mut [u8], ad: &mut [u8]) {
    let [set, k, high, low] = head;
    let k = (k as usize).min(key.len());
    let n = (u16::from_be_bytes([high, low]) as usize).min(ad.len());
    let _ = input.read_exact(&mut key[..k]);
    let _ = input.read_exact(&mut ad[..n]);
    print_data_tag(rt, set, &key[..k], &ad[..n]);
}

fn main(rt: HostRuntime) {
    let mut input = rt.stdin();
    for _ in 0..10000 {
        let mut head = [0u8; 4];
        let mut key = [0u8; 32];
        let mut ad = [0u8; 4096];
        if input.read_exact(&mut head).is_err() {
            return;
        }
        record(&rt, &mut input, head, &mut key, &mut ad);
    }
}
