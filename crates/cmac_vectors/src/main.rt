// Writes what RFC 4493, section 4, and SP 800-38B, appendix D, have, as our code computes it: for a
// key of each length, L and the subkeys, and the codes of the first 0, 16, 20, 40 and 64 bytes of a
// message. The codes of 20 bytes are of NIST's later examples.
//
// The file stdout beside src/, which this is held to, was written from these and not from a run of
// this program. At every run of ./test tests/vectors.sh holds L and the codes against openssl, and
// the subkeys against its own doubling of that L.
#![tactic(auto)]

ghost use Rattle.std.specs.Prelude.{◌≤◌, length};

use aes::Encryption;
use show::Hex;

// L and the subkeys.
fn print_subkeys(rt: &impl Print, e: &Encryption) {
    let l = e.encrypt([0; 16]);
    let s = cmac::generate_subkeys(e);
    let _ = println!(rt; "L {}", Hex(&l));
    let _ = println!(rt; "K1 {}", Hex(&s.k1));
    let _ = println!(rt; "K2 {}", Hex(&s.k2));
}

// All lines of a key, under its name: of the codes each has the length of a start of the message.
fn example(rt: &impl Print, name: &str, key: &[u8], message: &[u8])
    requires { 64 ≤ length message.now }
{
    let _ = println!(rt; "{name} {}", Hex(key));
    if aes::is_key(key) {
        let mut ctx = aes::blank();
        let e = Encryption::new(key, &mut ctx);
        print_subkeys(rt, &e);
        for n in [0, 16, 20, 40, 64] {
            let code = cmac::code(&e, &message[..n]);
            let _ = println!(rt; "{n} {}", Hex(&code));
        }
    }
}

fn main(rt: HostRuntime) {
    let message =
        b"\x6b\xc1\xbe\xe2\x2e\x40\x9f\x96\xe9\x3d\x7e\x11\x73\x93\x17\x2a\xae\x2d\x8a\x57\x1e\x03\xac\x9c\x9e\xb7\x6f\xac\x45\xaf\x8e\x51\x30\xc8\x1c\x46\xa3\x5c\xe4\x11\xe5\xfb\xc1\x19\x1a\x0a\x52\xef\xf6\x9f\x24\x45\xdf\x4f\x9b\x17\xad\x2b\x41\x7b\xe6\x6c\x37\x10";
    let m = &message[..];
    example(
        &rt,
        "AES-128",
        b"\x2b\x7e\x15\x16\x28\xae\xd2\xa6\xab\xf7\x15\x88\x09\xcf\x4f\x3c",
        m,
    );
    example(
        &rt,
        "AES-192",
        b"\x8e\x73\xb0\xf7\xda\x0e\x64\x52\xc8\x10\xf3\x2b\x80\x90\x79\xe5\x62\xf8\xea\xd2\x52\x2c\x6b\x7b",
        m,
    );
    example(
        &rt,
        "AES-256",
        b"\x60\x3d\xeb\x10\x15\xca\x71\xbe\x2b\x73\xae\xf0\x85\x7d\x77\x81\x1f\x35\x2c\x07\x3b\x61\x08\xd7\x2d\x98\x10\xa3\x09\x14\xdf\xf4",
        m,
    );
}
