// What a line shows. A write that fails is passed over.

// A string as a big-endian number modulo the prime 2^56 - 5, by which a long output is shown.
fn residue(s: &[u8]) -> u64 {
    let mut r = 0u64;
    for byte in s {
        r = (r * 256 + *byte as u64) % 72057594037927931;
    }
    r
}

pub fn print_number(rt: &impl Print, n: u64) {
    let _ = print!(rt; " {n}");
}

pub fn print_flag(rt: &impl Print, flag: bool) {
    print_number(rt, flag as u64);
}

pub fn print_bytes(rt: &impl Print, s: &[u8]) {
    show::space(rt);
    show::bytes(rt, s);
}

pub fn print_nothing(rt: &impl Print) {
    show::text(rt, b" -");
}

// A long one by its length and its residue.
pub fn print_output(rt: &impl Print, out: &[u8]) {
    match out.len() {
        0 => print_nothing(rt),
        1..=64 => print_bytes(rt, out),
        n => {
            let r = residue(out);
            let _ = print!(rt; " {n} {r:014x}");
        }
    }
}
