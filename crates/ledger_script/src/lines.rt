// What a line has: the call's word, its answer, the ledger's fields, and an output.
use crate::call::Call;
use ledger::{Heading, Ledger, Outcome};
use script::{print_bytes, print_flag, print_nothing, print_number, print_output};

fn print_heading(rt: &impl Print, h: &Heading) {
    if !h.kept && h.sum == [0; 16] {
        print_nothing(rt);
    } else {
        print_flag(rt, h.kept);
        show::text(rt, b":");
        show::bytes(rt, &h.sum);
    }
}

fn print_headings(rt: &impl Print, headings: &[Heading]) {
    for h in headings {
        print_heading(rt, h);
    }
}

pub fn print_ledger(rt: &impl Print, l: &Ledger) {
    print_number(rt, l.set as u64);
    print_bytes(rt, &l.key);
    print_number(rt, l.console as u64);
    print_number(rt, l.total);
    print_flag(rt, l.heartbeats);
    print_flag(rt, l.begun);
    print_bytes(rt, &l.last);
    print_headings(rt, &l.headings);
}

// A call's answer and the ledger after it.
pub fn print_outcome(rt: &impl Print, call: Call, s: &Outcome) {
    let _ = rt.print(call);
    print_number(rt, answers::number_of(s.answer) as u64);
    print_ledger(rt, &s.ledger);
}

// And the output of a sealing.
pub fn print_sealed(rt: &impl Print, call: Call, s: &Outcome, out: &[u8]) {
    print_outcome(rt, call, s);
    print_output(rt, out);
    show::line_end(rt);
}
