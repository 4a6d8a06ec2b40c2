// What a line has: the call's word, its answer, the receiver's fields, and an output.
use crate::call::Call;
use receiver::{Outcome, Receiver};
use script::{print_bytes, print_flag, print_number, print_output};

pub fn print_receiver(rt: &impl Print, v: &Receiver) {
    let w = v.window;
    print_number(rt, v.set as u64);
    print_bytes(rt, &v.key);
    print_number(rt, v.prefix as u64);
    print_flag(rt, w.begun);
    print_number(rt, w.highest);
    let marks = w.marks;
    let _ = print!(rt; " {marks:016x}");
}

// A call's answer and the receiver after it. ledger_script has its like, and the two stay: a shared one
// would take how the fields are printed as a closure, which is no plainer.
pub fn print_outcome(rt: &impl Print, call: Call, s: &Outcome) {
    let _ = rt.print(call);
    print_number(rt, answers::number_of(s.answer) as u64);
    print_receiver(rt, &s.receiver);
}

// And the output of an opening.
pub fn print_opened(rt: &impl Print, call: Call, s: &Outcome, out: &[u8]) {
    print_outcome(rt, call, s);
    print_output(rt, out);
    show::line_end(rt);
}
