// The window over counters: a repeat, and a counter recorded.
ghost use Rattle.std.specs.Prelude.{◌≡◌, false, ◌*◌, ◌%◌, ◌^◌};
ghost use Rattle.window_rules.specs.Window.{is_repeat, recorded};
ghost use Rattle.receiver.specs.Values.{window_of};

const REACH: u64 = 64;

// Whether any counter was accepted, the highest of them, and which of the 64 ending there were: bit i
// of marks, counted from the lowest, stands for the one that is i below.
//
// No Option of the highest and the marks: a record may be any of these values, also a highest where
// none was accepted, and receiver_script's records of that kind are printed as they are.
#[derive(Clone, Copy, Debug, PartialEq, Eq)]
pub struct Window {
    pub begun: bool,
    pub highest: u64,
    pub marks: u64,
}

impl Default for Window {
    ghost use Rattle.std.specs.Prelude.{◌≡◌};
    ghost use Rattle.receiver_rules.specs.Receiver.{no_window};
    ghost use Rattle.receiver.specs.Values.{window_of};

    ghost is_default = { λ w. window_of w ≡ no_window };

    // No counter accepted.
    fn default() -> Window {
        Window {
            begun: false,
            highest: 0,
            marks: 0,
        }
    }
}

impl Window {
    // Whether a counter was accepted before, or is too far below the highest to tell. Each case of the
    // definition returns by itself: one match over the three conditions is no plainer.
    pub(crate) fn is_repeat(self, counter: u64) -> bool
        ensures { result ≡ is_repeat (window_of self) counter }
    {
        if !self.begun {
            return false;
        }
        if counter > self.highest {
            return false;
        }
        let behind = self.highest - counter;
        if behind >= REACH {
            return true;
        }
        (self.marks >> behind) % 2 == 1
    }

    // The window after a counter that is no repeat is accepted, again case by case.
    pub(crate) fn recorded(self, counter: u64) -> Window
        requires { is_repeat (window_of self) counter ≡ false }
        ensures { window_of result ≡ recorded (window_of self) counter }
    {
        if !self.begun {
            return Window {
                begun: true,
                highest: counter,
                marks: 1,
            };
        }
        if counter > self.highest {
            return Window {
                highest: counter,
                marks: moved(self.marks, counter - self.highest) | 1,
                ..self
            };
        }
        Window {
            marks: self.marks | 1 << (self.highest - counter),
            ..self
        }
    }
}

// The marks, where the highest counter moves up; what is out of reach then is lost.
fn moved(marks: u64, by: u64) -> u64
    ensures { result ≡ marks * 2 ^ by % 2 ^ 64 }
{
    marks.checked_shl(by.min(REACH) as u32).unwrap_or(0)
}
