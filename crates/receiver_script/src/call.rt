// The calls of a script.
use std::fmt;

#[derive(Clone, Copy, PartialEq, Eq)]
pub enum Call {
    Make,
    Put,
    Open,
    Noise,
    Plain,
}

// The call that a record's first byte stands for.
impl From<u8> for Call {
    fn from(kind: u8) -> Call {
        match kind {
            0 => Call::Make,
            1 => Call::Put,
            3 => Call::Noise,
            4 => Call::Plain,
            _ => Call::Open,
        }
    }
}

// Its word in a line.
impl fmt::Display for Call {
    fn fmt<W: fmt::Write>(&self, f: &mut fmt::Formatter<W>) -> fmt::Result {
        f.write_str(match *self {
            Call::Make => "make",
            Call::Put => "put -",
            Call::Open => "open",
            Call::Noise => "open",
            Call::Plain => "plain",
        })
    }
}
