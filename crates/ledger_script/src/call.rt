// The calls of a script.
use std::fmt;

#[derive(Clone, Copy, PartialEq, Eq)]
pub enum Call {
    Make,
    Put,
    Seal,
    Lent,
    Hold,
    Keep,
    Name,
    Carry,
}

// The call that a record's first byte stands for.
impl From<u8> for Call {
    fn from(kind: u8) -> Call {
        match kind {
            0 => Call::Make,
            1 => Call::Put,
            3 => Call::Lent,
            4 => Call::Hold,
            5 => Call::Keep,
            6 => Call::Name,
            7 => Call::Carry,
            _ => Call::Seal,
        }
    }
}

// Its word in a line.
impl fmt::Display for Call {
    fn fmt<W: fmt::Write>(&self, f: &mut fmt::Formatter<W>) -> fmt::Result {
        f.write_str(match *self {
            Call::Make => "make",
            Call::Put => "put -",
            Call::Seal => "seal",
            Call::Lent => "lent",
            Call::Hold => "hold -",
            Call::Keep => "keep",
            Call::Name => "name",
            Call::Carry => "carry",
        })
    }
}
