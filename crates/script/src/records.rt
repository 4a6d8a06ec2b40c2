// The parts of a record. Numbers are big-endian.
ghost use Rattle.std.specs.Prelude.{◌≡◌, ◌+◌, ◌-◌, ◌*◌, ◌<◌, ◌≤◌, min, slice_index, IfSome};
ghost use Rattle.std.specs.Io.KnownBytes.{Consumes};
ghost use Rattle.script.specs.Records.{two, three, four, eight, flag, part};

use std::io::Read;

// A record of a script.
#[derive(Clone, Copy)]
pub struct Record {
    pub bytes: [u8; 64],
}

impl Record {
    pub fn byte(&self, at: usize) -> u8
        requires { at < 64 }
        ensures { result ≡ slice_index self.now.bytes at }
    {
        self.bytes[at]
    }

    // Whether a byte is not zero.
    pub fn flag(&self, at: usize) -> bool
        requires { at < 64 }
        ensures { result ≡ flag self.now.bytes at }
    {
        self.byte(at) != 0
    }

    // The N bytes that begin at a place.
    pub fn part<const N: usize>(&self, at: usize) -> [u8; N]
        requires { at + N ≤ 64 }
        ensures { result ≡ part self.now.bytes at (at + N) }
    {
        let mut part = [0; N];
        part.copy_from_slice(&self.bytes[at..at + N]);
        part
    }

    // The string that begins at a place and has so many bytes, or as many as there are.
    pub fn string(&self, at: usize, len: u8) -> &[u8]
        requires { at ≤ 64 }
        ensures { result.now ≡ part self.now.bytes at (at + min len (64 - at)) }
    {
        let len = (len as usize).min(64 - at);
        &self.bytes[at..at + len]
    }

    pub fn short_number(&self, at: usize) -> u16
        requires { at + 2 ≤ 64 }
        ensures { result ≡ two self.now.bytes at }
    {
        u16::from_be_bytes(self.part(at))
    }

    pub fn number(&self, at: usize) -> u32
        requires { at + 4 ≤ 64 }
        ensures { result ≡ four self.now.bytes at }
    {
        u32::from_be_bytes(self.part(at))
    }

    pub fn long_number(&self, at: usize) -> u64
        requires { at + 8 ≤ 64 }
        ensures { result ≡ eight self.now.bytes at }
    {
        u64::from_be_bytes(self.part(at))
    }

    // A number of three bytes.
    pub fn length(&self, at: usize) -> usize
        requires { at + 3 ≤ 64 }
        ensures { result ≡ three self.now.bytes at }
    {
        let [high, middle, low] = self.part::<3>(at);
        u32::from_be_bytes([0, high, middle, low]) as usize
    }
}

// The next record of the input, where there is a whole one. Of what comes after a failed read nothing is
// said, and a script ends there.
pub fn next_record<I: Read>(input: &mut I) -> Option<Record>
    ensures { IfSome result (λ r. Consumes (I.remaining input.old) (I.remaining input.new) r.bytes) }
{
    let mut r = Record { bytes: [0; 64] };
    if input.read_exact(&mut r.bytes).is_err() {
        return None;
    }
    Some(r)
}
