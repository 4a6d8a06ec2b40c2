// The parts of a nonce as numbers, big-endian: a function for each, since they have widths of their own,
// and one over both would take the library's from_be_bytes as a closure.
ghost use Rattle.std.specs.Prelude.{◌≡◌};
ghost use Rattle.receiver_rules.specs.Receiver.{prefix_of, counter_of};

// The number that it begins with.
pub(crate) fn prefix_of(nonce: &[u8; 12]) -> u32
    ensures { result ≡ prefix_of nonce.now }
{
    let mut prefix = [0; 4];
    prefix.copy_from_slice(&nonce[..4]);
    u32::from_be_bytes(prefix)
}

pub(crate) fn counter_of(nonce: &[u8; 12]) -> u64
    ensures { result ≡ counter_of nonce.now }
{
    let mut counter = [0; 8];
    counter.copy_from_slice(&nonce[4..]);
    u64::from_be_bytes(counter)
}
