// A line cut at its spaces.
ghost use Rattle.std.specs.Prelude.{◌≡◌, ◌≤◌, length};
ghost use Rattle.hub_grammar.specs.Lines.{length_before};
ghost use Rattle.hub_text.specs.Cuts.{Cuts};

// The six words of a line.
#[derive(Clone, Copy)]
pub struct Words<'a> {
    pub act: &'a [u8],
    pub set: &'a [u8],
    pub key: &'a [u8],
    pub nonce: &'a [u8],
    pub ad: &'a [u8],
    pub text: &'a [u8],
}

// How many bytes stand before the first x, or in all.
pub fn length_before(s: &[u8], x: u8) -> usize
    ensures { (result ≡ length_before x s.now) × (result ≤ length s.now) }
{
    s.iter().position(|c| *c == x).unwrap_or(s.len())
}

// The words between the spaces, where there are six.
pub fn six_words<'a>(line: &'a [u8]) -> Option<Words<'a>>
    ensures { Cuts line.now result }
{
    let mut words = line.split(|c| *c == b' ');
    let w = Words {
        act: words.next()?,
        set: words.next()?,
        key: words.next()?,
        nonce: words.next()?,
        ad: words.next()?,
        text: words.next()?,
    };
    if words.next().is_some() {
        return None;
    }
    Some(w)
}
