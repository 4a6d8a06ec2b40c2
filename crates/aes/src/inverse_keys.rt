// The round keys of decryption: InvMixColumns of those of encryption, column by column.
ghost use Rattle.std.specs.Prelude.{◌≡◌, ◌+◌, ◌*◌, ◌≤◌, suc, length};
ghost use Rattle.octets.specs.Blocks.{block};
ghost use Rattle.aes_tables.specs.Round.{inverse_entry};
ghost use Rattle.fips197.specs.Steps.{inv_mix_columns};
ghost use Rattle.aes_schedule.specs.Words.{bytes_of, block_of};
ghost use Rattle.aes.specs.Tables.{unmixed_column, on_column, Entries};

use crate::context::Encryption;
use crate::table::mixed;
use aes_schedule::{Words, boxed, join};

// InvMixColumns of the column at a place: the table u of decryption undoes the S-box, which that of
// encryption has. So no table is stored for InvMixColumns alone. The bytes are read one by one, since
// to take a word apart costs each key of decryption 180 instructions.
fn unmixed(e: &Encryption, u: &[u8], w: &[u8], at: usize) -> u32
    requires entries { Entries inverse_entry u.now }
    requires at_in_bounds { at + 4 ≤ length w.now }
    ensures { bytes_of result ≡ on_column unmixed_column w.now at }
{
    let t = e.table();
    let y = join(
        boxed(t, w[at]),
        boxed(t, w[at + 1]),
        boxed(t, w[at + 2]),
        boxed(t, w[at + 3]),
    );
    mixed(u, y, y, y, y)
}

// InvMixColumns of round key n of the schedule w.
pub fn inv_mix_key(e: &Encryption, u: &[u8], w: &[u8], n: usize) -> Words
    requires entries { Entries inverse_entry u.now }
    requires n_in_bounds { 16 * suc n ≤ length w.now }
    ensures { block_of result ≡ inv_mix_columns (block 16 w.now n) }
{
    Words {
        a: unmixed(e, u, w, 16 * n),
        b: unmixed(e, u, w, 16 * n + 4),
        c: unmixed(e, u, w, 16 * n + 8),
        d: unmixed(e, u, w, 16 * n + 12),
    }
}
