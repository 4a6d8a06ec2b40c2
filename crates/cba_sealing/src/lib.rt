// Sealing: ENC of the paper, for a key that is set. What opening has in common with it is offered.
#![tactic(auto)]

mod begin;
mod blocks;
mod direction;
mod forms;
mod joined;
mod pieces;
mod record;
mod separate;

pub use begin::{Begun, cover, full_tag};
pub use blocks::{Running, full_blocks};
pub use direction::Direction;
pub use forms::{enc, short_tag};
pub use pieces::mask;
pub use record::Record;
pub use separate::{last_block, tag_block};
