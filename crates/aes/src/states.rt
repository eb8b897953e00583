// What the tag of a message in progress is made from: X, and the last bytes so far, of which a full block is held back
// until more come, since the last block is treated apart. Its methods stand in macs.rt.
ghost use Rattle.std.specs.Prelude.{◌≤◌};

use super::blocks::Block;
use super::macs::CmacKey;

/// A message in progress, under a key.
#[derive(Clone, Copy)]
pub struct Cmac<'k> {
    pub(crate) key: &'k CmacKey,
    pub(crate) x: Block,
    pub(crate) buf: Block,
    pub(crate) fill: usize,
    ghost fits: { fill ≤ 16 },
}
