// What a session remembers of one client, and its written row.
ghost use Rattle.service.specs.Kept.{kept_bytes};
ghost use Rattle.std.proofs.Common.{rules};

use xdr::{Row, Writer};

/// The bytes of a written row: three numbers.
pub const KEPT_BYTES: usize = 12;

/// A client's last sequence and the reply that it got. All are 0 before the client's first request.
#[derive(Clone, Copy, PartialEq, Eq, Debug)]
pub struct Kept {
    pub sequence: u32,
    /// Status and value.
    pub reply: (u32, u32),
}

impl Row for Kept {
    ghost width = { 12 };

    ghost layout = { kept_bytes };

    ghost wide = { Prim.search rules };

    fn put_row(&self, writer: &mut Writer<'_>) {
        let (status, value) = self.reply;
        writer.put_rows(&[self.sequence, status, value]);
    }
}
