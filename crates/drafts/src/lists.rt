// Counted lists of what is kept.
ghost use Rattle.std.specs.Prelude.{◌≡◌, ◌+◌, ◌*◌, ◌≤◌, length};
ghost use Rattle.terms.specs.Numbers.{int_bytes};
ghost use Rattle.xdr.specs.Layout.{counted};
ghost use Rattle.xdr.specs.Writing.{Room, wrote};

use xdr::{Row, Writer};

// Writes how many rows there are, and then the rows.
#[tactic(auto, using(crate::proofs::Puts::list_written, crate::proofs::Puts::puts))]
pub fn put_list<T: Row>(rows: &[T], writer: &mut Writer<'_>)
    requires few { length rows.now ≤ u32.MAX }
    requires room { Room writer.old (int_bytes + T.Row.width * length rows.now) }
    ensures { writer.new ≡ wrote writer.old (counted T.Row.layout rows.now) }
{
    (rows.len() as u32).put_row(writer);
    writer.put_rows(rows);
}
