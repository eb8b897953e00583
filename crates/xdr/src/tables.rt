// Rows: values that all have one width, of which tables are made.
ghost use Rattle.std.specs.Prelude.{◌≡◌, ℕ, List, length};
ghost use Rattle.xdr.specs.Writing.{Room, wrote};

use super::writer::Writer;

/// A value that is laid out in a fixed number of bytes.
pub trait Row {
    ghost width: { ℕ };

    ghost layout: { Self → List ℕ };

    /// Writes the row.
    fn put_row(&self, writer: &mut Writer<'_>)
        requires { Room writer.old width }
        ensures { writer.new ≡ wrote writer.old (layout self.now) };

    ghost wide: { (row : Self) → length (layout row) ≡ width };
}
