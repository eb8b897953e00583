// Writing into a lent buffer, one value behind the other. This is a helper of the crates above, which test the buffer's
// length once and are proved to stay within it.
ghost use Rattle.std.specs.Prelude.{◌≡◌, ◌*◌, length};
ghost use Rattle.std.specs.List.{flat_map};
ghost use Rattle.xdr.specs.Writing.{Room, wrote};

use super::tables::Row;

/// A lent buffer, and the place in it where the next value is written.
#[derive(Drop)]
pub struct Writer<'a> {
    out: &'a mut [u8],
    position: usize,
}

impl<'a> Writer<'a> {
    /// Writes from the front of a buffer.
    pub fn new(out: &'a mut [u8]) -> Writer<'a>
        ensures out { result.out ≡ out.entry }
        ensures position { result.position ≡ 0 }
    {
        Writer::at(out, 0)
    }

    /// Writes from a place of a buffer on.
    pub fn at(out: &'a mut [u8], place: usize) -> Writer<'a>
        ensures out { result.out ≡ out.entry }
        ensures position { result.position ≡ place }
    {
        Writer {
            out,
            position: place,
        }
    }

    /// The place behind what was written.
    pub fn position(&self) -> usize
        ensures { result ≡ self.now.position }
    {
        self.position
    }

    /// Writes bytes as they are (fixed opaque).
    #[tactic(auto, using(std::proofs::lemmas::Slice::overwrites), unfolding(crate::specs::Layout::pasted))]
    pub fn put(&mut self, bytes: &[u8])
        requires { Room self.old (length bytes.now) }
        ensures { self.new ≡ wrote self.old bytes.now }
    {
        let Writer { out, position } = self;
        let end = *position + bytes.len();
        out[*position..end].copy_from_slice(bytes);
        *position = end;
    }

    /// Writes rows one behind the other.
    pub fn put_rows<T: Row>(&mut self, rows: &[T])
        requires { Room self.old (T.Row.width * length rows.now) }
        ensures { self.new ≡ wrote self.old (flat_map T.Row.layout rows.now) }
    {
        for row in rows {
            row.put_row(self);
        }
    }
}
