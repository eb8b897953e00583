// What a tag is given for, as its fields and as bytes.
ghost use Rattle.std.specs.Prelude.{◌≡◌};
ghost use Rattle.counter.specs.Statements.{stated, head_bytes, StatementsApart};

use xdr::Writer;

/// The bytes of a statement before its message: three unsigned ints and two unsigned hypers.
pub const HEAD_BYTES: usize = 28;

/// A statement: that the counter of this number, at this seat, went from an old value to a new one for a message.
/// Any numbers may stand in it; what a counter certifies is another matter.
#[derive(Clone, Copy, PartialEq, Eq, Debug)]
pub struct Statement<'a> {
    /// `Kind::number` of the certificate.
    pub kind: u32,
    pub seat: u32,
    pub number: u32,
    pub new: u64,
    pub old: u64,
    /// The message without its own tag.
    pub message: &'a [u8],
}

impl Statement<'_> {
    /// The bytes that stand before the message where the statement is tagged. No two statements have the same bytes.
    pub fn head(self) -> [u8; HEAD_BYTES]
        ensures value { result ≡ head_bytes (stated self.entry) }
        ensures apart { StatementsApart }
    {
        let mut head = [0; HEAD_BYTES];
        let mut writer = Writer::new(&mut head);
        writer.put_rows(&[self.kind, self.seat, self.number]);
        writer.put_rows(&[self.new, self.old]);
        head
    }
}
