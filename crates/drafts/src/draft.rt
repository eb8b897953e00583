// What a message says before it is tagged, and the two calls that write one into a lent buffer.
ghost use Rattle.std.specs.Prelude.{◌≡◌, ℕ, ◌≤◌, true, List, [], length, take, is_some, IfSome};
ghost use Rattle.terms.specs.Numbers.{longest_new_view};
ghost use Rattle.message.specs.Decoding.{untagged, decode};
ghost use Rattle.message.specs.declared.message.Message.{Message};
ghost use Rattle.xdr.specs.Writing.{Room, wrote};
ghost use Rattle.drafts.specs.Laws.{TagApart, FitsTagged};
ghost use Rattle.drafts.specs.Limits.{within, drafted_len};
ghost use Rattle.drafts.specs.Writing.{written, drafted};

use terms::TAG_BYTES;
use xdr::Writer;

/// What a message says before it is tagged.
pub trait Draft {
    /// The message that it becomes with a tag.
    ghost message: { Self → List ℕ → Message };

    /// How many bytes it has without a tag, or None where one of its lists is longer than a message's may be.
    /// Where it answers a number, the message is within its limits with any tag of the right length.
    fn untagged_len(&self) -> Option<usize>
        ensures value { result ≡ drafted_len (message self.now []) }
        ensures fits { IfSome result (λ _. FitsTagged (message self.now)) };

    /// Writes it without a tag.
    fn put(&self, writer: &mut Writer<'_>)
        requires within { within (message self.now []) ≡ true }
        requires room { Room writer.old (length (untagged (message self.now []))) }
        ensures { writer.new ≡ wrote writer.old (untagged (message self.now [])) };

    /// A tag changes nothing but the tag.
    ghost tag_apart: { (draft : Self) → TagApart (message draft) };
}

/// Writes the message with a tag at the front of a buffer and answers how many bytes that are, or answers None and
/// writes nothing where the message does not fit or a list is too long. The bytes behind the message stay,
/// and the message reads back from those that were written.
#[tactic(auto, using(crate::proofs::Writing::tag_written, crate::proofs::Writing::tag_reads))]
pub fn write<D: Draft>(draft: &D, tag: &[u8; TAG_BYTES], out: &mut [u8]) -> Option<usize>
    ensures value { (result, out.new) ≡ written (D.Draft.message draft.now tag.now) out.old }
    ensures back { IfSome result (λ n. decode (take n out.new) ≡ Some (D.Draft.message draft.now tag.now)) }
{
    let length = write_untagged(draft, out)?;
    Writer::at(out, length).put(tag);
    Some(length + TAG_BYTES)
}

/// The same without the tag: the bytes that are to be tagged. The buffer must have room for the whole message, its tag
/// included. A buffer that has room for the longest message has room for any.
#[tactic(auto, using(crate::proofs::Writing::has_room))]
pub fn write_untagged<D: Draft>(draft: &D, out: &mut [u8]) -> Option<usize>
    ensures value { (result, out.new) ≡ drafted (D.Draft.message draft.now []) out.old }
    ensures fits { IfSome result (λ _. FitsTagged (D.Draft.message draft.now)) }
    ensures room { within (D.Draft.message draft.now []) ≡ true → longest_new_view ≤ length out.old → is_some result ≡ true }
{
    let length = draft.untagged_len()?;
    let room = out.len().checked_sub(TAG_BYTES)?;
    if length > room {
        return None;
    }
    draft.put(&mut Writer::new(out));
    Some(length)
}
