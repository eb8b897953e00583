// Certifying a message and writing it, once nothing speaks against either.
ghost use Rattle.std.specs.Prelude.{◌≡◌, ◌<◌, ◌≤◌, [], Some, true, length, nat_le, slice_index, slice_set, take};
ghost use Rattle.terms.specs.Numbers.{longest_new_view};
ghost use Rattle.counter.specs.Certificates.{counters, allows, certificate_for};
ghost use Rattle.drafts.specs.Laws.{FitsTagged};
ghost use Rattle.drafts.specs.Limits.{within};
ghost use Rattle.message.specs.Decoding.{decode, encode, untagged};
ghost use Rattle.xdr.specs.Layout.{pasted};

use counter::{Counter, Kind};
use drafts::{Draft, write_untagged};
use terms::{OUT_BYTES, TAG_BYTES};
use xdr::Writer;

/// Whether a buffer has the room that every call that writes a message is lent.
pub(crate) fn has_room(out: &[u8]) -> bool
    ensures { result ≡ nat_le longest_new_view (length out.now) }
{
    out.len() >= OUT_BYTES
}

/// Whether a counter would give a certificate.
pub(crate) fn grants<C: Counter>(counter: &C, kind: Kind, number: u32, new: u64) -> bool
    requires { number < counters }
    ensures { result ≡ allows kind (slice_index (C.values counter.now) number) new }
{
    counter
        .value(number)
        .is_ok_and(|present| kind.allows(present, new))
}

/// A certificate that the counter would give, and gives.
pub(crate) fn certify<C: Counter>(
    counter: &mut C,
    kind: Kind,
    number: u32,
    new: u64,
    message: &[u8],
) -> [u8; TAG_BYTES]
    requires number { number < counters }
    requires granted { allows kind (slice_index (C.values counter.old) number) new ≡ true }
    ensures tag { result ≡ C.rule counter.old (certificate_for (C.seat counter.old) (C.values counter.old) kind number new message.now) }
    ensures values { C.values counter.new ≡ slice_set (C.values counter.old) number new }
    ensures same_seat { C.seat counter.new ≡ C.seat counter.old }
    ensures same_size { C.size counter.new ≡ C.size counter.old }
    ensures same_rule { C.rule counter.new ≡ C.rule counter.old }
{
    match counter.certify(kind, number, new, message) {
        Ok(tag) => tag,
        Err(_) => [0; TAG_BYTES],
    }
}

/// Certifies a draft by a counter and writes it with its tag at the front of the buffer. Answers the tag and how many
/// bytes were written.
#[tactic(auto, using(crate::proofs::Tagging::front_told, crate::proofs::Tagging::whole_told, crate::proofs::Tagging::length_told, drafts::proofs::Writing::tag_reads))]
pub(crate) fn issue<C: Counter, D: Draft>(
    counter: &mut C,
    draft: &D,
    kind: Kind,
    number: u32,
    new: u64,
    out: &mut [u8],
) -> ([u8; TAG_BYTES], usize)
    requires number { number < counters }
    requires granted { allows kind (slice_index (C.values counter.old) number) new ≡ true }
    requires within { within (D.message draft.now []) ≡ true }
    requires room { longest_new_view ≤ length out.old }
    ensures tag { result.0 ≡ C.rule counter.old (certificate_for (C.seat counter.old) (C.values counter.old) kind number new (untagged (D.message draft.now []))) }
    ensures bytes { result.1 ≡ length (encode (D.message draft.now result.0)) }
    ensures written { out.new ≡ pasted out.old 0 (encode (D.message draft.now result.0)) }
    ensures fits { FitsTagged (D.message draft.now) }
    ensures back { decode (take result.1 out.new) ≡ Some (D.message draft.now result.0) }
    ensures values { C.values counter.new ≡ slice_set (C.values counter.old) number new }
    ensures same_seat { C.seat counter.new ≡ C.seat counter.old }
    ensures same_size { C.size counter.new ≡ C.size counter.old }
    ensures same_rule { C.rule counter.new ≡ C.rule counter.old }
{
    let Some(length) = write_untagged(draft, out) else {
        return ([0; TAG_BYTES], 0);
    };
    let tag = certify(counter, kind, number, new, &out[..length]);
    Writer::at(out, length).put(&tag);
    (tag, length + TAG_BYTES)
}
