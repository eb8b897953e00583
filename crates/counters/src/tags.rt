// Comparing tags.
ghost use Rattle.std.specs.Prelude.{◌≡◌};
ghost use Rattle.std.specs.Str.{bytes_eq};

use terms::TAG_BYTES;

/// Whether a tag is the one that is shown. Every byte is looked at, also behind a difference, so that the time tells
/// nothing of where the two part.
#[tactic(auto, using(std::proofs::lemmas::Slice::Zip::zip_turn, crate::proofs::Differences::same_goes_on))]
pub fn same_tag(tag: &[u8; TAG_BYTES], shown: &[u8]) -> bool
    ensures { result ≡ bytes_eq tag.now shown.now }
{
    if shown.len() != TAG_BYTES {
        return false;
    }
    let mut difference = 0;
    for (ours, theirs) in tag.iter().zip(shown) {
        difference |= ours ^ theirs;
    }
    difference == 0
}
