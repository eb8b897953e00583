// Tag functions under a key, as counters use them: 32 bytes for a message in two parts.
ghost use Rattle.std.specs.Prelude.{◌≡◌, ℕ, List, ◌++◌, length};
ghost use Rattle.terms.specs.Numbers.{tag_bytes};
ghost use Rattle.aes.specs.Tags.{tag_under as cmac_under};
ghost use Rattle.sha256.specs.Progress.{tag_under as hmac_under};
ghost use Rattle.counters.specs.Rules.{hmac_tag, cmac_tag, filled_up};
ghost use Rattle.counters.specs.Lengths.{hmac-length};
ghost use Rattle.std.proofs.Common.{arith};
ghost use Rattle.std.proofs.lemmas.List.{length-append};

use aes::CmacKey;
use sha256::HmacKey;
use streams::Stream;
use terms::TAG_BYTES;

/// A tag function with its key ready.
pub trait Mac: Sized {
    /// The bytes of a key.
    type Key;

    /// The tags under a key.
    ghost keyed: { Self.Key → List ℕ → List ℕ };

    ghost tags: { Self → List ℕ → List ℕ };

    /// Makes a key ready.
    fn ready(key: &Self::Key) -> Self
        ensures { tags result ≡ keyed key.now };

    /// The tag of two parts that follow one another.
    fn tag(&self, head: &[u8], rest: &[u8]) -> [u8; TAG_BYTES]
        ensures { result ≡ tags self.now (head.now ++ rest.now) };

    ghost whole: { (mac : Self) (bytes : List ℕ) → length (tags mac bytes) ≡ tag_bytes };
}

/// HMAC-SHA-256 under a key of 32 bytes.
#[derive(Drop)]
pub struct HmacSha256 {
    key: HmacKey,
}

impl Mac for HmacSha256 {
    type Key = [u8; 32];

    ghost keyed = { hmac_tag };

    ghost tags = { λ mac. hmac_under mac.key };

    ghost whole = { λ mac bytes. hmac-length mac.key bytes };

    fn ready(key: &[u8; 32]) -> HmacSha256 {
        HmacSha256 {
            key: HmacKey::new(key),
        }
    }

    fn tag(&self, head: &[u8], rest: &[u8]) -> [u8; TAG_BYTES] {
        self.key.start().with(head).with(rest).finish()
    }
}

/// AES-CMAC under a key of 16 bytes. Zeros complete its 16 bytes to a tag.
#[derive(Drop)]
pub struct AesCmac {
    key: CmacKey,
    ghost half: { (bytes : List ℕ) → length (cmac_under key bytes) ≡ 16 },
}

impl Mac for AesCmac {
    type Key = [u8; 16];

    ghost keyed = { cmac_tag };

    ghost tags = { λ mac bytes. filled_up (cmac_under mac.key bytes) };

    ghost whole = { λ mac bytes. let half = mac.half bytes in simp length-append (omega arith) };

    fn ready(key: &[u8; 16]) -> AesCmac {
        AesCmac {
            key: CmacKey::new(key),
        }
    }

    fn tag(&self, head: &[u8], rest: &[u8]) -> [u8; TAG_BYTES] {
        let mut whole = [0; TAG_BYTES];
        whole[0..16].copy_from_slice(&self.key.start().with(head).with(rest).finish());
        whole
    }
}
