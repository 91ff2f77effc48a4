//! The tag of a record. It has a type of its own, so that no other 16 bytes are passed where a tag is meant.
use sha2::{Digest, Sha256};
use std::marker::Model;

/// The number of a tag's bytes.
pub(crate) const TAG_LEN: usize = 16;

/// The tag of a record: 16 bytes that depend on its content and on all bytes of the log before it. Contracts see the
/// bytes.
#[derive(Clone, Copy, Debug, PartialEq, Eq)]
pub struct Tag {
    bytes: [u8; 16],
}

impl Model for Tag {
    ghost use Rattle.std.specs.Prelude.{List, ℕ};

    ghost Value = { List ℕ };

    ghost view = { λ t. t.bytes };

    ghost inverse = { λ bytes. record { bytes = bytes } };
}

impl Tag {
    ghost use Rattle.std.specs.Prelude.{◌≡◌, ◌↔◌, IsTrue, length, take};
    ghost use Rattle.sha2.specs.Hashers.{Holds256};
    ghost use Rattle.history_log.specs.Records.{first_tag, tag_after};

    /// The first half of a digest.
    fn front(digest: &[u8; 32]) -> Tag
        ensures { result ≡ take 16 digest.now }
    {
        let mut bytes = [0; TAG_LEN];
        bytes.copy_from_slice(&digest[..TAG_LEN]);
        Tag { bytes }
    }

    /// The tag of a log's header, which precedes the first record's tag.
    #[tactic(auto, unfolding(crate::specs::Records::first_tag))]
    pub fn first(header: &[u8]) -> Tag
        ensures { result ≡ first_tag header.now }
    {
        Tag::front(&Sha256::digest(header))
    }

    /// A hasher that has taken the tag.
    pub(crate) fn hasher(self) -> Sha256
        ensures { Holds256 result self }
    {
        Sha256::new_with_prefix(self.bytes.as_slice())
    }

    /// The tag of a record with this content that follows a record with this tag.
    #[tactic(auto, unfolding(crate::specs::Records::tag_after))]
    pub fn after(self, content: &[u8]) -> Tag
        ensures { result ≡ tag_after self content.now }
    {
        let mut hasher = self.hasher();
        hasher.update(content);
        Tag::front(&hasher.finalize())
    }

    /// Its bytes.
    pub fn as_bytes(&self) -> &[u8; 16]
        ensures bytes { result.now ≡ self.now }
        ensures whole { length self.now ≡ 16 }
    {
        &self.bytes
    }

    /// Whether these bytes are its bytes.
    pub(crate) fn matches(&self, bytes: &[u8]) -> bool
        ensures { IsTrue result ↔ (bytes.now ≡ self.now) }
    {
        bytes == self.bytes.as_slice()
    }
}
