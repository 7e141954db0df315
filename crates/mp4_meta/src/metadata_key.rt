//! The keys of metadata.

ghost use denote.Enum.Bare.{same_true};
ghost use Rattle.mp4_meta.specs.contracts.metadata_key.MetadataKey.{the_type as metadata_keys};
ghost use Rattle.std.specs.Prelude.{◌≡◌, true, [], ◌∷◌, refl};
ghost use Rattle.mp4_meta.specs.declared.metadata_key.MetadataKey.TheVariants.{Title, Year, Poster, Summary};

use mp4_codec::{ExactEq, Key};

/// What an item of metadata is about.
#[derive(Debug, Clone, Copy, PartialEq, Eq, Hash)]
pub enum MetadataKey {
    /// The name of the work, in an item of type `©nam`.
    Title,
    /// The year of its release, in an item of type `©day`.
    Year,
    /// A picture, in an item of type `covr`.
    Poster,
    /// A description, in an item of type `desc`.
    Summary,
}

impl ExactEq for MetadataKey {
    ghost exact = { same_true metadata_keys tt };
}

impl Key for MetadataKey {
    ghost all = { Title ∷ Year ∷ Poster ∷ Summary ∷ [] };

    ghost is_listed = { elim [ Title ↦ refl | Year ↦ refl | Poster ↦ refl | Summary ↦ refl ] };

    ghost listed_once = { refl };

    fn all() -> &'static [MetadataKey] {
        &[
            MetadataKey::Title,
            MetadataKey::Year,
            MetadataKey::Poster,
            MetadataKey::Summary,
        ]
    }
}

/// Equal keys hash alike: they feed a hasher the same bytes. This function does nothing; its contract is the law.
pub fn equal_keys_hash_alike<K: Key>()
    ensures { (a b : K) → K.eq a b ≡ true → K.hash_input a ≡ K.hash_input b }
{}
