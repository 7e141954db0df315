//! What is made anew in a movie box.

ghost use Rattle.std.specs.Prelude.{◌≡◌, ◌↔◌, IfOk, IsTrue, IsFalse};
ghost use Rattle.mp4_remux.specs.References.{references_in};
ghost use Rattle.mp4_remux.specs.declared.made.Made.TheVariants.{Tables};

use crate::reference::{Reference, are_same, references_in};
use std::alloc::{AllocError, Global};

/// What is made anew in a movie box.
#[derive(Clone, Copy, Debug, PartialEq, Eq)]
pub(crate) enum Made {
    /// Chunk offsets.
    Offsets,
    /// Chunk offsets, and as tracks may be left out, references to them and the movie's duration.
    Tracks,
    /// All tables of samples, references, and the durations of the movie and its tracks.
    Tables,
}

impl Made {
    /// Whether all tables of samples are made.
    pub fn has_tables(self) -> bool
        ensures all { IsFalse result → self ≡ Tables → ⊥ }
        ensures tables { IsTrue result → self ≡ Tables }
    {
        match self {
            Made::Tables => true,
            Made::Offsets | Made::Tracks => false,
        }
    }
}

/// The tracks that are kept, and their references.
#[derive(Drop)]
pub(crate) struct Keeps<'a> {
    /// The ids of the tracks, in the order of their boxes.
    pub ids: &'a [u32],
    /// The references that they have in the new movie box.
    pub references: &'a [Reference],
}

impl<'a> Keeps<'a> {
    /// Whether these are the references in a movie box.
    pub fn has_references(&self, alloc: Global, movie: &[u8]) -> Result<bool, AllocError>
        ensures { IfOk result (λ has. IsTrue has
            ↔ (references_in movie.now self.now.ids.now ≡ self.now.references.now)) }
    {
        let references = references_in(alloc, movie, self.ids)?;
        Ok(are_same(&references, self.references))
    }
}
