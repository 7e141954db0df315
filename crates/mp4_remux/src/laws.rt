//! Laws: what follows from the definitions alone. Each function here does nothing; its contract is a law.

ghost use Rattle.std.specs.Prelude.{◌≡◌, ℕ, List, Ok, Some, slice_get};
ghost use Rattle.mp4_media.specs.FileBoxes.{OpenedFile};
ghost use Rattle.mp4_media.specs.Opening.{IsOpening};
ghost use Rattle.mp4_media.specs.declared.reader.Mp4Reader.{Mp4Reader};
ghost use Rattle.mp4_remux.specs.Alike.{HasSameSamples};
ghost use Rattle.mp4_remux.specs.Remuxed.{IsRemuxed, ids_of};

/// Where one file is another rewritten, and both are opened, the movie of the rewritten one has tracks with exactly the
/// ids that were kept, and every sample of them is read from it as from the other movie: the same at each number, and
/// as many.
pub fn remuxed_samples_are_the_same()
    ensures ids { (before after kept : List ℕ) (opened rewritten : OpenedFile)
        → IsRemuxed before after opened rewritten kept → (other : Mp4Reader) → IsOpening after (Ok other)
        → ids_of other.movie.moov ≡ kept }
    ensures samples { (before after kept : List ℕ) (opened rewritten : OpenedFile)
        → IsRemuxed before after opened rewritten kept → (one other : Mp4Reader) → IsOpening before (Ok one)
        → IsOpening after (Ok other) → (id i : ℕ) → slice_get kept i ≡ Some id → HasSameSamples one other id }
{}
