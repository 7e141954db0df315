//! What is known of each container that was read.
//!
//! Each function here does nothing; its contract is a law.

ghost use Rattle.std.specs.Prelude.{◌≡◌, ℕ, List, Ok};
ghost use Rattle.std.specs.List.{AllByRecursion};
ghost use Rattle.mp4_table.specs.Stsc.{HasFirstSamples};
ghost use Rattle.mp4_boxes.specs.declared.stbl.StblBox.{StblBox};
ghost use Rattle.mp4_boxes.specs.declared.minf.MinfBox.{MinfBox};
ghost use Rattle.mp4_boxes.specs.declared.mdia.MdiaBox.{MdiaBox};
ghost use Rattle.mp4_boxes.specs.declared.trak.TrakBox.{TrakBox};
ghost use Rattle.mp4_boxes.specs.declared.moov.MoovBox.{MoovBox};
ghost use Rattle.mp4_boxes.specs.Stbl.{stbl_of};
ghost use Rattle.mp4_boxes.specs.Minf.{minf_of};
ghost use Rattle.mp4_boxes.specs.Mdia.{mdia_of};
ghost use Rattle.mp4_boxes.specs.Trak.{trak_of};
ghost use Rattle.mp4_boxes.specs.Moov.{moov_of};

/// What is read as a sample table, alone or within the media of a track, a track or a movie, has the first
/// samples of its chunks, whatever the payload.
pub fn read_tables_have_first_samples()
    ensures stbl { (payload : List ℕ) (b : StblBox) → stbl_of payload ≡ Ok b → HasFirstSamples b.stsc.entries }
    ensures minf { (payload : List ℕ) (b : MinfBox) → minf_of payload ≡ Ok b → HasFirstSamples b.stbl.stsc.entries }
    ensures mdia { (payload : List ℕ) (b : MdiaBox) → mdia_of payload ≡ Ok b
        → HasFirstSamples b.minf.stbl.stsc.entries }
    ensures trak { (payload : List ℕ) (b : TrakBox) → trak_of payload ≡ Ok b
        → HasFirstSamples b.mdia.minf.stbl.stsc.entries }
    ensures moov { (payload : List ℕ) (b : MoovBox) → moov_of payload ≡ Ok b
        → AllByRecursion (λ (t : TrakBox). HasFirstSamples t.mdia.minf.stbl.stsc.entries) b.traks }
{}
