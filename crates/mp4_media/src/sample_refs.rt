//! The samples of a track in their order, with their bytes.

ghost use Rattle.std.specs.Iterator.{YieldsFirstBy, item_count};
ghost use Rattle.mp4_media.specs.InOrder.{refs_left, ref_answer};

use crate::reader::borrowed_at;
use mp4_codec::Result;
use mp4_lookup::Samples;
use mp4_samples::SampleRef;

/// The samples of a track in their order, their bytes borrowed from those that were opened.
#[derive(Drop)]
pub struct SampleRefs<'a, 't> {
    pub(crate) bytes: &'a [u8],
    pub(crate) samples: Samples<'t>,
    /// Whether a sample was refused: none is read after it.
    pub(crate) has_ended: bool,
}

impl<'a, 't> Iterator for SampleRefs<'a, 't> {
    type Item = Result<SampleRef<'a>>;

    ghost next_gives = { YieldsFirstBy ref_answer refs_left };

    ghost remaining = { item_count refs_left };

    fn next(&mut self) -> Option<Result<SampleRef<'a>>> {
        if self.has_ended {
            return None;
        }
        match self.samples.next() {
            None => None,
            Some(Ok(place)) => {
                let sample = borrowed_at(self.bytes, place);
                self.has_ended = sample.is_err();
                Some(sample)
            }
            Some(Err(error)) => {
                self.has_ended = true;
                Some(Err(error))
            }
        }
    }
}
