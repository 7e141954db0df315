//! The boxes of a track that are the same in each file but for a number or two.

use mp4_plain_movies::encoded::hex;
use mp4_plain_movies::plain_bytes::put_over;
use mp4_plain_movies::plain_tables::{DINF, HDLR, MDHD, TKHD};
use std::alloc::{AllocError, Global};

/// Where the id is in a track header.
const ID_IN_TKHD: usize = 20;

/// Where the timescale is in a media header.
const TIMESCALE_IN_MDHD: usize = 20;

/// Where the duration is in a media header.
const DURATION_IN_MDHD: usize = 24;

/// Where the handler is in its box.
const HANDLER_IN_HDLR: usize = 16;

/// The boxes of a track that each file has.
pub struct Parts {
    tkhd: Vec<u8>,
    mdhd: Vec<u8>,
    hdlr: Vec<u8>,
    dinf: Vec<u8>,
}

/// Taken apart here, and not at each end of each function that owns them.
impl Drop for Parts {
    fn drop(self) {
        let Parts {
            tkhd,
            mdhd,
            hdlr,
            dinf,
        } = self;
        drop(tkhd);
        drop(mdhd);
        drop(hdlr);
        drop(dinf);
    }
}

/// What a track is called by, and how its time is counted.
#[derive(Clone, Copy)]
pub struct Names {
    id: u32,
    /// The number of the four bytes of its handler.
    handler: u32,
    /// Ticks in a second.
    timescale: u32,
    /// In these ticks.
    duration: u32,
}

/// The handler `vide`.
const VIDEO: u32 = 0x7669_6465;

/// The handler `soun`.
const SOUND: u32 = 0x736f_756e;

/// The handler `sbtl`.
const TEXT: u32 = 0x7362_746c;

impl Names {
    /// Those of the first track, of video.
    pub fn of_video(duration: u32) -> Self {
        Names {
            id: 1,
            handler: VIDEO,
            timescale: 1000,
            duration,
        }
    }

    /// Those of the second track, of sound.
    pub fn of_sound(duration: u32) -> Self {
        Names {
            id: 2,
            handler: SOUND,
            timescale: 48000,
            duration,
        }
    }

    /// Those of a track of text.
    pub fn of_text(id: u32, duration: u32) -> Self {
        Names {
            id,
            handler: TEXT,
            timescale: 1000,
            duration,
        }
    }
}

impl Parts {
    pub fn new(alloc: Global) -> Result<Self, AllocError> {
        Ok(Parts {
            tkhd: hex(alloc, TKHD)?,
            mdhd: hex(alloc, MDHD)?,
            hdlr: hex(alloc, HDLR)?,
            dinf: hex(alloc, DINF)?,
        })
    }

    pub fn put_track_header(&self, bytes: &mut Vec<u8>, names: &Names) -> Result<(), AllocError> {
        let start = bytes.len();
        bytes.extend_from_slice(&self.tkhd)?;
        put_over(bytes, start.wrapping_add(ID_IN_TKHD), names.id);
        Ok(())
    }

    pub fn put_media_headers(&self, bytes: &mut Vec<u8>, names: &Names) -> Result<(), AllocError> {
        let start = bytes.len();
        bytes.extend_from_slice(&self.mdhd)?;
        put_over(
            bytes,
            start.wrapping_add(TIMESCALE_IN_MDHD),
            names.timescale,
        );
        put_over(bytes, start.wrapping_add(DURATION_IN_MDHD), names.duration);
        let start = bytes.len();
        bytes.extend_from_slice(&self.hdlr)?;
        put_over(bytes, start.wrapping_add(HANDLER_IN_HDLR), names.handler);
        Ok(())
    }

    pub fn put_data_information(&self, bytes: &mut Vec<u8>) -> Result<(), AllocError> {
        bytes.extend_from_slice(&self.dinf)
    }
}
