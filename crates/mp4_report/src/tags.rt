//! What the movie box of a file says of its work beside what the library reads of it: items of iTunes, texts of user
//! data of the QuickTime file format, and keys of its metadata.

use crate::boxes_within::{BoxPart, Looking, Part};
use crate::tag_names::name_of;
use crate::tag_value::{DATA_HEAD, shown_value};
use crate::user_data::{language_of, mac_text};
use mp4_codec::FourCC;
use mp4_readable::Code;
use mp4_source::{ByteSource, FileError, Window};
use serde::Serialize;
use std::alloc::{AllocError, Global};

/// The most bytes of a value that are read: 1 MiB. A longer one is cut there.
const MOST_VALUE: u64 = 1_048_576;

/// The most bytes of a name that are read.
const MOST_NAME: u64 = 4096;

/// A thing that is said of a work.
#[derive(Debug, Drop, Serialize)]
pub struct Tag {
    /// Its name, as `artist`; the type of its box where that has no name, or the key that the file itself gives it.
    pub key: String,
    pub value: String,
    /// Its language of ISO 639-2/T, where that is said.
    pub language: Option<String>,
}

/// What was found up to a place.
#[derive(Drop)]
struct Found {
    alloc: Global,
    tags: Vec<Tag>,
}

/// The key of an item of this type: its name, or else its four letters.
fn key_of(alloc: Global, code: FourCC) -> Result<String, AllocError> {
    match name_of(code) {
        Some(name) => String::from_str(alloc, name),
        None => {
            let code = Code(code);
            format!(in alloc; "{code}")
        }
    }
}

impl Found {
    fn add(
        &mut self,
        key: String,
        value: Option<String>,
        language: Option<String>,
    ) -> Result<(), AllocError> {
        match value {
            Some(value) => self.tags.push(Tag {
                key,
                value,
                language,
            })?,
            None => drop(key),
        }
        Ok(())
    }

    /// Adds what the box `data` in an item says (QuickTime file format, "Value atom"), under a key.
    fn add_data<S: ByteSource>(
        &mut self,
        looking: &mut Looking<S>,
        item: BoxPart,
        key: String,
    ) -> Result<(), FileError> {
        let Some(data) = looking.last_box(item.payload, b"data")? else {
            return Ok(());
        };
        let bytes = looking.bytes(data, MOST_VALUE.saturating_add(DATA_HEAD))?;
        let value = shown_value(self.alloc, item.name, bytes)?;
        self.add(key, value, None)?;
        Ok(())
    }

    /// Adds an item of a name of its own, `----`: its key is the domain in `mean` and the name in `name`.
    fn add_free_form<S: ByteSource>(
        &mut self,
        looking: &mut Looking<S>,
        item: BoxPart,
    ) -> Result<(), FileError> {
        let mean = self.full_text(looking, item.payload, b"mean")?;
        let name = self.full_text(looking, item.payload, b"name")?;
        let key = format!(in self.alloc; "{mean}:{name}")?;
        self.add_data(looking, item, key)
    }

    /// The text of the last full box of this type in a part; empty where there is none.
    fn full_text<S: ByteSource>(
        &mut self,
        looking: &mut Looking<S>,
        part: Part,
        name: &[u8; 4],
    ) -> Result<String, FileError> {
        match looking.last_box(part, name)? {
            Some(payload) => {
                let bytes = looking.bytes(payload.after(4), MOST_NAME)?;
                Ok(String::from_utf8_lossy(self.alloc, bytes)?)
            }
            None => Ok(String::new(self.alloc)),
        }
    }

    /// Adds an item of a list of iTunes. Pictures are none of them.
    fn add_item<S: ByteSource>(
        &mut self,
        looking: &mut Looking<S>,
        item: BoxPart,
    ) -> Result<(), FileError> {
        match &item.name.value {
            b"----" => self.add_free_form(looking, item),
            b"covr" | b"free" => Ok(()),
            _ => {
                let key = key_of(self.alloc, item.name)?;
                self.add_data(looking, item, key)
            }
        }
    }

    /// Adds an item whose type is the number of its key.
    fn add_keyed<S: ByteSource>(
        &mut self,
        looking: &mut Looking<S>,
        item: BoxPart,
        keys: &[String],
    ) -> Result<(), FileError> {
        let number = u32::from_be_bytes(item.name.value) as usize;
        match keys.get(number.wrapping_sub(1)) {
            Some(key) => {
                let key = key.clone()?;
                self.add_data(looking, item, key)
            }
            None => Ok(()),
        }
    }

    /// Adds the items of a list, by their types or by the keys that their types number.
    fn add_items<S: ByteSource>(
        &mut self,
        looking: &mut Looking<S>,
        list: Part,
        keys: Option<&[String]>,
    ) -> Result<(), FileError> {
        let mut left = list;
        for _ in 0..u64::MAX {
            let Some((item, after)) = looking.next_box(left)? else {
                break;
            };
            match keys {
                Some(keys) => self.add_keyed(looking, item, keys)?,
                None => self.add_item(looking, item)?,
            }
            left = after;
        }
        Ok(())
    }

    /// The keys of metadata of the handler `mdta`, in their order (QuickTime file format, "Metadata item keys atom").
    fn keys_in<S: ByteSource>(
        &mut self,
        looking: &mut Looking<S>,
        keys: Part,
    ) -> Result<Vec<String>, FileError> {
        let mut list = Vec::new(self.alloc);
        let mut left = keys.after(8);
        for _ in 0..u64::MAX {
            let Some((key, after)) = looking.next_box(left)? else {
                break;
            };
            let bytes = looking.bytes(key.payload, MOST_NAME)?;
            list.push(String::from_utf8_lossy(self.alloc, bytes)?)?;
            left = after;
        }
        Ok(list)
    }

    /// Adds what metadata says, of the handlers `mdir` and `mdta`.
    fn add_metadata<S: ByteSource>(
        &mut self,
        looking: &mut Looking<S>,
        meta: Part,
    ) -> Result<(), FileError> {
        let is_full = looking.bytes(meta, 4)? == [0u8; 4].as_slice();
        let children = if is_full { meta.after(4) } else { meta };
        let Some(handler) = looking.last_box(children, b"hdlr")? else {
            return Ok(());
        };
        let handler = looking.bytes(handler.after(8), 4)?;
        let (is_itunes, is_keyed) = (handler == b"mdir".as_slice(), handler == b"mdta".as_slice());
        let Some(list) = looking.last_box(children, b"ilst")? else {
            return Ok(());
        };
        if is_itunes {
            return self.add_items(looking, list, None);
        }
        let Some(keys) = looking.last_box(children, b"keys")?.filter(|_| is_keyed) else {
            return Ok(());
        };
        let keys = self.keys_in(looking, keys)?;
        self.add_items(looking, list, Some(keys.as_slice()))
    }

    /// Adds the texts of a box of user data, each with its length and its language in two bytes before it (QuickTime
    /// file format, "User data text strings and language codes").
    fn add_texts<S: ByteSource>(
        &mut self,
        looking: &mut Looking<S>,
        found: BoxPart,
    ) -> Result<(), FileError> {
        let mut left = found.payload;
        for _ in 0..u64::MAX {
            let [a, b, c, d] = *looking.bytes(left, 4)? else {
                break;
            };
            let size = u64::from(u16::from_be_bytes([a, b]));
            let language = u16::from_be_bytes([c, d]);
            let text = left.after(4);
            if size > text.size() {
                break;
            }
            let value = mac_text(self.alloc, looking.bytes(text, size)?, language)?;
            let key = key_of(self.alloc, found.name)?;
            let language = language_of(self.alloc, language)?;
            self.add(key, Some(value), language)?;
            left = text.after(size);
        }
        Ok(())
    }

    /// Adds what user data says.
    fn add_user_data<S: ByteSource>(
        &mut self,
        looking: &mut Looking<S>,
        user_data: Part,
    ) -> Result<(), FileError> {
        let mut left = user_data;
        for _ in 0..u64::MAX {
            let Some((found, after)) = looking.next_box(left)? else {
                break;
            };
            match &found.name.value {
                b"meta" => self.add_metadata(looking, found.payload)?,
                [0xa9, _, _, _] => self.add_texts(looking, found)?,
                _ => {}
            }
            left = after;
        }
        Ok(())
    }

    /// Adds what a movie box says.
    fn add_movie<S: ByteSource>(
        &mut self,
        looking: &mut Looking<S>,
        moov: Part,
    ) -> Result<(), FileError> {
        let mut left = moov;
        for _ in 0..u64::MAX {
            let Some((found, after)) = looking.next_box(left)? else {
                break;
            };
            match &found.name.value {
                b"meta" => self.add_metadata(looking, found.payload)?,
                b"udta" => self.add_user_data(looking, found.payload)?,
                _ => {}
            }
            left = after;
        }
        Ok(())
    }
}

/// What the last movie box of a file says of its work, in file order, by the boxes' bytes as they stand; what has no
/// such form is passed over. A value of more than 1 MiB is cut there.
///
/// `Io` where the source refuses a read; else refused by `OutOfMemory` alone.
pub fn tags_of<S: ByteSource + Drop>(alloc: Global, source: S) -> Result<Vec<Tag>, FileError> {
    let window = Window::new(alloc, source)?;
    let mut looking = Looking::new(window, Vec::new(alloc));
    let mut found = Found {
        alloc,
        tags: Vec::new(alloc),
    };
    let whole = looking.whole()?;
    if let Some(moov) = looking.last_box(whole, b"moov")? {
        found.add_movie(&mut looking, moov)?;
    }
    let Found { alloc: _, tags } = found;
    Ok(tags)
}
