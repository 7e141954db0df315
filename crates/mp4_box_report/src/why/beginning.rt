//! What a file that is no MP4 file begins as.

use mp4_codec::BoxType;

/// The bytes that are looked at: a packet of an MPEG transport stream, and the first byte of the next.
pub(crate) const LOOKED_AT: u64 = 189;

/// What a file begins as.
#[derive(Clone, Copy, Debug, PartialEq, Eq)]
pub(crate) enum Beginning {
    /// A file of this kind.
    Kind(&'static str),
    /// Neither a box nor anything that is known.
    Unknown,
}

/// The first bytes of each file of a kind.
#[derive(Clone, Copy)]
struct Signature {
    first: &'static [u8],
    kind: &'static str,
}

const SIGNATURES: [Signature; 14] = [
    Signature {
        first: b"\xff\xd8\xff",
        kind: "a JPEG picture",
    },
    Signature {
        first: b"\x89PNG\r\n",
        kind: "a PNG picture",
    },
    Signature {
        first: b"GIF8",
        kind: "a GIF picture",
    },
    Signature {
        first: b"\x1a\x45\xdf\xa3",
        kind: "a Matroska or WebM file",
    },
    Signature {
        first: b"OggS",
        kind: "an Ogg file",
    },
    Signature {
        first: b"fLaC",
        kind: "a FLAC file",
    },
    Signature {
        first: b"ID3",
        kind: "an MP3 file, by its ID3 tag",
    },
    Signature {
        first: b"FLV\x01",
        kind: "a Flash video",
    },
    Signature {
        first: b"\x30\x26\xb2\x75",
        kind: "a Windows Media file",
    },
    Signature {
        first: b"%PDF",
        kind: "a PDF document",
    },
    Signature {
        first: b"PK\x03\x04",
        kind: "a ZIP archive",
    },
    Signature {
        first: b"\x1f\x8b\x08",
        kind: "a gzip archive",
    },
    Signature {
        first: b"7z\xbc\xaf",
        kind: "a 7z archive",
    },
    Signature {
        first: b"\x7fELF",
        kind: "a program",
    },
];

/// The kind of a RIFF file, which these bytes begin.
fn riff_kind(bytes: &[u8]) -> &'static str {
    let form = bytes.get(8..).unwrap_or(&[]);
    if form.starts_with(b"WAVE") {
        return "a WAV file";
    }
    if form.starts_with(b"AVI ") {
        return "an AVI file";
    }
    if form.starts_with(b"WEBP") {
        return "a WebP picture";
    }
    "a RIFF file"
}

/// The kind of file that has these first bytes, if it is one with a signature.
fn signed_kind(bytes: &[u8]) -> Option<&'static str> {
    if bytes.starts_with(b"RIFF") {
        return Some(riff_kind(bytes));
    }
    for signature in SIGNATURES {
        if bytes.starts_with(signature.first) {
            return Some(signature.kind);
        }
    }
    None
}

/// The kind of file that has these first bytes, which could be the size of a box, but aren't followed by a type.
fn unsigned_kind(bytes: &[u8]) -> Option<&'static str> {
    match bytes.get(0..4) {
        Some([0, 0, 1, 0xba]) => Some("an MPEG program stream"),
        Some([0, 0, 0, 1]) | Some([0, 0, 1, _]) => Some("a byte stream of H.264 or H.265"),
        Some([0xff, second, _, _]) if *second >= 0xe0 => Some("MPEG sound without a container"),
        Some([0x47, _, _, _]) if bytes.get(188) == Some(&0x47) => Some("an MPEG transport stream"),
        Some([b'B', b'M', _, _]) => Some("a BMP picture"),
        _ => None,
    }
}

/// Whether a byte is one of a text: neither a control character, but for those that end a line or indent it.
fn is_of_text(byte: &u8) -> bool {
    match byte {
        b'\t' | b'\n' | b'\r' => true,
        0x20..=0x7e | 0x80..=0xff => true,
        _ => false,
    }
}

/// Whether a byte may be one of a type: a visible character, a space, or the © of iTunes' items.
fn is_of_type(byte: &u8) -> bool {
    match byte {
        0x20..=0x7e | 0xa9 => true,
        _ => false,
    }
}

/// Whether the library has a name for the type that these bytes are.
fn is_known_type(bytes: &[u8]) -> bool {
    match bytes {
        [a, b, c, d] => {
            let name = BoxType::from(u32::from_be_bytes([*a, *b, *c, *d]));
            !matches!(name, BoxType::UnknownBox(_))
        }
        _ => false,
    }
}

/// What a file with these first bytes begins as; `None` where it may begin with a box.
pub(crate) fn beginning_of(bytes: &[u8]) -> Option<Beginning> {
    let name = bytes.get(4..8).unwrap_or(&[]);
    if is_known_type(name) {
        return None;
    }
    if let Some(kind) = signed_kind(bytes) {
        return Some(Beginning::Kind(kind));
    }
    if name.iter().all(is_of_type) {
        let is_text = name.len() == 4 && bytes.iter().all(is_of_text);
        return is_text.then_some(Beginning::Kind("plain text"));
    }
    match unsigned_kind(bytes) {
        Some(kind) => Some(Beginning::Kind(kind)),
        None => Some(Beginning::Unknown),
    }
}
