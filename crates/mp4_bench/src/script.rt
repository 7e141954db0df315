//! Subtitles: the movies of scripts of many lines are made and shown.

use crate::digest::Digest;
use crate::failure::Failure;
use mp4_plain_movies::random::Random;
use mp4_script::show_text;
use std::alloc::{AllocError, Global};

/// How many scripts of each kind there are.
const SCRIPTS: u32 = 8;

/// The words of the lines.
const WORDS: [&str; 8] = [
    "the",
    "sea",
    "was",
    "as",
    "calm",
    "as it had been",
    "in years",
    "they said",
];

/// How many bytes of words are drawn, of which the lines are cut.
const TEXT: u32 = 65536;

/// How many beginnings of lines are drawn.
const BEGINNINGS: u32 = 256;

/// The lines of a script are of this kind.
#[derive(Clone, Copy)]
struct Shape {
    lines: u32,
    /// The fewest bytes of a line, and how many more it may have, at least 1.
    fewest: u32,
    more: u32,
}

/// What lines are made of: beginnings, each of a track and a duration, and words.
#[derive(Drop)]
struct Material {
    beginnings: Vec<String>,
    text: Vec<u8>,
}

/// Words at random.
fn made_text(alloc: Global, random: &mut Random) -> Result<Vec<u8>, AllocError> {
    let mut text = Vec::new(alloc);
    for _ in 0..TEXT / 4 {
        let word = WORDS.get(random.below(8) as usize).unwrap_or(&"");
        text.extend_from_slice(word.as_bytes())?;
        text.push(b' ')?;
    }
    Ok(text)
}

/// What the lines of scripts are made of.
fn made_material(alloc: Global, random: &mut Random) -> Result<Material, AllocError> {
    let text = made_text(alloc, random)?;
    let mut beginnings = Vec::new(alloc);
    for _ in 0..BEGINNINGS {
        let track = random.below(2).wrapping_add(1);
        let duration = random.below(5000);
        beginnings.push(format!(in alloc; "sample {track} {duration} 0 1 ")?)?;
    }
    Ok(Material { beginnings, text })
}

/// Adds a line.
fn put_line(
    script: &mut Vec<u8>,
    random: &mut Random,
    material: &Material,
    shape: &Shape,
) -> Result<(), AllocError> {
    if let Some(beginning) = material.beginnings.get(random.below(BEGINNINGS) as usize) {
        script.extend_from_slice(beginning.as_bytes())?;
    }
    let length = shape.fewest.wrapping_add(random.below(shape.more)) as usize;
    let start = random.below(256) as usize;
    let end = start.wrapping_add(length);
    script.extend_from_slice(material.text.get(start..end).unwrap_or(&material.text))?;
    script.push(b'\n')?;
    Ok(())
}

/// A script of two tracks.
fn made_script(
    alloc: Global,
    random: &mut Random,
    material: &Material,
    shape: &Shape,
) -> Result<Vec<u8>, AllocError> {
    let mut script = Vec::new(alloc);
    script.extend_from_slice(b"track text 1000\ntrack text 90000\n")?;
    for _ in 0..shape.lines {
        put_line(&mut script, random, material, shape)?;
    }
    Ok(script)
}

/// Scripts for each thousandth of the job that is done: subtitles, lines without text, and some long ones.
fn shapes(parts: u32) -> [Shape; 3] {
    [
        Shape {
            lines: parts.wrapping_mul(100),
            fewest: 20,
            more: 40,
        },
        Shape {
            lines: parts.wrapping_mul(50),
            fewest: 0,
            more: 1,
        },
        Shape {
            lines: parts,
            fewest: 2000,
            more: 4000,
        },
    ]
}

/// Shows the movies of scripts.
pub fn script(alloc: Global, seed: u32, parts: u32, digest: &mut Digest) -> Result<(), Failure> {
    let mut random = Random::new(u64::from(seed));
    let material = made_material(alloc, &mut random)?;
    for shape in shapes(parts) {
        for _ in 0..SCRIPTS {
            let script = made_script(alloc, &mut random, &material, &shape)?;
            digest.add_bytes(&show_text(alloc, &script)?);
        }
    }
    Ok(())
}
