//! What scripts make, and the texts that describe files.

use crate::files::answer_of_file;
use mp4_cases::encoded::{byte, digits};
use mp4_cases::refusals::{Answer, refusal};
use mp4_media::Error;
use mp4_script::{ScriptFault, info_text, run_script, samples_text, show_text};
use std::alloc::{AllocError, Global};

/// Adds a word of a script to its bytes, in which `\` and two digits stand for a byte, and answers whether it is one.
fn add_word(script: &mut Vec<u8>, word: &str) -> Result<bool, AllocError> {
    let (plain, escaped) = word.split_once('\\').unwrap_or((word, ""));
    script.extend_from_slice(plain.as_bytes())?;
    if escaped.is_empty() {
        return Ok(plain.len() == word.len());
    }
    for part in escaped.split('\\') {
        let [high, low, rest @ ..] = part.as_bytes() else {
            return Ok(false);
        };
        let Some(byte) = byte(&[*high, *low]) else {
            return Ok(false);
        };
        script.push(byte)?;
        script.extend_from_slice(rest)?;
    }
    Ok(true)
}

/// The bytes of a script, whose lines are parted by `/`; None where a word is none of a script.
pub fn script_of(alloc: Global, words: &str) -> Result<Option<Vec<u8>>, AllocError> {
    let mut script = Vec::new(alloc);
    let mut is_script = true;
    let mut begins_line = true;
    for word in words.split_whitespace() {
        if word == "/" {
            script.push(b'\n')?;
            begins_line = true;
        } else {
            if !begins_line {
                script.push(b' ')?;
            }
            is_script = add_word(&mut script, word)? && is_script;
            begins_line = false;
        }
    }
    Ok(if is_script { Some(script) } else { None })
}

/// The lines of a text, parted by ` / `.
fn lines(alloc: Global, text: &[u8]) -> Result<String, AllocError> {
    let mut lines = String::new(alloc);
    for line in std::str::from_utf8(text).unwrap_or("").lines() {
        if !lines.is_empty() {
            lines.push_str(" / ")?;
        }
        lines.push_str(line)?;
    }
    Ok(lines)
}

/// The lines of a text that a call made, or why it is refused.
fn lines_made(alloc: Global, text: &Result<Vec<u8>, Error>) -> Result<String, AllocError> {
    match text {
        Ok(text) => lines(alloc, text),
        Err(error) => refusal(alloc, error),
    }
}

/// The lines that describe a file.
pub fn info(alloc: Global, file: &[u8]) -> Result<String, AllocError> {
    lines_made(alloc, &info_text(alloc, file))
}

/// The lines of the samples of a track of a file.
pub fn sample_lines(alloc: Global, file: &[u8], id: u32) -> Result<String, AllocError> {
    lines_made(alloc, &samples_text(alloc, file, id))
}

/// What a movie that was made answers to a question.
pub fn answer_of_made(alloc: Global, movie: &[u8], question: &str) -> Answer {
    match question {
        "finished" => digits(alloc, movie).map(Some),
        "length" => format!(in alloc; "{}", movie.len()).map(Some),
        _ => answer_of_file(alloc, movie, question),
    }
}

/// Why a script makes no movie. Where memory ran out that is no answer.
fn refused_script(alloc: Global, fault: &ScriptFault) -> Answer {
    match fault {
        ScriptFault::Refused(_, Error::OutOfMemory) | ScriptFault::End(Error::OutOfMemory) => {
            Err(AllocError)
        },
        fault => format!(in alloc; "refused: {fault}").map(Some),
    }
}

/// The lines that show the movie of a script.
fn shown(alloc: Global, script: &[u8]) -> Answer {
    match show_text(alloc, script) {
        Ok(text) => lines(alloc, &text).map(Some),
        Err(fault) => refused_script(alloc, &fault),
    }
}

/// What a script answers to a question: the lines that show its movie, or what its movie answers.
pub fn answer_of_script(alloc: Global, script: &[u8], question: &str) -> Answer {
    if question == "shown" {
        return shown(alloc, script);
    }
    match run_script(alloc, script) {
        Ok(movie) => answer_of_made(alloc, &movie, question),
        Err(fault) => refused_script(alloc, &fault),
    }
}
