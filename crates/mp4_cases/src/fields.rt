//! What the fields of a payload answer, that are read one after the other and put again.

use crate::encoded::digits;
use crate::refusals::{Answer, refused};
use mp4_codec::{
    Entry, Error, Field, Fields, Items, Put, put_bytes, put_four_cc, put_i16, put_i32, put_list,
    put_u8, put_u16, put_u24, put_u32, put_u64, put_versioned, put_zeros,
};
use std::alloc::Global;
use std::fmt::{Debug, Write};

/// What was read, and the same as it is put again.
#[derive(Drop)]
struct Row {
    values: String,
    again: Vec<u8>,
}

impl Row {
    /// Writes a value after those before.
    fn add<T: Debug>(&mut self, value: &T) -> Put {
        if !self.values.is_empty() {
            self.values.push_str(", ")?;
        }
        write!(self.values, "{value:?}")
    }

    /// Adds a number that was read, and puts it again.
    fn number<T: Copy + Debug, P: FnOnce(&mut Vec<u8>, T) -> Put>(
        &mut self,
        read: Field<T>,
        put: P,
    ) -> Result<bool, Error>
        requires { P.IsAlwaysCallable put }
    {
        let number = read?;
        put(&mut self.again, number)?;
        self.add(&number)?;
        Ok(true)
    }

    /// Adds bytes that were read, and puts them again.
    fn bytes<P: FnOnce(&mut Vec<u8>, &[u8]) -> Put>(
        &mut self,
        alloc: Global,
        read: Field<&[u8]>,
        put: P,
    ) -> Result<bool, Error>
        requires { P.IsAlwaysCallable put }
    {
        let bytes = read?;
        put(&mut self.again, bytes)?;
        self.add(&Items::from(bytes.to_vec(alloc)?))?;
        Ok(true)
    }

    /// Adds a list of so many numbers that is read, and puts it again.
    fn list<T: Entry + Debug>(
        &mut self,
        alloc: Global,
        fields: &mut Fields,
        count: usize,
    ) -> Result<bool, Error>
    where
        Items<T>: Debug,
    {
        let list: Items<T> = fields.list(alloc, 0, count)?;
        put_list(&mut self.again, 0, list.as_slice())?;
        self.add(&list)?;
        Ok(true)
    }

    /// Reads an unsigned number; false where the word names none.
    fn unsigned(&mut self, fields: &mut Fields, word: &str) -> Result<bool, Error> {
        match word {
            "u8" => self.number(fields.u8(), |out, number| put_u8(out, number)),
            "u16" => self.number(fields.u16(), |out, number| put_u16(out, number)),
            "u24" => self.number(fields.u24(), |out, number| put_u24(out, number)),
            "u32" => self.number(fields.u32(), |out, number| put_u32(out, number)),
            _ => Ok(false),
        }
    }

    /// Reads a number whose bytes depend on a version.
    fn versioned(&mut self, fields: &mut Fields, version: u8) -> Result<bool, Error> {
        self.number(fields.versioned(version), |out, number| {
            put_versioned(out, version, number)
        })
    }

    /// Reads another number; false where the word names none.
    fn other_number(&mut self, fields: &mut Fields, word: &str) -> Result<bool, Error> {
        match word {
            "u64" => self.number(fields.u64(), |out, number| put_u64(out, number)),
            "i16" => self.number(fields.i16(), |out, number| put_i16(out, number)),
            "i32" => self.number(fields.i32(), |out, number| put_i32(out, number)),
            "code" => self.number(fields.four_cc(), |out, number| put_four_cc(out, number)),
            "version-0" => self.versioned(fields, 0),
            "version-1" => self.versioned(fields, 1),
            "version-2" => self.versioned(fields, 2),
            _ => self.unsigned(fields, word),
        }
    }

    /// Reads so many zero bytes, whatever they are.
    fn zeros(&mut self, alloc: Global, fields: &mut Fields, count: usize) -> Result<bool, Error> {
        self.bytes(alloc, fields.bytes(count), |out, _| {
            if count < 256 {
                put_zeros(out, count)
            } else {
                Ok(())
            }
        })
    }

    /// Reads so many values; false where the word names no kind of them.
    fn values(
        &mut self,
        alloc: Global,
        fields: &mut Fields,
        word: &str,
        count: &str,
    ) -> Result<bool, Error> {
        let Ok(count) = count.parse::<usize>() else {
            return Ok(false);
        };
        match word {
            "u32" => self.list::<u32>(alloc, fields, count),
            "u64" => self.list::<u64>(alloc, fields, count),
            "bytes" => self.bytes(
                alloc,
                fields.bytes(count),
                |out, bytes| put_bytes(out, bytes),
            ),
            "zeros" => self.zeros(alloc, fields, count),
            _ => Ok(false),
        }
    }

    /// Adds the bytes before the first zero, which are left as they are.
    fn until_zero(&mut self, alloc: Global, fields: &Fields) -> Result<bool, Error> {
        let text = fields.until_zero(alloc)?;
        self.add(&text)?;
        Ok(true)
    }

    /// Reads what a word names; false where it names nothing.
    fn field(&mut self, alloc: Global, fields: &mut Fields, word: &str) -> Result<bool, Error> {
        if let Some((kind, count)) = word.split_once('*') {
            return self.values(alloc, fields, kind, count);
        }
        match word {
            "text" => self.bytes(alloc, fields.text(), |out, text| {
                put_bytes(out, text)?;
                put_u8(out, 0)
            }),
            "until-zero" => self.until_zero(alloc, fields),
            "rest" => self.bytes(alloc, Ok(fields.rest()), |_, _| Ok(())),
            _ => self.other_number(fields, word),
        }
    }
}

/// Adds what words name, one after the other, and answers whether each names a field.
fn add_fields(alloc: Global, row: &mut Row, payload: &[u8], words: &str) -> Result<bool, Error> {
    let mut fields = Fields::new(payload);
    for word in words.split(' ') {
        if !row.field(alloc, &mut fields, word)? {
            return Ok(false);
        }
    }
    Ok(true)
}

/// What a row answers: the values that were read, or the bytes that they are put as; None where that is no question.
fn answer_of_row(alloc: Global, row: Row, question: &str) -> Answer {
    let Row { values, again } = row;
    match question {
        "read" => Ok(Some(values)),
        "written" => digits(alloc, again.as_slice()).map(Some),
        _ => Ok(None),
    }
}

/// What the fields of a payload answer: the values of those that are named, or the bytes that they are put as; None
/// where that is no question.
pub fn answer_of_fields(alloc: Global, payload: &[u8], question: &str) -> Answer {
    let Some((question, words)) = question.split_once(' ') else {
        return Ok(None);
    };
    let mut row = Row {
        values: String::new(alloc),
        again: Vec::new(alloc),
    };
    match add_fields(alloc, &mut row, payload, words) {
        Ok(true) => answer_of_row(alloc, row, question),
        Ok(false) => Ok(None),
        Err(error) => refused(alloc, &error),
    }
}
