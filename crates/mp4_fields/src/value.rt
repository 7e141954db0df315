//! What a field of a box holds, and how it is printed.

use mp4_codec::FourCC;
use mp4_readable::{Code, Date, Grouped, Whole};
use serde::{Described, Serialize, Serializer};
use std::alloc::{AllocError, Global};
use std::fmt;

/// The least number that each program reads from JSON as it is: -2^53.
const LEAST_EXACT: i64 = -9_007_199_254_740_992;

/// A list of a box, of which the first values are kept.
#[derive(Debug, Drop)]
pub struct List<T> {
    /// How many there are.
    pub count: u64,
    pub first: Vec<T>,
}

/// The values of a row, those of the columns that there are first.
pub type Cells = [i128; 4];

/// A table: the names of its columns, and its first rows.
#[derive(Debug, Drop)]
pub struct Table {
    pub names: &'static [&'static str],
    pub rows: List<Cells>,
}

/// What a field holds.
#[derive(Debug, Drop)]
pub enum Value {
    /// It may be missing, and is.
    Missing,
    Number(u64),
    Signed(i64),
    /// A fixed-point number.
    Fixed(f64),
    /// Flags, which are shown in hex.
    Flags(u32),
    /// Seconds from the beginning of 1904 on; 0 where no time is said.
    Time(u64),
    Code(FourCC),
    Text(String),
    Bytes(List<u8>),
    Codes(List<FourCC>),
    Numbers(List<u64>),
    AllFixed(Vec<f64>),
    Table(Table),
}

/// A field of a box.
#[derive(Debug, Drop)]
pub struct Field {
    pub name: &'static str,
    pub value: Value,
}

/// A row of a table of a box.
pub trait TableRow {
    /// The names of its columns, up to four.
    const NAMES: &'static [&'static str];

    /// Its values in that order, in a box of this version.
    fn cells(&self, version: u8) -> Cells;
}

/// What follows the first values of a list where there are more.
fn write_more<W: fmt::Write>(f: &mut fmt::Formatter<W>, count: u64, shown: usize) -> fmt::Result {
    if count > shown as u64 {
        return f.write_str(" ..");
    }
    Ok(())
}

/// Writes how many values a list has, where that is more than a few.
fn write_count<W: fmt::Write>(f: &mut fmt::Formatter<W>, count: u64) -> fmt::Result {
    let count = Grouped(count);
    write!(f, "({count})")
}

fn write_bytes<W: fmt::Write>(f: &mut fmt::Formatter<W>, list: &List<u8>) -> fmt::Result {
    write_count(f, list.count)?;
    if list.count > 0 {
        f.write_str(" ")?;
    }
    for byte in list.first.iter() {
        write!(f, "{byte:02x}")?;
    }
    write_more(f, list.count, list.first.len())
}

fn write_codes<W: fmt::Write>(f: &mut fmt::Formatter<W>, list: &List<FourCC>) -> fmt::Result {
    write_count(f, list.count)?;
    for code in list.first.iter() {
        let code = Code(*code);
        write!(f, " {code}")?;
    }
    write_more(f, list.count, list.first.len())
}

fn write_numbers<W: fmt::Write>(f: &mut fmt::Formatter<W>, list: &List<u64>) -> fmt::Result {
    write_count(f, list.count)?;
    for number in list.first.iter() {
        let number = Grouped(*number);
        write!(f, " {number}")?;
    }
    write_more(f, list.count, list.first.len())
}

fn write_all_fixed<W: fmt::Write>(f: &mut fmt::Formatter<W>, numbers: &[f64]) -> fmt::Result {
    for (index, number) in numbers.iter().enumerate() {
        if index > 0 {
            f.write_str(" ")?;
        }
        write!(f, "{number}")?;
    }
    Ok(())
}

fn write_row<W: fmt::Write>(f: &mut fmt::Formatter<W>, names: &[&str], row: &Cells) -> fmt::Result {
    for (name, cell) in names.iter().zip(row.iter()) {
        let width = name.len();
        f.write_str("  ")?;
        match u64::try_from(*cell) {
            Ok(number) => {
                let number = Grouped(number);
                write!(f, "{number:>width$}")?;
            }
            Err(_) => write!(f, "{cell:>width$}")?,
        }
    }
    Ok(())
}

/// The beginning of a line of a table, below its field.
const ROW_INDENT: &str = "\n    ";

fn write_rows<W: fmt::Write>(f: &mut fmt::Formatter<W>, table: &Table) -> fmt::Result {
    write_count(f, table.rows.count)?;
    if table.rows.count == 0 {
        return Ok(());
    }
    f.write_str(ROW_INDENT)?;
    for name in table.names {
        write!(f, "  {name}")?;
    }
    for row in table.rows.first.iter() {
        f.write_str(ROW_INDENT)?;
        write_row(f, table.names, row)?;
    }
    if table.rows.count > table.rows.first.len() as u64 {
        f.write_str(ROW_INDENT)?;
        f.write_str("  ..")?;
    }
    Ok(())
}

impl fmt::Display for Value {
    fn fmt<W: fmt::Write>(&self, f: &mut fmt::Formatter<W>) -> fmt::Result {
        match self {
            Value::Missing => f.write_str("-"),
            Value::Number(number) => f.write(Grouped(*number)),
            Value::Signed(number) => write!(f, "{number}"),
            Value::Fixed(number) => write!(f, "{number}"),
            Value::Flags(flags) => write!(f, "0x{flags:06x}"),
            Value::Time(seconds) => f.write(Date(*seconds)),
            Value::Code(code) => f.write(Code(*code)),
            Value::Text(text) => write!(f, "{text:?}"),
            Value::Bytes(list) => write_bytes(f, list),
            Value::Codes(list) => write_codes(f, list),
            Value::Numbers(list) => write_numbers(f, list),
            Value::AllFixed(numbers) => write_all_fixed(f, numbers.as_slice()),
            Value::Table(table) => write_rows(f, table),
        }
    }
}

/// Sends a list as an object: how many values there are, and the first of them.
fn send_list<T: Serialize, S: Serializer>(list: &List<T>, out: &mut S) -> Result<(), S::Error> {
    out.begin_map(Some(2))?;
    out.key("count")?;
    list.count.serialize(out)?;
    out.key("first")?;
    list.first.serialize(out)?;
    out.end_map()
}

/// Sends a number, which is a text past 2^53 and below -2^53.
fn send_cell<S: Serializer>(cell: i128, out: &mut S) -> Result<(), S::Error> {
    match (u64::try_from(cell), i64::try_from(cell)) {
        (Ok(number), _) => Whole(number).serialize(out),
        (Err(_), Ok(number)) if number >= LEAST_EXACT => out.i64(number),
        _ => out.collect_str(&cell),
    }
}

/// Sends a list of numbers as an object: how many there are, and the first of them.
fn send_numbers<S: Serializer>(list: &List<u64>, out: &mut S) -> Result<(), S::Error> {
    out.begin_map(Some(2))?;
    out.key("count")?;
    list.count.serialize(out)?;
    out.key("first")?;
    out.begin_seq(None)?;
    for number in list.first.iter() {
        Whole(*number).serialize(out)?;
    }
    out.end_seq()?;
    out.end_map()
}

/// Sends a row as an object, by the names of its columns.
fn send_row<S: Serializer>(names: &[&str], row: &Cells, out: &mut S) -> Result<(), S::Error> {
    out.begin_map(None)?;
    for (name, cell) in names.iter().zip(row.iter()) {
        out.key(name)?;
        send_cell(*cell, out)?;
    }
    out.end_map()
}

fn send_rows<S: Serializer>(table: &Table, out: &mut S) -> Result<(), S::Error> {
    out.begin_map(Some(2))?;
    out.key("count")?;
    table.rows.count.serialize(out)?;
    out.key("first")?;
    out.begin_seq(None)?;
    for row in table.rows.first.iter() {
        send_row(table.names, row, out)?;
    }
    out.end_seq()?;
    out.end_map()
}

fn send_codes<S: Serializer>(list: &List<FourCC>, out: &mut S) -> Result<(), S::Error> {
    out.begin_map(Some(2))?;
    out.key("count")?;
    list.count.serialize(out)?;
    out.key("first")?;
    out.begin_seq(None)?;
    for code in list.first.iter() {
        out.collect_str(&Code(*code))?;
    }
    out.end_seq()?;
    out.end_map()
}

impl Described for Value {}

impl Serialize for Value {
    fn serialize<S: Serializer>(&self, out: &mut S) -> Result<(), S::Error> {
        match self {
            Value::Missing => out.unit(),
            Value::Number(number) => Whole(*number).serialize(out),
            Value::Signed(number) => send_cell(i128::from(*number), out),
            Value::Fixed(number) => number.serialize(out),
            Value::Flags(flags) => flags.serialize(out),
            Value::Time(seconds) => Whole(*seconds).serialize(out),
            Value::Code(code) => out.collect_str(&Code(*code)),
            Value::Text(text) => text.serialize(out),
            Value::Bytes(list) => send_list(list, out),
            Value::Codes(list) => send_codes(list, out),
            Value::Numbers(list) => send_numbers(list, out),
            Value::AllFixed(numbers) => numbers.serialize(out),
            Value::Table(table) => send_rows(table, out),
        }
    }
}
