//! Lists of fields, as they are put together.

ghost use Rattle.std.specs.Prelude.{◌≡◌, pos};
ghost use Rattle.mp4_fields.specs.Numbers.{fraction};

use crate::value::{Cells, Field, List, Table, TableRow, Value};
use mp4_codec::{FixedPointU8, FixedPointU16, FourCC};
use std::alloc::{AllocError, Global};

/// How much is kept of lists.
#[derive(Clone, Copy, Debug)]
pub struct Listing {
    pub alloc: Global,
    /// How many values of a list are kept at most.
    pub most: usize,
}

/// Fields that are added one after the other. Once memory ran out no field is added, and [`FieldList::finish`] says
/// so.
#[derive(Drop)]
pub struct FieldList {
    listing: Listing,
    fields: Result<Vec<Field>, AllocError>,
}

/// A number of 8.8 bits.
#[tactic(auto, using(crate::proofs::Numbers::units), unfolding(crate::specs::Numbers::fraction))]
fn unsigned_8(number: FixedPointU8) -> f64
    ensures { result ≡ fraction (pos number.raw) 8 }
{
    f64::from(number.raw_value()) / 256.0
}

/// A number of 16.16 bits.
#[tactic(auto, using(crate::proofs::Numbers::units), unfolding(crate::specs::Numbers::fraction))]
fn unsigned_16(number: FixedPointU16) -> f64
    ensures { result ≡ fraction (pos number.raw) 16 }
{
    f64::from(number.raw_value()) / 65536.0
}

/// The first values of a list.
fn first_of<T: Copy + Drop>(listing: Listing, values: &[T]) -> Result<List<T>, AllocError> {
    let most = values.len().min(listing.most);
    Ok(List {
        count: values.len() as u64,
        first: values[..most].to_vec(listing.alloc)?,
    })
}

/// The first of a list of numbers.
fn first_numbers<N: Copy + Into<u64> + Drop>(
    listing: Listing,
    values: &[N],
) -> Result<List<u64>, AllocError> {
    let mut first = Vec::new(listing.alloc);
    for value in values.iter().take(listing.most) {
        first.push((*value).into())?;
    }
    Ok(List {
        count: values.len() as u64,
        first,
    })
}

/// The first of a list of rows of a box of this version.
fn first_rows<R: TableRow>(
    listing: Listing,
    version: u8,
    values: &[R],
) -> Result<List<Cells>, AllocError> {
    let mut first = Vec::new(listing.alloc);
    for value in values.iter().take(listing.most) {
        first.push(value.cells(version))?;
    }
    Ok(List {
        count: values.len() as u64,
        first,
    })
}

/// These fields and one more.
fn pushed(
    fields: Result<Vec<Field>, AllocError>,
    name: &'static str,
    value: Result<Value, AllocError>,
) -> Result<Vec<Field>, AllocError> {
    let mut fields = fields?;
    let value = value?;
    fields.push(Field { name, value })?;
    Ok(fields)
}

impl FieldList {
    /// No fields.
    pub fn new(listing: Listing) -> Self {
        FieldList {
            listing,
            fields: Ok(Vec::new(listing.alloc)),
        }
    }

    /// The fields that were added; refused where memory ran out.
    pub fn finish(self) -> Result<Vec<Field>, AllocError> {
        self.fields
    }

    fn add(self, name: &'static str, value: Result<Value, AllocError>) -> Self {
        FieldList {
            listing: self.listing,
            fields: pushed(self.fields, name, value),
        }
    }

    pub fn number<N: Into<u64> + Drop>(self, name: &'static str, value: N) -> Self {
        self.add(name, Ok(Value::Number(value.into())))
    }

    pub fn signed(self, name: &'static str, value: i64) -> Self {
        self.add(name, Ok(Value::Signed(value)))
    }

    pub fn fixed(self, name: &'static str, value: f64) -> Self {
        self.add(name, Ok(Value::Fixed(value)))
    }

    /// A number of 8.8 bits.
    pub fn fixed_8(self, name: &'static str, value: FixedPointU8) -> Self {
        self.fixed(name, unsigned_8(value))
    }

    /// A number of 16.16 bits.
    pub fn fixed_16(self, name: &'static str, value: FixedPointU16) -> Self {
        self.fixed(name, unsigned_16(value))
    }

    /// Flags, which are shown in hex.
    pub fn flags(self, name: &'static str, value: u32) -> Self {
        self.add(name, Ok(Value::Flags(value)))
    }

    /// Seconds from the beginning of 1904 on.
    pub fn time(self, name: &'static str, value: u64) -> Self {
        self.add(name, Ok(Value::Time(value)))
    }

    /// What each full box begins with (ISO/IEC 14496-12, 4.2).
    pub fn version_and_flags(self, version: u8, flags: u32) -> Self {
        self.number("version", version).flags("flags", flags)
    }

    /// The times that the headers of movies, tracks and media begin with (ISO/IEC 14496-12, 8.2.2).
    pub fn header_times(self, creation: u64, modification: u64) -> Self {
        self.time("creation_time", creation)
            .time("modification_time", modification)
    }

    pub fn code(self, name: &'static str, value: FourCC) -> Self {
        self.add(name, Ok(Value::Code(value)))
    }

    /// A number that may be missing.
    pub fn optional<N: Into<u64> + Drop>(self, name: &'static str, value: Option<N>) -> Self {
        match value {
            Some(value) => self.number(name, value),
            None => self.add(name, Ok(Value::Missing)),
        }
    }

    /// A signed number that may be missing.
    pub fn optional_signed(self, name: &'static str, value: Option<i32>) -> Self {
        match value {
            Some(value) => self.signed(name, i64::from(value)),
            None => self.add(name, Ok(Value::Missing)),
        }
    }

    /// Flags that may be missing.
    pub fn optional_flags(self, name: &'static str, value: Option<u32>) -> Self {
        match value {
            Some(value) => self.flags(name, value),
            None => self.add(name, Ok(Value::Missing)),
        }
    }

    /// A text of any bytes: what isn't UTF-8 of it is U+FFFD.
    pub fn text(self, name: &'static str, value: &[u8]) -> Self {
        let text = String::from_utf8_lossy(self.listing.alloc, value);
        self.add(name, text.map(Value::Text))
    }

    /// The first bytes of a list.
    pub fn bytes(self, name: &'static str, values: &[u8]) -> Self {
        let list = first_of(self.listing, values);
        self.add(name, list.map(Value::Bytes))
    }

    /// The first codes of a list.
    pub fn codes(self, name: &'static str, values: &[FourCC]) -> Self {
        let list = first_of(self.listing, values);
        self.add(name, list.map(Value::Codes))
    }

    /// The first numbers of a list.
    pub fn numbers<N: Copy + Into<u64> + Drop>(self, name: &'static str, values: &[N]) -> Self {
        let list = first_numbers(self.listing, values);
        self.add(name, list.map(Value::Numbers))
    }

    /// All of these fixed-point numbers.
    pub fn all_fixed(self, name: &'static str, values: &[f64]) -> Self {
        let list = values.to_vec(self.listing.alloc);
        self.add(name, list.map(Value::AllFixed))
    }

    /// The first rows of a table, in a box of this version.
    pub fn rows<R: TableRow>(self, name: &'static str, version: u8, values: &[R]) -> Self {
        let rows = first_rows(self.listing, version, values);
        let table = rows.map(|rows| Value::Table(Table {
            names: R::NAMES,
            rows,
        }));
        self.add(name, table)
    }
}
