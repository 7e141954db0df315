//! What a run says of its samples one by one: a row of numbers for each sample, kept as a column for each kind of
//! number.

ghost use Rattle.std.specs.Prelude.{◌≡◌, ◌≤◌, ◌+◌, ◌*◌, length, OnOk, IfOk};
ghost use Rattle.mp4_codec.specs.Cause.{Answers, Checks, Gives};
ghost use Rattle.mp4_codec.specs.Bytes.{Appends, count_cause};
ghost use Rattle.mp4_moof.specs.Rows.{row, field_length, row_length, no_columns, columns_at, column_refusal};
ghost use Rattle.mp4_moof.specs.RowColumns.{numbers_at, column, columns_in};
ghost use Rattle.mp4_codec.specs.Early.{Shows, refused_at_once};

use crate::optional::{is_set, put_flagged};
use mp4_codec::{Block, Error, Fields, Items, Put, Result};
use std::alloc::{AllocError, Global};

/// The flag of durations.
pub(crate) const DURATIONS: u32 = 0x100;

/// The flag of sizes.
pub(crate) const SIZES: u32 = 0x200;

/// The flag of sample flags.
pub(crate) const SAMPLE_FLAGS: u32 = 0x400;

/// The flag of composition offsets.
pub(crate) const COMPOSITION_OFFSETS: u32 = 0x800;

/// What a run says of one sample: each number whose flag is set.
#[derive(Clone, Copy)]
pub(crate) struct Row {
    pub(crate) duration: Option<u32>,
    pub(crate) size: Option<u32>,
    pub(crate) flags: Option<u32>,
    pub(crate) cts: Option<u32>,
}

impl Row {
    /// Adds the numbers of the row that are there.
    pub(crate) fn put(self, out: &mut Vec<u8>) -> Put
        ensures { OnOk result (Appends out.old.items out.new.items (row self)) }
    {
        put_flagged(out, self.duration)?;
        put_flagged(out, self.size)?;
        put_flagged(out, self.flags)?;
        put_flagged(out, self.cts)?;
        Ok(())
    }
}

/// The bytes of a number of a row.
fn field_size(flag: u32, flags: u32) -> u64
    ensures value { result ≡ field_length flag flags }
    ensures few { result ≤ 4 }
{
    if is_set(flags, flag) { 4 } else { 0 }
}

/// The bytes of a row.
#[tactic(auto, unfolding(crate::specs::Rows::row_length))]
fn row_size(flags: u32) -> u64
    ensures { result ≡ row_length flags }
{
    field_size(DURATIONS, flags)
        + field_size(SIZES, flags)
        + field_size(SAMPLE_FLAGS, flags)
        + field_size(COMPOSITION_OFFSETS, flags)
}

/// Whether so many rows of this many bytes each are left; else it is `InvalidData`.
fn check_rows(fields: &Fields, count: u32, each: u64) -> Result<()>
    ensures { Checks result (count_cause count each fields.now) }
{
    let bytes = count as u128 * each as u128;
    if bytes > fields.len() as u128 {
        return Err(Error::InvalidData("samples pass the end"));
    }
    Ok(())
}

/// Whether a column has as many numbers as its flag asks for; else it is `InvalidData`.
#[tactic(auto, unfolding(crate::specs::Rows::column_refusal))]
pub(crate) fn check_column(flag: u32, flags: u32, count: u32, column: &Items<u32>) -> Result<()>
    ensures { Checks result (column_refusal flag flags count column.now) }
{
    let listed = if is_set(flags, flag) {
        count as usize
    } else {
        0
    };
    if column.len() != listed {
        return Err(Error::InvalidData("the list of a run's samples"));
    }
    Ok(())
}

/// The numbers at a place of each of so many rows.
fn numbers_at(
    alloc: Global,
    rows: &[u8],
    place: usize,
    each: usize,
    count: usize,
) -> std::result::Result<Items<u32>, AllocError>
    requires inside { place + 4 ≤ each }
    requires enough { count * each ≤ length rows.now }
    ensures { IfOk result (λ numbers. numbers ≡ numbers_at place each count rows.now) }
{
    let mut numbers = Vec::with_capacity(alloc, count)?;
    let mut rest = rows;
    for _ in 0..count {
        let (row, after) = rest.split_at(each);
        numbers.push_reserved(u32::from_block(&row[place..place + 4]));
        rest = after;
    }
    Ok(Items::from(numbers))
}

/// A column of so many rows: their numbers at a place where its flag is set, else none.
#[tactic(auto, unfolding(crate::specs::RowColumns::column))]
fn column(
    alloc: Global,
    rows: &[u8],
    flag: u32,
    flags: u32,
    place: usize,
    each: usize,
    count: usize,
) -> std::result::Result<Items<u32>, AllocError>
    requires inside { place + field_length flag flags ≤ each }
    requires enough { count * each ≤ length rows.now }
    ensures { IfOk result (λ numbers. numbers ≡ column flag flags place each count rows.now) }
{
    if is_set(flags, flag) {
        numbers_at(alloc, rows, place, each, count)
    } else {
        Ok(Items::new(alloc))
    }
}

/// The numbers of a run's samples, by their kinds.
#[derive(Drop)]
pub(crate) struct Columns {
    pub(crate) durations: Items<u32>,
    pub(crate) sizes: Items<u32>,
    pub(crate) flags: Items<u32>,
    pub(crate) cts: Items<u32>,
}

impl Columns {
    /// No numbers.
    fn new(alloc: Global) -> Self
        ensures { result ≡ no_columns }
    {
        Columns {
            durations: Items::new(alloc),
            sizes: Items::new(alloc),
            flags: Items::new(alloc),
            cts: Items::new(alloc),
        }
    }

    /// The columns of so many rows, where all of them are there. Each column is read by itself, so that no number is
    /// tested for; these are the columns of the rows that are read one after the other.
    #[tactic(auto, unfolding(crate::specs::Rows::row_length))]
    fn of_rows(
        alloc: Global,
        rows: &[u8],
        flags: u32,
        count: u32,
    ) -> std::result::Result<Self, AllocError>
        requires { count * row_length flags ≤ length rows.now }
        ensures { IfOk result (λ columns. columns ≡ columns_in flags count rows.now) }
    {
        let each = row_size(flags) as usize;
        let count = count as usize;
        let size_place = field_size(DURATIONS, flags) as usize;
        let flags_place = size_place + field_size(SIZES, flags) as usize;
        let cts_place = flags_place + field_size(SAMPLE_FLAGS, flags) as usize;
        let durations = column(alloc, rows, DURATIONS, flags, 0, each, count)?;
        let sizes = column(alloc, rows, SIZES, flags, size_place, each, count)?;
        let sample_flags = column(alloc, rows, SAMPLE_FLAGS, flags, flags_place, each, count)?;
        let cts = column(
            alloc,
            rows,
            COMPOSITION_OFFSETS,
            flags,
            cts_place,
            each,
            count,
        )?;
        Ok(Columns {
            durations,
            sizes,
            flags: sample_flags,
            cts,
        })
    }

    /// The columns of the next rows. Where they pass the end they are `InvalidData`, before memory is requested; else
    /// each column grows once. Rows without numbers take no memory, and are not gone over.
    pub(crate) fn read(alloc: Global, fields: &mut Fields, flags: u32, count: u32) -> Result<Self>
        ensures value { Answers (λ x. (x, fields.new)) result (columns_at flags count fields.old) }
        ensures early { Shows (refused_at_once (columns_at flags count fields.old)) result }
        ensures nothing { row_length flags ≡ 0
            → Gives (λ x. (x, fields.new)) result (columns_at flags count fields.old) }
    {
        let each = row_size(flags);
        if each == 0 {
            return Ok(Columns::new(alloc));
        }
        check_rows(fields, count, each)?;
        let rows = fields.rest();
        let columns = Columns::of_rows(alloc, rows, flags, count)?;
        let (_, after) = rows.split_at(count as usize * each as usize);
        *fields = Fields::new(after);
        Ok(columns)
    }
}
