//! Samples among the rows that were filled in of a track, by their times and their marks: no file is opened.

ghost use Rattle.std.specs.Prelude.{◌≡◌, ◌≤◌, length, min};
ghost use Rattle.mp4_c.specs.Replies.{Gave};
ghost use Rattle.mp4_c.specs.Rows.{GaveRowAt, GaveSyncRow, IsCountBy, IsLastSync, row_reply};

use crate::answer::Answer;
use crate::samples::SampleRow;

/// Answers the number of a row, which is how many rows there are up to it; 0 where there is none.
fn found(count: usize, number: &mut u64) -> Answer
    ensures { Gave (row_reply count) number.new result }
{
    *number = count as u64;
    let answers = u64::from(count > 0);
    Answer::done(answers, answers)
}

/// How many rows begin at or before a time, where their times rise.
fn count_by(rows: &[SampleRow], time: u64) -> usize
    ensures { IsCountBy rows.now time result }
{
    rows.partition_point(|row| row.start_time <= time)
}

/// The number of the last row that begins at or before a time, where the start times of the rows rise, as they do in
/// those of a track without fragments; else some number of a row, or 0. 0 where there is none. It is a binary search.
#[unsafe(no_mangle)]
pub extern "C" fn mp4_c_row_at(rows: &[SampleRow], time: u64, number: &mut u64) -> Answer
    ensures { GaveRowAt time rows.now number.new result }
{
    found(count_by(rows, time), number)
}

/// The number of the last of the first `count` rows from which decoding can begin; 0 where there is none.
fn last_sync(rows: &[SampleRow], count: usize) -> usize
    requires { count ≤ length rows.now }
    ensures { IsLastSync rows.now count result }
{
    let mut k = count;
    while k > 0 && rows[k - 1].is_sync == 0 {
        k -= 1;
    }
    k
}

/// The number of the last row up to number `k` from which decoding can begin; 0 where there is none. The rows are
/// looked at one by one, from number `k` on backwards.
#[unsafe(no_mangle)]
pub extern "C" fn mp4_c_sync_row_at_or_before(
    rows: &[SampleRow],
    k: u64,
    number: &mut u64,
) -> Answer
    ensures { GaveSyncRow k rows.now number.new result }
{
    let count = k.min(rows.len() as u64) as usize;
    found(last_sync(rows, count), number)
}
