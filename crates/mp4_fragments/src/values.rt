//! Values that a run lists, or that are one number for all its samples.

ghost use Rattle.std.specs.Prelude.{◌≡◌, ℕ, ◌+◌, ◌-◌, ◌*◌, ◌^◌, ◌<◌, ◌≤◌, get_or, length};
ghost use Rattle.std.specs.List.{sum};
ghost use Rattle.mp4_fragments.specs.Numbers.{sum_of_first};

/// The value of sample `j`.
pub fn value_at(values: &[u32], default_value: u32, j: u32) -> u32
    ensures { result ≡ get_or values.now j default_value }
{
    match values.get(j as usize) {
        Some(value) => *value,
        None => default_value,
    }
}

/// The sum of values that are listed.
// Kept a loop over the slice itself: docs/PERF.md, "Why these are calls".
fn sum_listed(values: &[u32]) -> u64
    requires { length values.now < 2 ^ 32 }
    ensures sum { result ≡ sum values.now }
    ensures few { result ≤ length values.now * (2 ^ 32 - 1) }
{
    let mut total: u64 = 0;
    for value in values {
        total += u64::from(*value);
    }
    total
}

/// The sum of the values from one number up to another. Only values that are listed are walked.
pub fn sum_between(values: &[u32], default_value: u32, from: u32, to: u32) -> u64
    requires { from ≤ to }
    ensures { sum_of_first from values.now default_value + result ≡ sum_of_first to values.now default_value }
{
    let start = values.len().min(from as usize);
    let end = values.len().min(to as usize);
    let unlisted = u64::from(to - from) - (end - start) as u64;
    sum_listed(&values[start..end]) + unlisted * u64::from(default_value)
}

/// The sum of the first `n` values.
pub fn sum_of(values: &[u32], default_value: u32, n: u32) -> u64
    ensures { result ≡ sum_of_first n values.now default_value }
{
    sum_between(values, default_value, 0, n)
}
