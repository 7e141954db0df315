//! Long tracks whose durations, sizes, rendering offsets and sync samples are alike in long runs, follow a pattern or
//! differ from one sample to the next: the movie is that of the plain model.

use crate::asserts::{assert_that, at_least};
use crate::random_movies::random_bytes;
use crate::written::{answers_alike, begun};
use mp4_entry::TrackType;
use mp4_plain_movies::calls::{Call, ISOM, Media, Sample, Track};
use mp4_plain_movies::plain_movie::PlainMovie;
use mp4_plain_movies::random::Random;
use std::alloc::Global;
use std::process::Abort;

/// How many samples a track has.
const SAMPLES: u32 = 700;

/// How many runs a writer keeps in any case.
const FEW_RUNS: u32 = 64;

const TEXT: Track<'static> = Track {
    track_type: TrackType::Subtitle,
    timescale: 1000,
    language: "und",
    media: Media::Text,
};

/// How the values of one kind follow each other.
#[derive(Clone, Copy)]
enum Order {
    /// All are equal.
    Same,
    /// Runs of a hundred and so.
    LongRuns,
    /// Four values in turn.
    Pattern,
    /// Pairs.
    Pairs,
    /// Runs of a hundred and so, and after the half of them each is another.
    RunsThenVaried,
    /// Each is another, and after the half of them all are equal.
    VariedThenSame,
}

fn random_order(random: &mut Random) -> Order {
    match random.below(6) {
        0 => Order::Same,
        1 => Order::LongRuns,
        2 => Order::Pattern,
        3 => Order::Pairs,
        4 => Order::RunsThenVaried,
        _ => Order::VariedThenSame,
    }
}

/// The value of a sample.
fn value_at(order: Order, sample: u32) -> u32 {
    match order {
        Order::Same => 7,
        Order::LongRuns => sample / 97,
        Order::Pattern => sample % 4,
        Order::Pairs => sample / 2 % 5,
        Order::RunsThenVaried if sample < SAMPLES / 2 => sample / 97,
        Order::VariedThenSame if sample >= SAMPLES / 2 => 3,
        _ => sample % 51,
    }
}

/// The orders of a track's durations, sizes, rendering offsets and sync samples.
#[derive(Clone, Copy)]
struct Orders {
    durations: Order,
    sizes: Order,
    rendering_offsets: Order,
    syncs: Order,
}

fn random_orders(random: &mut Random) -> Orders {
    Orders {
        durations: random_order(random),
        sizes: random_order(random),
        rendering_offsets: random_order(random),
        syncs: random_order(random),
    }
}

fn sample_at<'a>(pool: &'a [u8], orders: &Orders, sample: u32) -> Sample<'a> {
    let size = value_at(orders.sizes, sample) as usize;
    let later = value_at(orders.rendering_offsets, sample);
    Sample {
        duration: value_at(orders.durations, sample),
        rendering_offset: i32::try_from(later).unwrap_or(0).wrapping_sub(9),
        is_sync: value_at(orders.syncs, sample) % 2 == 0,
        bytes: pool.get(..size).unwrap_or(&[]),
    }
}

/// How many runs the values of the first samples make.
fn runs_before(order: Order, samples: u32) -> u32 {
    let mut runs = 0u32;
    let mut last = None;
    for sample in 0..samples {
        let value = Some(value_at(order, sample));
        if value != last {
            runs = runs.saturating_add(1);
        }
        last = value;
    }
    runs
}

/// How many of the inputs have lists that a writer keeps in runs, one by one after few of them, and one by one after
/// long runs.
#[derive(Clone, Copy)]
struct Reached {
    in_runs: u32,
    one_by_one: u32,
    changed: u32,
}

/// Counts the lists of an order.
fn count_order(reached: &mut Reached, order: Order) {
    let runs = runs_before(order, SAMPLES);
    if runs <= FEW_RUNS {
        reached.in_runs = reached.in_runs.saturating_add(1);
        return;
    }
    if runs.saturating_mul(2) <= SAMPLES {
        return;
    }
    reached.one_by_one = reached.one_by_one.saturating_add(1);
    if runs_before(order, SAMPLES / 2) <= FEW_RUNS {
        reached.changed = reached.changed.saturating_add(1);
    }
}

/// Makes the calls of a track of both. Whether the answers and the bytes are alike.
fn track_is_alike(rt: &impl Abort, alloc: Global, pool: &[u8], orders: &Orders) -> bool {
    let mut movie = PlainMovie::begin(alloc, &[], &ISOM).expect(rt, "memory");
    let mut writer = begun(rt, alloc, &[], &ISOM);
    let mut alike = answers_alike(rt, alloc, &mut writer, &mut movie, &Call::AddTrack(TEXT));
    for sample in 0..SAMPLES {
        let call = Call::WriteSample(1, sample_at(pool, orders, sample));
        alike = answers_alike(rt, alloc, &mut writer, &mut movie, &call) && alike;
    }
    alike = answers_alike(rt, alloc, &mut writer, &mut movie, &Call::WriteEnd) && alike;
    alike && writer.into_writer() == movie.bytes
}

#[test]
fn samples_in_runs_in_patterns_and_all_different_are_written_as_the_model_says(rt: HostRuntime) {
    let pool = random_bytes(&rt, rt.alloc());
    let mut random = Random::new(8600);
    let mut reached = Reached {
        in_runs: 0,
        one_by_one: 0,
        changed: 0,
    };
    for case in 0..24 {
        let orders = random_orders(&mut random);
        count_order(&mut reached, orders.durations);
        count_order(&mut reached, orders.sizes);
        count_order(&mut reached, orders.rendering_offsets);
        assert_that(&rt, case, track_is_alike(&rt, rt.alloc(), &pool, &orders));
    }
    at_least(&rt, "lists in runs", reached.in_runs, 20);
    at_least(&rt, "lists one by one", reached.one_by_one, 20);
    at_least(&rt, "lists that change", reached.changed, 10);
}
