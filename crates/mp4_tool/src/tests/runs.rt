//! Whole runs of the program.

use super::readers::{FailsAfter, Slow};
use super::texts::{EMPTY_INFO, EMPTY_MOVIE, TEXT_INFO, TEXT_SAMPLES, TEXT_SCRIPT};
use crate::run::run;
use mp4_script::run_script;
use std::alloc::Global;
use std::fs;
use std::io::Read;
use std::process::Abort;
use std::rt::Files;

const USAGE: &str = "usage: mp4_tool make OUT | info FILE | samples FILE TRACK | show\n";

/// The name of a movie that isn't whole.
const ASIDE: &str = ".mp4_tool-0.part";

/// What a run answered and printed.
#[derive(Debug, Drop)]
pub struct Printed {
    pub status: u8,
    pub out: Vec<u8>,
    pub err: Vec<u8>,
}

impl Printed {
    /// Whether it is this status with this text on both streams.
    pub fn is(&self, status: u8, out: &str, err: &str) -> bool {
        self.status == status
            && self.out.as_slice() == out.as_bytes()
            && self.err.as_slice() == err.as_bytes()
    }
}

/// Ends the test and prints what a run printed, unless that is this text and no message.
pub fn assert_printed(rt: &impl Abort, printed: &Printed, text: &str) {
    assert!(rt; printed.is(0, text, ""), "{printed:?}");
}

/// Ends the test and prints what a run printed, unless that is this message alone.
fn assert_refused(rt: &impl Abort, printed: &Printed, message: &str) {
    assert!(rt; printed.is(1, "", message), "{printed:?}");
}

/// Ends the test and prints the arguments of a run and what it printed, unless that is the usage alone.
fn assert_usage(rt: &impl Abort, command: &str, printed: &Printed) {
    assert!(rt; printed.is(2, "", USAGE), "of {command:?}: {printed:?}");
}

/// Ends the test and prints the name of a file, unless these are its bytes.
fn assert_bytes(rt: &impl Abort, name: &str, bytes: &[u8], expected: &[u8]) {
    assert!(rt; *bytes == *expected, "{name}");
}

/// Ends the test where there is a file of this name.
fn assert_absent(rt: &(impl Abort + Files), name: &str) {
    assert!(rt; fs::metadata(rt, name).is_err(), "{name}");
}

/// Writes a file of this name.
pub fn put_file(rt: &(impl Abort + Files), name: &str, bytes: &[u8]) {
    fs::write(rt, name, bytes).expect(rt, "the file is written");
}

/// Removes the file of this name.
pub fn remove(rt: &(impl Abort + Files), name: &str) {
    fs::remove_file(rt, name).expect(rt, "the file is removed");
}

/// The bytes of the file of this name, which is removed.
fn take_file(rt: &(impl Abort + AllocGlobal + Files), name: &str) -> Vec<u8> {
    let bytes = fs::read(rt, name).expect(rt, "the file is read");
    remove(rt, name);
    bytes
}

/// The arguments that a text has, parted by spaces; an empty one has none.
fn arguments_of(rt: &impl Abort, alloc: Global, text: &str) -> Vec<String> {
    let mut arguments = Vec::new(alloc);
    if text.is_empty() {
        return arguments;
    }
    for argument in text.split(' ') {
        let argument = String::from_str(alloc, argument).expect(rt, "memory");
        arguments.push(argument).expect(rt, "memory");
    }
    arguments
}

/// A run with these arguments and this input.
pub fn ran<R: Read>(
    rt: &(impl Abort + AllocGlobal + Files),
    command: &str,
    input: &mut R,
) -> Printed {
    let arguments = arguments_of(rt, rt.alloc(), command);
    let mut out = Vec::new(rt.alloc());
    let mut err = Vec::new(rt.alloc());
    let status = run(
        rt,
        rt.alloc(),
        arguments.as_slice(),
        input,
        &mut out,
        &mut err,
    )
    .expect(rt, "memory");
    Printed { status, out, err }
}

#[test]
fn wrong_arguments_are_answered_by_the_usage(rt: HostRuntime) {
    let rows = [
        "",
        "show show",
        "info",
        "info a b",
        "make",
        "make a b",
        "samples",
        "samples a",
        "samples a 1 2",
        "samples a x",
        "samples a 4294967296",
        "samples a -1",
        "Show",
        "help",
    ];
    for command in rows {
        let printed = ran(&rt, command, &mut b"x".as_slice());
        assert_usage(&rt, command, &printed);
    }
}

#[test]
fn a_script_is_described_or_its_fault_printed(rt: HostRuntime) {
    let printed = ran(&rt, "show", &mut b"".as_slice());
    assert_printed(&rt, &printed, EMPTY_INFO);
    let printed = ran(&rt, "show", &mut b"\n\nx".as_slice());
    assert_refused(&rt, &printed, "mp4_tool: line 3: not a command\n");
}

#[test]
fn a_slow_input_is_read_and_a_failing_one_refused(rt: HostRuntime) {
    let mut slow = Slow {
        text: b"\n\n\n",
        interrupted: false,
    };
    let printed = ran(&rt, "show", &mut slow);
    assert_printed(&rt, &printed, EMPTY_INFO);
    for bytes in [0, 3] {
        let printed = ran(&rt, "show", &mut FailsAfter { bytes });
        assert_refused(&rt, &printed, "mp4_tool: cannot read standard input\n");
    }
}

#[test]
fn a_missing_file_is_refused(rt: HostRuntime) {
    let printed = ran(&rt, "info no_such_file.mp4", &mut b"".as_slice());
    assert_refused(&rt, &printed, "mp4_tool: cannot read no_such_file.mp4\n");
    let printed = ran(&rt, "info /", &mut b"".as_slice());
    assert_refused(&rt, &printed, "mp4_tool: cannot read /\n");
}

#[test]
fn a_whole_file_is_described_and_a_piece_refused(rt: HostRuntime) {
    let rows = [
        (164, 0, EMPTY_INFO, ""),
        (163, 1, "", "mp4_tool: end of data\n"),
        (100, 1, "", "mp4_tool: invalid data\n"),
        (48, 1, "", "mp4_tool: moov not found\n"),
        (33, 1, "", "mp4_tool: end of data\n"),
        (0, 1, "", "mp4_tool: ftyp not found\n"),
    ];
    for (length, status, out, err) in rows {
        put_file(&rt, "empty_movie.mp4", &EMPTY_MOVIE[..length]);
        let printed = ran(&rt, "info empty_movie.mp4", &mut b"".as_slice());
        remove(&rt, "empty_movie.mp4");
        assert!(rt;
            printed.is(status, out, err),
            "of {length} bytes: {printed:?}"
        );
    }
}

#[test]
fn a_movie_is_made_described_and_its_samples_listed(rt: HostRuntime) {
    let made = ran(&rt, "make made.mp4", &mut TEXT_SCRIPT.as_bytes());
    let described = ran(&rt, "info made.mp4", &mut b"".as_slice());
    let listed = ran(&rt, "samples made.mp4 1", &mut b"".as_slice());
    let unknown = ran(&rt, "samples made.mp4 2", &mut b"".as_slice());
    remove(&rt, "made.mp4");
    assert_printed(&rt, &made, "wrote 607 bytes\n");
    assert_printed(&rt, &described, TEXT_INFO);
    assert_printed(&rt, &listed, TEXT_SAMPLES);
    assert_refused(&rt, &unknown, "mp4_tool: trak[2] not found\n");
}

#[test]
fn a_file_cut_in_its_middle_is_refused(rt: HostRuntime) {
    let mut movie = run_script(rt.alloc(), TEXT_SCRIPT.as_bytes()).expect(&rt, "a movie");
    for (length, message) in [
        (600, "mp4_tool: end of data\n"),
        (300, "mp4_tool: invalid data\n"),
    ] {
        movie.truncate(length);
        put_file(&rt, "cut.mp4", movie.as_slice());
        let described = ran(&rt, "info cut.mp4", &mut b"".as_slice());
        let listed = ran(&rt, "samples cut.mp4 1", &mut b"".as_slice());
        remove(&rt, "cut.mp4");
        assert_refused(&rt, &described, message);
        assert_refused(&rt, &listed, message);
    }
}

#[test]
fn an_older_file_is_written_anew(rt: HostRuntime) {
    put_file(&rt, "anew.mp4", [7; 1000].as_slice());
    let printed = ran(&rt, "make anew.mp4", &mut b"".as_slice());
    let anew = take_file(&rt, "anew.mp4");
    assert_printed(&rt, &printed, "wrote 164 bytes\n");
    assert_bytes(&rt, "anew.mp4", &anew, &EMPTY_MOVIE);
}

#[test]
fn a_script_that_comes_byte_by_byte_makes_the_same_movie(rt: HostRuntime) {
    let mut slow = Slow {
        text: TEXT_SCRIPT.as_bytes(),
        interrupted: false,
    };
    let printed = ran(&rt, "make slow.mp4", &mut slow);
    let made = take_file(&rt, "slow.mp4");
    let expected = run_script(rt.alloc(), TEXT_SCRIPT.as_bytes()).expect(&rt, "a movie");
    assert_printed(&rt, &printed, "wrote 607 bytes\n");
    assert_bytes(&rt, "slow.mp4", &made, &expected);
    assert_absent(&rt, ASIDE);
}

#[test]
fn a_script_is_at_fault_before_its_file_cannot_be_written(rt: HostRuntime) {
    let faulty = ran(&rt, "make no_folder/x.mp4", &mut b"\nx\n".as_slice());
    assert_refused(&rt, &faulty, "mp4_tool: line 2: not a command\n");
    let right = ran(&rt, "make no_folder/x.mp4", &mut b"\n\n".as_slice());
    assert_refused(&rt, &right, "mp4_tool: cannot write no_folder/x.mp4\n");
    let cut = ran(&rt, "make cut_off.mp4", &mut FailsAfter { bytes: 3 });
    assert_refused(&rt, &cut, "mp4_tool: cannot read standard input\n");
    assert_absent(&rt, "cut_off.mp4");
    assert_absent(&rt, ASIDE);
}

#[test]
fn what_is_no_regular_file_is_written_as_it_is(rt: HostRuntime) {
    let printed = ran(&rt, "make /dev/null", &mut TEXT_SCRIPT.as_bytes());
    assert_printed(&rt, &printed, "wrote 607 bytes\n");
    let metadata = fs::metadata(&rt, "/dev/null").expect(&rt, "it is there");
    assert!(rt; !metadata.is_file());
}

#[test]
fn a_file_is_left_where_its_script_is_at_fault(rt: HostRuntime) {
    put_file(&rt, "left.mp4", b"old".as_slice());
    let printed = ran(&rt, "make left.mp4", &mut b"track text 0".as_slice());
    let left = take_file(&rt, "left.mp4");
    assert_refused(&rt, &printed, "mp4_tool: line 1: timescale is zero\n");
    assert_bytes(&rt, "left.mp4", &left, b"old");
    assert_absent(&rt, ASIDE);
    let printed = ran(&rt, "make /", &mut b"".as_slice());
    assert_refused(&rt, &printed, "mp4_tool: cannot write /\n");
}
