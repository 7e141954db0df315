//! Whole jobs that users of the library wait for, on inputs of real shape that a seed settles. A run prints a digest of
//! all that its job answers, and no times: docs/PERF.md says how they are measured. Or it writes a file, on which other
//! programs are measured too.
#![tactic(auto)]

mod digest;
mod failure;
mod files;
mod fragments;
mod list;
mod live;
mod made;
mod parts;
mod record;
mod record_file;
mod scan;
mod script;
mod seek;
mod tables;
mod text_files;
mod walk;

use crate::digest::Digest;
use crate::failure::Failure;
use crate::made::made;
use crate::record_file::record_file;
use crate::walk::Way;
use mp4_script::decimal_in;
use std::alloc::{AllocError, Global};
use std::process::ExitCode;
use std::{env, io};

const USAGE: &[u8] =
    b"usage: mp4_bench JOB [SEED [PARTS]], or mp4_bench record_file SEED PARTS FILE\n";

const JOBS: &[u8] =
    b"a job: all | seek | list | scan | live | record | script | walk | numbers | cursor | times\n";

const FILES: &[u8] = b"or a file: even | turning | fragments\n";

/// How large a job is where nothing is said: the whole of it.
const WHOLE: u32 = 1000;

/// A job that is done in memory.
#[derive(Clone, Copy)]
enum Job {
    Seek,
    List,
    Scan,
    Live,
    Record,
    Script,
    Walk(Way),
}

/// The arguments after the program's name. Where one of them isn't UTF-8 the answer is an empty list, which is no job.
fn arguments(rt: &HostRuntime) -> Result<Vec<String>, AllocError> {
    match env::args(rt) {
        Ok(args) => args.skip(1).collect(rt.alloc()),
        Err(error) if error.kind() == io::ErrorKind::OutOfMemory => Err(AllocError),
        Err(_) => Ok(Vec::new(rt.alloc())),
    }
}

/// The number that an argument says, or another where there is none.
fn number_in(arguments: &[String], index: usize, otherwise: u32) -> u32 {
    match arguments.get(index) {
        Some(digits) => decimal_in(digits.as_bytes()).unwrap_or(otherwise),
        None => otherwise,
    }
}

/// The job of this name.
fn job_of(name: &str) -> Option<Job> {
    match name {
        "seek" => Some(Job::Seek),
        "list" => Some(Job::List),
        "scan" => Some(Job::Scan),
        "live" => Some(Job::Live),
        "record" => Some(Job::Record),
        "script" => Some(Job::Script),
        "walk" => Some(Job::Walk(Way::InOrder)),
        "numbers" => Some(Job::Walk(Way::ByNumbers)),
        "cursor" => Some(Job::Walk(Way::ByCursor)),
        "times" => Some(Job::Walk(Way::ByTimes)),
        _ => None,
    }
}

/// Does a job, as large as so many thousandths of it.
fn do_job(
    alloc: Global,
    job: Job,
    seed: u32,
    parts: u32,
    digest: &mut Digest,
) -> Result<(), Failure> {
    match job {
        Job::Seek => seek::seek(alloc, seed, parts, digest),
        Job::List => list::list(alloc, seed, parts, digest),
        Job::Scan => scan::scan(alloc, seed, parts, digest),
        Job::Live => live::live(alloc, seed, parts, digest),
        Job::Record => record::record(alloc, seed, parts, digest),
        Job::Script => script::script(alloc, seed, parts, digest),
        Job::Walk(way) => walk::walk(alloc, seed, parts, way, digest),
    }
}

/// The digest of samples that are gone over in this way.
fn walked(alloc: Global, seed: u32, parts: u32, way: Way) -> Result<u64, Failure> {
    let mut digest = Digest::new();
    walk::walk(alloc, seed, parts, way, &mut digest)?;
    Ok(digest.value())
}

/// Goes over samples in order, and by their numbers, looked up and asked of a cursor, and fails where they aren't the
/// same.
fn compare_ways(alloc: Global, seed: u32, parts: u32) -> Result<(), Failure> {
    let in_order = walked(alloc, seed, parts, Way::InOrder)?;
    for way in [Way::ByNumbers, Way::ByCursor] {
        if walked(alloc, seed, parts, way)? != in_order {
            return Err(Failure::Different);
        }
    }
    Ok(())
}

/// Does each of the jobs, as large as so many thousandths of it.
fn do_all(alloc: Global, seed: u32, parts: u32, digest: &mut Digest) -> Result<(), Failure> {
    let jobs = [
        Job::Seek,
        Job::List,
        Job::Scan,
        Job::Live,
        Job::Record,
        Job::Script,
    ];
    for job in jobs {
        do_job(alloc, job, seed, parts, digest)?;
    }
    compare_ways(alloc, seed, parts)
}

/// Does the job of this name, as large as so many thousandths of it, and answers whether there is such a job.
fn do_named(
    rt: &HostRuntime,
    name: &str,
    file: Option<&String>,
    seed: u32,
    parts: u32,
    digest: &mut Digest,
) -> Result<bool, Failure> {
    let alloc = rt.alloc();
    let done = match name {
        "all" => do_all(alloc, seed, parts, digest),
        "record_file" => match file {
            Some(file) => record_file(rt, alloc, file.as_str(), seed, parts, digest),
            None => return Ok(false),
        },
        _ => match job_of(name) {
            Some(job) => do_job(alloc, job, seed, parts, digest),
            None => return Ok(false),
        },
    };
    done?;
    Ok(true)
}

/// Does the job that the arguments say: its name, its seed, and how many thousandths of it are done. It prints the
/// digest, or writes the file. The answer is whether there is such a job.
fn run(rt: &HostRuntime, arguments: &[String]) -> Result<bool, Failure> {
    let Some(name) = arguments.first() else {
        return Ok(false);
    };
    let seed = number_in(arguments, 1, 1);
    let parts = number_in(arguments, 2, WHOLE);
    if let Some(file) = made(rt.alloc(), name.as_str(), seed, parts)? {
        rt.stdout().write_all(&file)?;
        return Ok(true);
    }
    let mut digest = Digest::new();
    let is_job = do_named(
        rt,
        name.as_str(),
        arguments.get(3),
        seed,
        parts,
        &mut digest,
    )?;
    if is_job {
        println!(rt; "{:016x}", digest.value())?;
    }
    Ok(is_job)
}

/// The same of the arguments of the program.
fn run_arguments(rt: &HostRuntime) -> Result<bool, Failure> {
    run(rt, arguments(rt)?.as_slice())
}

fn main(rt: HostRuntime) -> ExitCode {
    match run_arguments(&rt) {
        Ok(true) => ExitCode::SUCCESS,
        Ok(false) => {
            let _ = rt.stderr().write_all(USAGE);
            let _ = rt.stderr().write_all(JOBS);
            let _ = rt.stderr().write_all(FILES);
            ExitCode::FAILURE
        }
        Err(failure) => {
            let _ = eprintln!(rt; "mp4_bench: {failure}");
            ExitCode::FAILURE
        }
    }
}
