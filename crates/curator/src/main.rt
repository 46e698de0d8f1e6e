//! The program `curator`, which hands the host's command line, files and streams to `run_curator`.
#![tactic(auto)]

use kd_curator::{Language, Stop, end_program, language_of, run_curator};
use kd_host::{FileFault, HostFiles, WriterSink};
use kd_new_file::HostNewFiles;
use kd_tables::Sink;
use std::env::{self, VarError};
use std::process::ExitCode;

fn main(rt: HostRuntime) -> ExitCode {
    let mut errors = WriterSink::new(rt.stderr());
    let status = match language(&rt) {
        Ok(language) => run_in(&rt, language, &mut errors),
        Err(stop) => end_program(Language::English, &Err(stop), &[], &mut errors),
    };
    ExitCode::from(status)
}

/// Runs the program on a computer with the language `language`, and returns the exit status.
fn run_in<E: Sink>(rt: &HostRuntime, language: Language, errors: &mut E) -> u8 {
    match words(rt, language) {
        Ok(words) => run_on_host(rt, language, words.as_slice(), errors),
        Err(stop) => end_program(language, &Err(stop), &[], errors),
    }
}

/// Runs the program on the host's files, folders and standard output, and returns the exit status.
///
/// `run_curator` is called here, and not in `main`. In `main`, the call's type would have an inferred lifetime, which
/// the prover can't handle.
fn run_on_host<E: Sink>(
    rt: &HostRuntime,
    language: Language,
    words: &[String],
    errors: &mut E,
) -> u8 {
    let mut files = HostFiles::new(rt);
    let mut new_files = HostNewFiles { rt };
    let output = WriterSink::new(rt.stdout());
    let (status, _) = run_curator(
        rt.alloc(),
        language,
        words,
        &mut files,
        &mut new_files,
        output,
        errors,
    );
    status
}

/// The computer's language, from the environment variable `LANG`. It is English if `LANG` is missing, or isn't UTF-8.
fn language(rt: &HostRuntime) -> Result<Language, Stop> {
    match env::var(rt, "LANG") {
        Ok(locale) => Ok(language_of(locale.as_str())),
        Err(VarError::OutOfMemory) => Err(Stop::from(FileFault::NoMemory)),
        Err(_) => Ok(Language::English),
    }
}

/// The command line: the program's own name, then the arguments. If it can't be read, the reason is in `language`.
fn words(rt: &HostRuntime, language: Language) -> Result<Vec<String>, Stop> {
    let args = match env::args(rt) {
        Ok(args) => args,
        Err(error) => return Err(Stop::of_words(rt.alloc(), language, &error)),
    };
    match args.collect(rt.alloc()) {
        Ok(words) => Ok(words),
        Err(_) => Err(Stop::from(FileFault::NoMemory)),
    }
}
