//! The programs that run scripts.
use crate::{Console, Failure, run};
use std::io::{self, BufWriter, Read};
use std::process::ExitCode;
use std::rt::{Env, Files};
use std::{env, fs};

/// The files named as arguments, one after the other, or else standard input.
fn script<R: Env + Files + Input + AllocGlobal>(rt: &R) -> Result<Vec<u8>, Failure> {
    let mut text = Vec::new(rt.alloc());
    let mut files = env::args(rt)?.skip(1);
    let Some(first) = files.next() else {
        rt.reader().read_to_end(&mut text)?;
        return Ok(text);
    };
    text.extend_from_slice(fs::read(rt, first)?.as_slice())?;
    for file in files {
        text.extend_from_slice(fs::read(rt, file)?.as_slice())?;
    }
    Ok(text)
}

/// Runs a script of its own console, and prints its account.
fn run_one<C: Console, R: Print + AllocGlobal>(rt: &R, text: &[u8]) -> Result<(), Failure> {
    let mut out = BufWriter::new(rt.alloc(), io::writer(rt))?;
    run::<C, _>(rt.alloc(), text, &mut out)
}

/// Runs one script of a file. An error of the script is printed behind its account.
fn rehearse_one<C: Console, R: Files + Print + AllocGlobal>(
    rt: &R,
    name: &str,
) -> Result<(), Failure> {
    println!(rt; "== {name}")?;
    let text = fs::read(rt, name)?;
    // Its want of memory is none of the script's errors: it ends the program.
    let mut out = BufWriter::new(rt.alloc(), io::writer(rt))?;
    if let Err(failure) = run::<C, _>(rt.alloc(), text.as_slice(), &mut out) {
        println!(rt; "{failure}")?;
    }
    Ok(())
}

/// What a program ends with: a failure is printed.
fn exit<R: Eprint + AllocGlobal>(rt: &R, done: Result<(), Failure>) -> ExitCode {
    let Err(failure) = done else {
        return ExitCode::SUCCESS;
    };
    let _ = eprintln!(rt; "{failure}");
    ExitCode::FAILURE
}

/// Runs the script that is given: in files named as arguments, or on standard input.
pub fn station<C: Console, R: Env + Files + Input + Print + Eprint + AllocGlobal>(
    rt: &R,
) -> ExitCode {
    let done = match script(rt) {
        Ok(text) => run_one::<C, R>(rt, text.as_slice()),
        Err(failure) => Err(failure),
    };
    exit(rt, done)
}

/// Runs the scripts of files, each from an empty console, one after the other.
pub fn rehearse<C: Console, R: Files + Print + Eprint + AllocGlobal>(
    rt: &R,
    scripts: &[&str],
) -> ExitCode {
    let done = scripts
        .iter()
        .try_for_each(|name| rehearse_one::<C, R>(rt, name));
    exit(rt, done)
}
