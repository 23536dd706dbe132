// The program: reads its arguments, and does what they ask.
#![tactic(auto)]

mod change;
mod dump;
mod failure;
mod files;
mod find;
mod note;
mod opening;
mod recompact;
mod shown;

use failure::{Failure, USAGE};
use files::LogFile;
use std::process::ExitCode;
use std::{env, fs, io};

fn arguments(rt: &HostRuntime) -> io::Result<Vec<String>> {
    let mut words = Vec::new(rt.alloc());
    for word in env::args(rt)?.skip(1) {
        words.push(word)?;
    }
    Ok(words)
}

// Does what a word asks of a log.
fn ask<'a>(file: LogFile<'a>, word: &str, rest: &'a [String]) -> Result<(), Failure<'a>> {
    match (word, rest) {
        ("dump", []) => file.dump(),
        ("recompact", []) => file.recompact(),
        ("find", [output]) => file.find(output.as_str()),
        ("note", [output, mtime, inputs @ ..]) => file.note(
            output.as_str(),
            mtime.as_str(),
            inputs,
        ),
        _ => Err(Failure::Usage),
    }
}

fn run<'a>(rt: &'a HostRuntime, words: &'a [String]) -> Result<(), Failure<'a>> {
    match words {
        [] => Ok(println!(rt; "{USAGE}")?),
        [_] => Err(Failure::Usage),
        [word, path, rest @ ..] => {
            let path = path.as_str();
            ask(LogFile { rt, path }, word.as_str(), rest)
        }
    }
}

fn tell(rt: &HostRuntime, failure: &Failure) -> io::Result<()> {
    match failure {
        Failure::Usage => eprintln!(rt; "{failure}"),
        failure => eprintln!(rt; "hefnwyrad: {failure}"),
    }
}

// Says on standard error why what was asked could not be done, or else, once, why that could not be said. A temporary file goes
// when it is said what became of it.
fn complain(rt: &HostRuntime, failure: &Failure) -> ExitCode {
    match (tell(rt, failure), failure) {
        (Ok(()), Failure::Unwritable(_, _, draft)) => {
            let _ = fs::remove_file(rt, draft.as_str());
        }
        (Ok(()), _) | (Err(_), Failure::Io(_)) => {}
        (Err(e), _) => {
            let _ = tell(rt, &Failure::Io(e));
        }
    }
    ExitCode::FAILURE
}

fn main(rt: HostRuntime) -> ExitCode {
    let words = match arguments(&rt) {
        Ok(words) => words,
        Err(e) => return complain(&rt, &Failure::Io(e)),
    };
    match run(&rt, &words) {
        Ok(()) => ExitCode::SUCCESS,
        Err(failure) => complain(&rt, &failure),
    }
}
