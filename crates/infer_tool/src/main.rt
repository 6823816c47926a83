//! Prints the type of each file that it is given, or of standard input.
#![tactic(auto)]

ghost use Rattle.std.specs.Prelude.{◌≡◌, None, codes, map, string_bytes};
ghost use Rattle.infer_tool.specs.Report.{ReportsInput};
ghost use Rattle.infer_tool.specs.Run.{Runs};

mod lines;
mod report;
mod run;
mod sample;
#[cfg(test)]
mod tests;

use infer::Watched;
use infer_lines::{HaltingWriter, Outcome};
use lines::run_lines;
use run::{USAGE, run};
use std::io::{IsTerminal, Write};
use std::process::ExitCode;
use std::rt::Env;
use std::{env, io};

/// What a pipe takes in one piece, so that blocks of several runs are not mixed.
const BLOCK: usize = 4096;

fn main(rt: HostRuntime) -> ExitCode {
    let outcome = match words_of(&rt) {
        Ok(words) => run_words(&rt, words.as_slice()),
        Err(_) => {
            let _ = rt.stderr().write_all(USAGE);
            Outcome::Failed
        }
    };
    ExitCode::from(outcome.status())
}

/// The words after the program's name.
fn words_of<R: Env + AllocGlobal>(rt: &R) -> io::Result<Vec<String>> {
    let mut words = Vec::new(rt.alloc());
    for word in env::args(rt)?.skip(1) {
        words.push(word)?;
    }
    Ok(words)
}

/// Runs over the system's streams, through buffers for lines, or without them if their memory is refused.
fn run_words(rt: &HostRuntime, words: &[String]) -> Outcome
    ensures refused { Runs (map string_bytes words.now) (λ n Lost. ReportsInput n None (codes "-"))
        (λ Said. Unit {0}) (λ refusal. result ≡ Outcome.Failed) }
{
    let block = if rt.stdout().is_terminal() { 0 } else { BLOCK };
    let input = &mut Watched::new(rt.stdin());
    match run_lines(
        rt,
        rt.alloc(),
        words,
        input,
        block,
        rt.stdout(),
        rt.stderr(),
    ) {
        Ok((outcome, _)) => outcome,
        Err(_) => run(
            rt,
            rt.alloc(),
            words,
            rt.stdin(),
            &mut HaltingWriter::new(rt.stdout()),
            &mut HaltingWriter::new(rt.stderr()),
        ),
    }
}
