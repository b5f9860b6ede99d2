// The program: words in, one fact a line out.
//
// A command looks at a file with the bytes of a model record and answers on standard output.
// The work is done by the libraries; here are only the words, the files and the lines.
#![tactic(auto)]

mod commands;
mod failures;
mod lines;
mod numbers;
mod questions;
mod texts;
mod walks;

use commands::{Command, Kind, command_of};
use dense::Dense;
use failures::Failure;
use lines::print_pack;
use model::Pack;
use questions::question_of;
use runs::check_run;
use std::process::ExitCode;
use std::{env, fs};
use texts::run_of;
use ticked::Ticked;
use walks::Walker;

fn bytes_of(rt: &HostRuntime, pack: String) -> Result<Vec<u8>, Failure> {
    fs::read(rt, pack.as_str()).map_err(|error| Failure::Unreadable {
        path: pack,
        error,
        expected: "a file with a model record",
    })
}

fn file_of(rt: &HostRuntime, path: String, expected: &'static str) -> Result<String, Failure> {
    fs::read_to_string(rt, path.as_str()).map_err(|error| Failure::Unreadable {
        path,
        error,
        expected,
    })
}

fn read(rt: &HostRuntime, pack: String) -> Result<(), Failure> {
    let bytes = bytes_of(rt, pack)?;
    let bytes = bytes.as_slice();
    let model = model::read(bytes)?;
    let pack = Pack {
        bytes,
        model: &model,
    };
    print_pack(rt, &pack)?;
    Ok(())
}

// Whether a run that a text writes is one of a record, and reaches a question.
fn answer_run(rt: &HostRuntime, bytes: &[u8], question: &[u8], text: &str) -> Result<(), Failure> {
    let run = run_of(rt.alloc(), text)?;
    let model = model::read(bytes)?;
    let pack = Pack {
        bytes,
        model: &model,
    };
    let steps = run.steps.as_slice();
    let reached = check_run(&pack, question, run.start, run.parts, steps)?;
    rt.println(if reached { "yes" } else { "no" })?;
    Ok(())
}

fn run(rt: &HostRuntime, pack: String, question: &str, steps: String) -> Result<(), Failure> {
    let question = question_of(rt.alloc(), question)?;
    let bytes = bytes_of(rt, pack)?;
    let text = file_of(rt, steps, "a text file with a run")?;
    answer_run(rt, bytes.as_slice(), question.as_slice(), text.as_str())
}

// A walk that a text writes, in a record.
fn answer_walk(rt: &HostRuntime, bytes: &[u8], text: &str, kind: Kind) -> Result<(), Failure> {
    let model = model::read(bytes)?;
    let clocks = model.sizes.clocks;
    let pack = Pack {
        bytes,
        model: &model,
    };
    // each arm has a kind of its own type; a `dyn` would need one type of place
    match kind {
        Kind::Dense => {
            let kind = &Dense::of(&pack);
            Walker { rt, kind, clocks }.walk(text)
        }
        Kind::Ticked => {
            let kind = &Ticked::of(&pack);
            Walker { rt, kind, clocks }.walk(text)
        }
    }
}

fn walk_by_hand(rt: &HostRuntime, pack: String, trials: String, kind: Kind) -> Result<(), Failure> {
    let bytes = bytes_of(rt, pack)?;
    let text = file_of(rt, trials, "a text file with a trial a line")?;
    answer_walk(rt, bytes.as_slice(), text.as_str(), kind)
}

fn carry_out(rt: &HostRuntime) -> Result<(), Failure> {
    match command_of(env::args(rt).map_err(Failure::Words)?)? {
        Command::Read { pack } => read(rt, pack),
        Command::Run {
            pack,
            question,
            steps,
        } => run(rt, pack, question.as_str(), steps),
        Command::Walk { pack, trials, kind } => walk_by_hand(rt, pack, trials, kind),
    }
}

fn main(rt: HostRuntime) -> ExitCode {
    match carry_out(&rt) {
        Ok(()) => ExitCode::SUCCESS,
        Err(failure) => {
            failure.tell(&rt);
            ExitCode::FAILURE
        }
    }
}
