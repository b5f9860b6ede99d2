// What the words on the command line ask for.
use super::failures::Failure;
use std::env::Args;

// The kinds of time. Both programs have these two names: a crate for them alone would be no plainer.
#[derive(Clone, Copy)]
pub enum Kind {
    Dense,
    Ticked,
}

#[derive(Drop)]
pub enum Command {
    // what a record holds
    Read {
        pack: String,
    },
    // whether a run of it reaches a question
    Run {
        pack: String,
        question: String,
        steps: String,
    },
    // a walk by hand through the places of a kind of time
    Walk {
        pack: String,
        trials: String,
        kind: Kind,
    },
}

fn next_word(words: &mut Args) -> Result<String, Failure> {
    words.next().ok_or(Failure::TooFewWords)
}

fn no_more(mut words: Args) -> Result<(), Failure> {
    match words.next() {
        Some(_) => Err(Failure::TooManyWords),
        None => Ok(()),
    }
}

// Dense time where no word says which.
fn kind_of(word: Option<String>) -> Result<Kind, Failure> {
    let Some(word) = word else {
        return Ok(Kind::Dense);
    };
    match word.as_str() {
        "dense" => Ok(Kind::Dense),
        "ticked" => Ok(Kind::Ticked),
        _ => Err(Failure::UnknownTime(word)),
    }
}

fn read_of(mut words: Args) -> Result<Command, Failure> {
    let pack = next_word(&mut words)?;
    no_more(words)?;
    Ok(Command::Read { pack })
}

fn run_of(mut words: Args) -> Result<Command, Failure> {
    let pack = next_word(&mut words)?;
    let question = next_word(&mut words)?;
    let steps = next_word(&mut words)?;
    no_more(words)?;
    Ok(Command::Run {
        pack,
        question,
        steps,
    })
}

fn walk_of(mut words: Args) -> Result<Command, Failure> {
    let pack = next_word(&mut words)?;
    let trials = next_word(&mut words)?;
    let kind = kind_of(words.next())?;
    no_more(words)?;
    Ok(Command::Walk { pack, trials, kind })
}

// The command of a program's words, of which the first is the program's own name.
pub(super) fn command_of(mut words: Args) -> Result<Command, Failure> {
    let _program = words.next();
    let Some(name) = words.next() else {
        return Err(Failure::NoCommand);
    };
    match name.as_str() {
        "read" => read_of(words),
        "run" => run_of(words),
        "walk" => walk_of(words),
        _ => Err(Failure::UnknownCommand(name)),
    }
}
