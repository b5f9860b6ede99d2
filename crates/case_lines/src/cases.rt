// What a case is about, by the word that it begins with.
use super::failures::Failure;

// The kinds of time. Both programs have these two names: a crate for them alone would be no plainer.
#[derive(Clone, Copy)]
pub enum Kind {
    Dense,
    Ticked,
}

// What is told of trials in a kind of time.
#[derive(Clone, Copy)]
pub enum Tale {
    // the places that they give
    Places,
    // of a chain, the denominator and the delays, and whether they make a run
    Delays,
    // the same with the denominator alone
    Denominator,
}

// A case, with its words as they are written.
#[derive(Clone, Copy)]
pub enum Case<'a> {
    Record(&'a str),
    Read(&'a str),
    Ask(&'a str),
    Run { question: &'a str, run: &'a str },
    Code { code: &'a str, role: &'a str },
    Number(&'a str),
    Part(&'a str),
    Values(&'a str),
    Variables,
    Clocks,
    Ceilings,
    Valuations,
    Timed(Kind, Tale, &'a str),
}

// The first word, and the others.
pub(super) fn headed(text: &str) -> (&str, &str) {
    text.split_once(' ').unwrap_or((text, ""))
}

// Cases of one word.
fn fact_of(name: &str) -> Result<Case<'_>, Failure> {
    match name {
        "variables" => Ok(Case::Variables),
        "clocks" => Ok(Case::Clocks),
        "ceilings" => Ok(Case::Ceilings),
        "valuations" => Ok(Case::Valuations),
        _ => Err(Failure::NoCase),
    }
}

// Cases of trials.
fn timed_of<'a>(name: &str, trials: &'a str) -> Result<Case<'a>, Failure> {
    match name {
        "dense" => Ok(Case::Timed(Kind::Dense, Tale::Places, trials)),
        "ticked" => Ok(Case::Timed(Kind::Ticked, Tale::Places, trials)),
        "delays" => Ok(Case::Timed(Kind::Dense, Tale::Delays, trials)),
        "timing" => Ok(Case::Timed(Kind::Dense, Tale::Denominator, trials)),
        "units" => Ok(Case::Timed(Kind::Ticked, Tale::Delays, trials)),
        _ => Err(Failure::NoCase),
    }
}

fn plain_of<'a>(name: &'a str, words: &'a str) -> Result<Case<'a>, Failure> {
    match name {
        "record" => Ok(Case::Record(words)),
        "read" => Ok(Case::Read(words)),
        "ask" => Ok(Case::Ask(words)),
        "number" => Ok(Case::Number(words)),
        "part" => Ok(Case::Part(words)),
        "values" => Ok(Case::Values(words)),
        _ if words.is_empty() => fact_of(name),
        _ => timed_of(name, words),
    }
}

// Cases with what stands behind a slash. For most kinds that is nothing.
fn halved_of<'a>(name: &'a str, words: &'a str, behind: &'a str) -> Result<Case<'a>, Failure> {
    match name {
        "run" => Ok(Case::Run {
            question: words,
            run: behind,
        }),
        "code" => Ok(Case::Code {
            code: words,
            role: behind,
        }),
        _ if behind.is_empty() => plain_of(name, words),
        _ => Err(Failure::NoCase),
    }
}

// The case that a text writes. Where it has no slash, nothing is behind it.
pub(super) fn case_of(text: &str) -> Result<Case<'_>, Failure> {
    let (front, behind) = text.split_once(" / ").unwrap_or((text, ""));
    let (name, words) = headed(front);
    halved_of(name, words, behind)
}
