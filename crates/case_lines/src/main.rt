// Cases as text, worked out and compared with what is expected.
//
// Standard input has a case on a line, `WORDS -> EXPECTED`. Empty lines and lines that begin with `#`
// say nothing. Each answer that differs is printed with the number of its line, and in the end how
// many cases there are and how many of them are wrong. What the words are stands at the top of the
// file `stdin`.
#![tactic(auto)]

mod answers;
mod asking;
mod bytes;
mod cases;
mod digits;
mod failures;
mod steps;
mod timing;

use answers::{Answer, said};
use asking::Asked;
use bytes::bytes_of;
use cases::{Case, case_of};
use failures::Failure;
use model::{Model, Pack, read};
use std::alloc::Global;
use std::io;

// A record that was accepted, and its model.
#[derive(Drop)]
struct Kept {
    record: Vec<u8>,
    model: Model,
}

// The record that was kept last, which cases are about.
#[derive(Drop)]
struct Session {
    heap: Global,
    kept: Option<Kept>,
}

fn kept_of(heap: Global, text: &str) -> Result<Kept, Failure> {
    let record = bytes_of(heap, text)?;
    let model = read(record.as_slice())?;
    Ok(Kept { record, model })
}

// A refusal is an answer too.
fn refused(heap: Global, failure: Failure) -> Result<Answer, Failure> {
    let Failure::Refused(refusal) = failure else {
        return Err(failure);
    };
    let mut answer = Answer::new(heap);
    answer.refuse(refusal);
    Ok(answer)
}

impl Session {
    // The answer to a case about the record that was kept last.
    fn asked(&self, case: Case<'_>) -> Result<Answer, Failure> {
        let Some(kept) = &self.kept else {
            return Err(Failure::NoCase);
        };
        let pack = Pack {
            bytes: kept.record.as_slice(),
            model: &kept.model,
        };
        let asked = Asked {
            heap: self.heap,
            pack: &pack,
        };
        asked.answer_to(case)
    }

    fn answer_to(&mut self, case: Case<'_>) -> Result<Answer, Failure> {
        match case {
            Case::Record(bytes) => {
                self.kept = Some(kept_of(self.heap, bytes)?);
                Ok(said(self.heap, "accepted"))
            }
            Case::Read(bytes) => {
                kept_of(self.heap, bytes)?;
                Ok(said(self.heap, "accepted"))
            }
            _ => self.asked(case),
        }
    }

    // The answer to the case that a text writes.
    fn answer(&mut self, text: &str) -> Result<Answer, Failure> {
        let heap = self.heap;
        self.answer_to(case_of(text)?)
            .or_else(|failure| refused(heap, failure))
    }

    // Nothing where the answer to the case of a line is the expected one, and else the answer. No answer is
    // empty but for want of memory.
    fn wrong(&mut self, line: &str) -> Result<Option<Answer>, Failure> {
        let (text, expected) = line.split_once(" -> ").ok_or(Failure::NoCase)?;
        let answer = self.answer(text)?;
        if answer.is(expected) {
            return Ok(None);
        }
        if answer.is_empty() {
            return Err(Failure::NoMemory);
        }
        Ok(Some(answer))
    }
}

// Whether the case of a line, which has this number, is answered as expected. If not, the answer is
// printed.
fn is_right(
    rt: &HostRuntime,
    session: &mut Session,
    number: usize,
    line: &str,
) -> io::Result<bool> {
    match session.wrong(line) {
        Ok(None) => return Ok(true),
        Ok(Some(answer)) => println!(rt; "line {number}: got {answer}")?,
        Err(_) => println!(rt; "line {number}: unreadable")?,
    }
    Ok(false)
}

// How many cases there were, and how many of them were wrong.
#[derive(Clone, Copy)]
struct Tally {
    cases: usize,
    wrong: usize,
}

impl Tally {
    fn count(&mut self, is_right: bool) {
        self.cases = self.cases.saturating_add(1);
        if !is_right {
            self.wrong = self.wrong.saturating_add(1);
        }
    }
}

fn is_case(line: &str) -> bool {
    !line.is_empty() && !line.starts_with('#')
}

fn judge_all(rt: &HostRuntime, text: &str) -> io::Result<Tally> {
    let mut session = Session {
        heap: rt.alloc(),
        kept: None,
    };
    let mut tally = Tally { cases: 0, wrong: 0 };
    for (index, line) in text.lines().enumerate() {
        if is_case(line) {
            let number = index.saturating_add(1);
            tally.count(is_right(rt, &mut session, number, line)?);
        }
    }
    Ok(tally)
}

fn main(rt: HostRuntime) -> io::Result<()> {
    let text = io::read_to_string(rt.alloc(), rt.stdin())?;
    let tally = judge_all(&rt, text.as_str())?;
    println!(rt; "cases {} wrong {}", tally.cases, tally.wrong)
}
