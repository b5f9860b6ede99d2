// Runs and walks as text: a first line, and then a step to a line.
use super::failures::Failure;
use super::numbers::{Flaw, numbers_of};
use kinds::{MOST_STEPS, Step};
use std::alloc::Global;

// A form of lines, in words: the text that they are of, and what is expected of each.
#[derive(Clone, Copy, Debug)]
pub struct Form {
    pub text: &'static str,
    pub expected: &'static str,
}

// What lines of one form say.
trait Lines {
    type Said: Drop;

    fn form(&self) -> Form;

    fn said(&self, line: &str) -> Result<Self::Said, Flaw>;
}

// The first line of a run: its start valuation, and the parts of a unit.
#[derive(Clone, Copy)]
struct StartLine;

// A line of its steps.
#[derive(Clone, Copy)]
struct StepLine;

// A line of a walk: the number of a trial, of which the largest is known.
#[derive(Clone, Copy)]
struct TrialLine {
    most: u16,
}

impl Lines for StartLine {
    type Said = [u32; 2];

    fn form(&self) -> Form {
        Form {
            text: "run",
            expected: "a first line START D",
        }
    }

    fn said(&self, line: &str) -> Result<[u32; 2], Flaw> {
        numbers_of(line)
    }
}

impl Lines for StepLine {
    type Said = Step;

    fn form(&self) -> Form {
        Form {
            text: "run",
            expected: "a line KIND VALUATION DELAY",
        }
    }

    fn said(&self, line: &str) -> Result<Step, Flaw> {
        let [kind, valuation, delay] = numbers_of::<3>(line)?;
        let Ok(kind) = u8::try_from(kind) else {
            return Err(Flaw::Above("the kind", u8::MAX as u32));
        };
        Ok(Step {
            kind,
            valuation,
            delay,
        })
    }
}

impl Lines for TrialLine {
    type Said = u16;

    fn form(&self) -> Form {
        Form {
            text: "walk",
            expected: "a line with the number of a trial",
        }
    }

    fn said(&self, line: &str) -> Result<u16, Flaw> {
        let [number] = numbers_of::<1>(line)?;
        match u16::try_from(number) {
            Ok(trial) if trial <= self.most => Ok(trial),
            _ => Err(Flaw::Above("the trial", self.most as u32)),
        }
    }
}

// What the first line of a text says.
fn first_of<L: Lines>(text: &str, lines: &L) -> Result<L::Said, Failure> {
    let Some(line) = text.lines().next() else {
        return Err(Failure::NoLine(lines.form()));
    };
    lines
        .said(line)
        .map_err(|flaw| Failure::Line(1, flaw, lines.form()))
}

// What each line behind the first says.
fn rest_of<L: Lines>(heap: Global, text: &str, lines: &L) -> Result<Vec<L::Said>, Failure> {
    let mut all = Vec::new(heap);
    for (index, line) in text.lines().enumerate().skip(1) {
        let number = index.saturating_add(1);
        let said = lines
            .said(line)
            .map_err(|flaw| Failure::Line(number, flaw, lines.form()))?;
        all.push(said)?;
    }
    Ok(all)
}

// A run: its start valuation, the parts of a unit, and its steps. Both programs have one, since the
// libraries use no heap and so own no steps.
#[derive(Drop)]
pub struct Run {
    pub start: u32,
    pub parts: u32,
    pub steps: Vec<Step>,
}

// The run that a text writes. Empty lines at its end say nothing.
pub(super) fn run_of(heap: Global, text: &str) -> Result<Run, Failure> {
    let text = text.trim_ascii_end();
    let [start, parts] = first_of(text, &StartLine)?;
    let steps = rest_of(heap, text, &StepLine)?;
    Ok(Run {
        start,
        parts,
        steps,
    })
}

// How many trials there are, from 0 on: start trials, and step trials from each place.
#[derive(Clone, Copy)]
pub struct Trials {
    pub starts: u16,
    pub steps: u16,
}

// A walk: the number of its start trial, and those of its step trials.
#[derive(Drop)]
pub struct Walk {
    pub start: u16,
    pub trials: Vec<u16>,
}

// A line with the number of a trial, of so many.
fn trial_below(trials: u16) -> TrialLine {
    TrialLine {
        most: trials.saturating_sub(1),
    }
}

// The walk that a text writes. Empty lines at its end say nothing.
pub(super) fn walk_of(heap: Global, text: &str, trials: Trials) -> Result<Walk, Failure> {
    let text = text.trim_ascii_end();
    let start = first_of(text, &trial_below(trials.starts))?;
    let trials = rest_of(heap, text, &trial_below(trials.steps))?;
    if trials.len() > MOST_STEPS {
        return Err(Failure::TooManyLines);
    }
    Ok(Walk { start, trials })
}
