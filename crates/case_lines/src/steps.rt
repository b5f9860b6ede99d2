// Steps of a run as text: `KIND VALUATION DELAY` for each, with `, ` between them.
//
// `0 0 1*2000` stands for 2,000 such steps.
use super::digits::number_of;
use super::failures::Failure;
use instruction::Fault;
use kinds::Step;
use model::Pack;
use runs::check_run;
use std::alloc::Global;

// A run: its start valuation, the parts of a unit, and its steps. Both programs have one, since the
// libraries use no heap and so own no steps.
#[derive(Drop)]
pub struct Run {
    pub start: u32,
    pub parts: u32,
    pub steps: Vec<Step>,
}

impl Run {
    // Whether it is a run of a record, and reaches a question.
    pub(super) fn reaches(&self, pack: &Pack<'_>, question: &[u8]) -> Result<bool, Fault> {
        check_run(
            pack,
            question,
            self.start,
            self.parts,
            self.steps.as_slice(),
        )
    }
}

// The numbers of a text that has just so many, with single blanks between them and any before them. A loop
// like it is in each crate that reads numbers: they differ in what words and numbers are and in what they say
// is wrong, and a shared one, with a contract of words and decimals, is no plainer.
fn numbers_of<const N: usize>(text: &[u8]) -> Result<[u32; N], Failure> {
    let mut numbers = [0; N];
    let mut words = text
        .split(|c| *c == b' ')
        .skip_while(|word| word.is_empty());
    for number in &mut numbers {
        *number = number_of(words.next().ok_or(Failure::NoCase)?)?;
    }
    match words.next() {
        Some(_) => Err(Failure::NoCase),
        None => Ok(numbers),
    }
}

// The tests of runs have one too, which ends the test where a number is none.
fn step_of(text: &[u8]) -> Result<Step, Failure> {
    let [kind, valuation, delay] = numbers_of::<3>(text)?;
    Ok(Step {
        kind: u8::try_from(kind).map_err(|_| Failure::NoCase)?,
        valuation,
        delay,
    })
}

// Adds a step, or as many as are told behind a star.
fn add_steps(steps: &mut Vec<Step>, text: &[u8]) -> Result<(), Failure> {
    match text.iter().position(|c| *c == b'*') {
        None => steps.push(step_of(text)?)?,
        Some(star) => {
            let step = step_of(&text[..star])?;
            let times = number_of(&text[star + 1..])? as usize;
            steps.resize(steps.len().saturating_add(times), step)?;
        }
    }
    Ok(())
}

// The run of a text. Behind its first comma there may be nothing. Steps are short, so their bytes are looked
// at one by one: a search in a text, for each comma, star and blank, takes twice as long.
pub(super) fn run_of(heap: Global, text: &str) -> Result<Run, Failure> {
    let (first, rest) = text.split_once(',').unwrap_or((text, ""));
    let [start, parts] = numbers_of::<2>(first.as_bytes())?;
    let mut steps = Vec::new(heap);
    if !rest.is_empty() {
        for text in rest.as_bytes().split(|c| *c == b',') {
            add_steps(&mut steps, text)?;
        }
    }
    Ok(Run {
        start,
        parts,
        steps,
    })
}
