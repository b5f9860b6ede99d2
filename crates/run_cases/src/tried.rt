// Runs as rows of numbers, and what the check says of them.
use instruction::Refusal;
use model::{Pack, read};
use runs::{Step, check_run};
use std::process::Abort;
use std::test::Fail;

// A question, a run, and whether it reaches the question; or the number, section and position of a
// refusal. The run is written as START D and then KIND VALUATION DELAY for each step, with a comma
// before it.
pub type Row = (&'static [u8], &'static str, Result<bool, (u8, u8, usize)>);

fn refusal((number, section, position): (u8, u8, usize)) -> Refusal {
    Refusal {
        number,
        section,
        position,
    }
}

// What is said of a run in a record.
pub(super) fn answer(
    record: &[u8],
    question: &[u8],
    start: u32,
    parts: u32,
    steps: &[Step],
) -> Result<bool, Refusal> {
    let model = read(record)?;
    let pack = Pack {
        bytes: record,
        model: &model,
    };
    Ok(check_run(&pack, question, start, parts, steps)?)
}

// The numbers between two commas. This loop is in each crate that reads numbers: they differ in what
// they say is wrong, and a shared one, with a contract of words and decimals, is no plainer.
fn numbers_of<const N: usize>(rt: &impl Abort, part: &str) -> Result<[u32; N], Fail> {
    let mut numbers = [0; N];
    let words = part.split_ascii_whitespace();
    for (number, word) in numbers.iter_mut().zip(words) {
        *number = word.parse::<u32>()?;
    }
    let count = part.split_ascii_whitespace().count();
    assert_eq!(rt; count, N, "numbers in {part:?}");
    Ok(numbers)
}

// The program of cases has one too, which says that the case cannot be read.
fn step_of(rt: &impl Abort, part: &str) -> Result<Step, Fail> {
    let [kind, valuation, delay] = numbers_of::<3>(rt, part)?;
    Ok(Step {
        kind: u8::try_from(kind)?,
        valuation,
        delay,
    })
}

// What is said of a run that is written as in a row.
fn answer_to(
    rt: &(impl Abort + AllocGlobal),
    record: &[u8],
    question: &[u8],
    run: &str,
) -> Result<Result<bool, Refusal>, Fail> {
    let mut parts = run.split(',');
    let [start, unit] = numbers_of::<2>(rt, parts.next().unwrap_or(""))?;
    let mut steps = Vec::new(rt.alloc());
    for part in parts {
        steps.push(step_of(rt, part)?)?;
    }
    Ok(answer(record, question, start, unit, steps.as_slice()))
}

// Every row is answered so in the record.
pub(super) fn check_runs(
    rt: &(impl Abort + AllocGlobal),
    record: &[u8],
    rows: &[Row],
) -> Result<(), Fail> {
    for &(question, run, expected) in rows {
        let said = answer_to(rt, record, question, run)?;
        assert_eq!(rt;
            said,
            expected.map_err(refusal),
            "question {question:?} run {run}"
        );
    }
    Ok(())
}
