// What cases ask of a record, and the answers.
use super::answers::{Answer, said, said_all, yes_or_no};
use super::bytes::bytes_of;
use super::cases::{Case, Kind, Tale, headed};
use super::failures::Failure;
use super::steps::run_of;
use super::timing::Timed;
use ceilings::ceilings;
use dense::Dense;
use model::{Pack, Part, Role, read_question};
use std::alloc::Global;
use ticked::Ticked;
use valuations::{number, valuations, values};

// A record that was accepted.
#[derive(Clone, Copy)]
pub(super) struct Asked<'a> {
    pub heap: Global,
    pub pack: &'a Pack<'a>,
}

fn reset_of(text: &str) -> Result<Role, Failure> {
    match headed(text) {
        ("reset", clock) => Ok(Role::Reset(clock.parse::<u8>()?)),
        _ => Err(Failure::NoCase),
    }
}

fn role_of(text: &str) -> Result<Role, Failure> {
    match text {
        "start" => Ok(Role::Start),
        "invariant" => Ok(Role::Invariant),
        "transition" => Ok(Role::Transition),
        "urgent" => Ok(Role::Urgent),
        _ => reset_of(text),
    }
}

impl<'a> Asked<'a> {
    // Whether bytes are a question.
    fn ask(&self, question: &str) -> Result<Answer, Failure> {
        let question = bytes_of(self.heap, question)?;
        read_question(question.as_slice(), &self.pack.model.sizes)?;
        Ok(said(self.heap, "accepted"))
    }

    // Whether steps are a run that reaches a question.
    fn run(&self, question: &str, run: &str) -> Result<Answer, Failure> {
        let question = bytes_of(self.heap, question)?;
        let run = run_of(self.heap, run)?;
        let reached = run.reaches(self.pack, question.as_slice())?;
        Ok(said(self.heap, yes_or_no(reached)))
    }

    fn formula(&self, role: &str) -> Result<Option<Part<'a>>, Failure> {
        Ok(self.pack.formula(role_of(role)?))
    }

    // Where a formula lies: the position of its first byte, and its length.
    fn part(&self, role: &str) -> Result<Answer, Failure> {
        let Some(part) = self.formula(role)? else {
            return Ok(said(self.heap, "none"));
        };
        let mut answer = said(self.heap, part.at);
        answer.say(part.code.len());
        Ok(answer)
    }

    // Whether a formula has the bytes.
    fn code(&self, code: &str, role: &str) -> Result<Answer, Failure> {
        let code = bytes_of(self.heap, code)?;
        match self.formula(role)? {
            Some(part) => Ok(said(self.heap, yes_or_no(part.code == code.as_slice()))),
            None => Ok(said(self.heap, "none")),
        }
    }

    // The number of values of each variable.
    fn variables(&self) -> Result<Answer, Failure> {
        match self.pack.model.sizes.counts() {
            [] => Ok(said(self.heap, "none")),
            counts => Ok(said_all(self.heap, counts)),
        }
    }

    // The values of a valuation.
    fn values(&self, valuation: &str) -> Result<Answer, Failure> {
        let values = values(&self.pack.model.sizes, valuation.parse::<u16>()?);
        Ok(said_all(self.heap, &values))
    }

    // The valuation of eight values.
    fn number(&self, values: &str) -> Result<Answer, Failure> {
        let values = bytes_of(self.heap, values)?;
        let values = <[u8; 8]>::try_from(values.as_slice()).map_err(|_| Failure::NoCase)?;
        match number(&self.pack.model.sizes, values) {
            Some(valuation) => Ok(said(self.heap, valuation)),
            None => Ok(said(self.heap, "none")),
        }
    }

    fn in_time<'b, K>(&'b self, kind: &'b K) -> Timed<'b, K> {
        Timed {
            heap: self.heap,
            pack: self.pack,
            kind,
        }
    }

    // What is told of trials in a kind of time.
    fn timed(&self, kind: Kind, tale: Tale, trials: &str) -> Result<Answer, Failure> {
        // each arm has a kind of its own type; a `dyn` would need one type of place
        match kind {
            Kind::Dense => {
                let kind = Dense::of(self.pack);
                self.in_time(&kind).told(tale, trials)
            }
            Kind::Ticked => {
                let kind = Ticked::of(self.pack);
                self.in_time(&kind).told(tale, trials)
            }
        }
    }

    // The answer to a case about the record.
    pub(super) fn answer_to(&self, case: Case<'_>) -> Result<Answer, Failure> {
        match case {
            Case::Ask(question) => self.ask(question),
            Case::Run { question, run } => self.run(question, run),
            Case::Code { code, role } => self.code(code, role),
            Case::Number(values) => self.number(values),
            Case::Part(role) => self.part(role),
            Case::Values(valuation) => self.values(valuation),
            Case::Variables => self.variables(),
            Case::Clocks => Ok(said(self.heap, self.pack.model.sizes.clocks)),
            Case::Ceilings => Ok(said_all(self.heap, &ceilings(self.pack))),
            Case::Valuations => Ok(said(self.heap, valuations(&self.pack.model.sizes))),
            Case::Timed(kind, tale, trials) => self.timed(kind, tale, trials),
            Case::Record(_) | Case::Read(_) => Err(Failure::NoCase),
        }
    }
}
