// What the answers of the test show.
use memory::refusal::Refusal;
use memory::run::{Answer, Call};
use std::fmt;
use std::iter::Zip;
use std::slice::Iter;

#[derive(Clone, Copy)]
pub struct Observed {
    // loads before the first tick that answered 0
    early_zeros: usize,
    ticks_refused: usize,
    // a tick was taken after one was refused
    taken_later: bool,
    // landings that were told and done
    told_landings: usize,
}

impl Observed {
    pub(crate) fn of(calls: &[Call], answers: &[Result<Answer, Refusal>]) -> Observed {
        let early_zeros = answered(calls, answers)
            .take_while(|(call, answer)| !taken(**call, **answer))
            .filter(|(call, answer)| zero_loaded(**call, **answer))
            .count();
        let ticks_refused = answered(calls, answers)
            .filter(|(call, answer)| refused(**call, **answer))
            .count();
        let taken_later = answered(calls, answers)
            .skip_while(|(call, answer)| !refused(**call, **answer))
            .any(|(call, answer)| taken(*call, *answer));
        let told_landings = answered(calls, answers)
            .filter(|(call, answer)| landed(**call, **answer))
            .count();
        Observed {
            early_zeros,
            ticks_refused,
            taken_later,
            told_landings,
        }
    }
}

// Each call with its answer.
pub(crate) fn answered<'a>(
    calls: &'a [Call],
    answers: &'a [Result<Answer, Refusal>],
) -> Zip<Iter<'a, Call>, Iter<'a, Result<Answer, Refusal>>> {
    calls.iter().zip(answers.iter())
}

fn taken(call: Call, answer: Result<Answer, Refusal>) -> bool {
    call == Call::Tick && answer.is_ok()
}

fn refused(call: Call, answer: Result<Answer, Refusal>) -> bool {
    call == Call::Tick && answer.is_err()
}

fn zero_loaded(call: Call, answer: Result<Answer, Refusal>) -> bool {
    matches!(call, Call::Load { .. }) && answer == Ok(Answer::Value(0))
}

fn landed(call: Call, answer: Result<Answer, Refusal>) -> bool {
    matches!(call, Call::Land { .. }) && answer.is_ok()
}

impl fmt::Display for Observed {
    fn fmt<W: fmt::Write>(&self, f: &mut fmt::Formatter<W>) -> fmt::Result {
        if self.early_zeros == 2 {
            write!(f, "both loads answered 0; ")?;
        } else {
            write!(f, "not both loads answered 0; ")?;
        }
        if self.ticks_refused == 0 && self.told_landings == 0 {
            write!(
                f,
                "no tick was refused, and the writes had landed before they were told to"
            )
        } else if self.taken_later && self.told_landings == 2 {
            write!(
                f,
                "the tick at the bound was refused until the writes landed, then it was taken"
            )
        } else {
            let refused = self.ticks_refused;
            let told = self.told_landings;
            write!(
                f,
                "{refused} ticks were refused, {told} writes landed when told to"
            )
        }
    }
}
