//! A whole session: a case is opened and hears its calls, one after the other.

ghost use Rattle.std.specs.Prelude.{◌≡◌, ◌<◌, map, length, take, drop, MatchResult};
ghost use Rattle.execution.specs.Calls.{ops};
ghost use Rattle.theory.specs.Promises.{Session};
ghost use Rattle.desk.specs.Model.{at_first, model};
ghost use Rattle.caseroom.specs.Replied.{HeardBy};
ghost use Rattle.caseroom.specs.Heard.{heard, said};

use super::calls::{Answer, Call, Reply};
use super::case::Case;
use execution::Execution;
use field::Refusal;
use rulebook::RuleBook;

impl Case {
    /// Hears one call, of whatever kind.
    #[tactic(auto, using(theory::specs::Case::single))]
    fn hear_one(&mut self, call: Call) -> Answer
        ensures heard { HeardBy self.old.given self.old.desk (heard call.entry) (said result) self.new.desk }
        ensures same { self.new.given ≡ self.old.given }
    {
        match call {
            Call::Claim(claim) => self.claim(claim).map(|()| Reply::Admitted),
            Call::Order(order) => self.order(order).map(|()| Reply::Admitted),
            Call::House(budget) => self
                .house(budget)
                .map(|(turns, state)| Reply::Made(turns, state)),
            Call::WhatIf { a, b } => self
                .what_if(a, b)
                .map(|(added, cycle)| Reply::Supposed { added, cycle }),
            Call::Least { a, b } => self.least(a, b).map(Reply::Says),
        }
    }
}

/// A session that was not begun, for want of room; the execution is handed back.
#[derive(Drop)]
pub struct Unheard {
    pub refusal: Refusal,
    pub execution: Execution,
}

/// Opens a case and hears the calls in turn. Each answer stands where its call stood, and what lies past the calls is left as it was;
/// where there is no room for all answers, nothing is begun.
pub fn hear<B: RuleBook>(
    execution: Execution,
    book: &B,
    calls: &[Call],
    answers: &mut [Answer],
) -> Result<Case, Unheard>
    ensures session { MatchResult result (λ c. Session (B.RuleBook.keeps book.now) (ops execution) (at_first c.given) (map heard calls.now) (map said (take (length calls.now) answers.new)) (model c.given c.desk)) (λ u. (u.refusal ≡ Refusal.MemoryTooShort) × (u.execution ≡ execution) × (length answers.old < length calls.now)) }
    ensures rest { MatchResult result (λ _. drop (length calls.now) answers.new ≡ drop (length calls.now) answers.old) (λ _. answers.new ≡ answers.old) }
{
    if answers.len() < calls.len() {
        return Err(Unheard {
            refusal: Refusal::MemoryTooShort,
            execution,
        });
    }
    let mut case = Case::open(execution, book);
    // answers by index: what holds at each step is a fact about the first i calls and the first i answers
    for (i, call) in calls.iter().enumerate() {
        answers[i] = case.hear_one(*call);
    }
    Ok(case)
}
