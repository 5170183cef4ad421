//! The question what if.

ghost use Rattle.std.specs.Prelude.{◌≡◌, ◌<◌, length};
ghost use Rattle.theory.specs.Order.{Settled};
ghost use Rattle.theory.specs.Case.{what_if};
ghost use Rattle.desk.specs.Model.{events, model};
ghost use Rattle.rules.specs.Trials.{Found};
ghost use Rattle.caseroom.specs.Replied.{Replied, supposed_of};

use super::case::Case;
use super::names::names_both;
use desk::{Desk, Given, State};
use field::Refusal;
use rules::what_if;

/// What would follow on this desk. The trial is made on its own order and taken back; what was given stands apart, so that it can be read meanwhile.
fn on_trial(given: &Given, desk: &mut Desk, a: u8, b: u8) -> (u32, bool)
    requires settled { Settled (length (events given.now)) (model given.now desk.old).order }
    requires a_in_bounds { a < length (events given.now) }
    requires b_in_bounds { b < length (events given.now) }
    ensures kept { desk.new ≡ desk.old }
    ensures found { Found (events given.now) (model given.now desk.old).order a b result }
{
    what_if(
        &given.execution,
        &mut desk.order,
        usize::from(a),
        usize::from(b),
    )
}

impl Case {
    /// How many pairs would be added if a were before b, and whether some operation would then come before itself.
    /// The case is lent to be changed, since the trial needs its order; when the answer is given all is as it was.
    pub fn what_if(&mut self, a: u8, b: u8) -> Result<(u32, bool), Refusal>
        ensures replies { Replied self.old.given self.old.desk (what_if a b) (supposed_of result) self.new.desk }
        ensures kept { self.new ≡ self.old }
    {
        match self.desk.state {
            _ if !names_both(&self.given.execution, a, b) => Err(Refusal::NoSuchOperation),
            State::Serial | State::Impossible => Err(Refusal::CaseEnded),
            State::Open => Ok(on_trial(&self.given, &mut self.desk, a, b)),
        }
    }
}
