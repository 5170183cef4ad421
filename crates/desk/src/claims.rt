//! What a claim does to a case.

ghost use Rattle.rules.specs.Claims.{call_of};
ghost use Rattle.desk.specs.Model.{events, model};
ghost use Rattle.desk.specs.Judged.{Fit, Judged};

use super::desk::Desk;
use super::given::Given;
use super::questions::{names, premise, stands};
use super::state::State;
use field::Refusal;
use rules::Claim;

impl Desk {
    /// Takes a claim or turns it away. Of all reasons to turn it away the one with the smallest number is told, and a refused claim leaves all as it was.
    pub fn claim(&mut self, given: &Given, claim: Claim) -> Result<(), Refusal>
        requires { Fit (events given.now) (model given.now self.old) }
        ensures { Judged given.now (call_of claim) self.old result self.new }
    {
        match (self.state, claim) {
            _ if !names(given, claim) => Err(Refusal::NoSuchOperation),
            (State::Serial | State::Impossible, _) => Err(Refusal::CaseEnded),
            _ if !premise(given, &self.order, claim) => Err(Refusal::PremiseFails),
            _ if stands(given, &self.order, claim) => Err(Refusal::PairRecorded),
            // Three arms, and not one with `Claim::pair`: beside a state, an arm for several claims has no fact that tells which of them it took.
            (State::Open, Claim::A { load, store }) => {
                given.record(&mut self.order, store, given.source(load));
                Ok(())
            }
            (State::Open, Claim::B { load, store }) => {
                given.record(&mut self.order, load, store);
                Ok(())
            }
            (State::Open, Claim::C { a, b, .. }) => {
                given.record(&mut self.order, a, b);
                Ok(())
            }
            (State::Open, Claim::Split { s, t }) => {
                self.choose(given, s, t);
                Ok(())
            }
            (State::Open, Claim::Close) if !given.cyclic(&self.order) => Err(Refusal::NoCycle),
            (State::Open, Claim::Close) => {
                self.undo(given);
                Ok(())
            }
        }
    }
}
