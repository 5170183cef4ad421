//! A whole case, told call by call: claims right and wrong, a split, a close, the house, the verdict and its order.

use caseroom::Case;
use execution::Execution;
use field::Refusal;
use rulebook::{RuleBook, Sc, Weak};
use rules::Claim;

/// Two readers that disagree: stores 0 and 1 to one address; thread 3 saw 0 and then 1, thread 4 saw 1 and then 0.
const DISAGREE: [u8; 58] = [
    0x10, 0, 1, 1, // edition 1
    0x11, 0, 6, 1, 2, 0, 1, 0xFF, 0xFF, // 0: thread 1 stores to 1
    0x11, 0, 6, 2, 2, 0, 1, 0xFF, 0xFF, // 1: thread 2 stores to 1
    0x11, 0, 6, 3, 1, 0, 1, 0, 0xFF, // 2: thread 3 loads 1, and saw 0
    0x11, 0, 6, 3, 1, 0, 1, 1, 0xFF, // 3: thread 3 loads 1, and saw 1
    0x11, 0, 6, 4, 1, 0, 1, 1, 0xFF, // 4: thread 4 loads 1, and saw 1
    0x11, 0, 6, 4, 1, 0, 1, 0, 0xFF, // 5: thread 4 loads 1, and saw 0
];

/// No rule asks for anything here and there is no cycle, and yet no memory can have done it: the smallest such record that we know of.
const NO_VERDICT: [u8; 112] = [
    0x10, 0, 1, 1, // edition 1
    0x11, 0, 6, 1, 2, 0, 1, 0xFF, 0xFF, // 0: thread 1 stores to 1
    0x11, 0, 6, 1, 1, 0, 2, 6, 0xFF, // 1: loads 2, and saw 6
    0x11, 0, 6, 1, 1, 0, 1, 0, 0xFF, // 2: loads 1, and saw 0
    0x11, 0, 6, 2, 2, 0, 1, 0xFF, 0xFF, // 3: thread 2 stores to 1
    0x11, 0, 6, 2, 1, 0, 2, 9, 0xFF, // 4: loads 2, and saw 9
    0x11, 0, 6, 2, 1, 0, 1, 3, 0xFF, // 5: loads 1, and saw 3
    0x11, 0, 6, 3, 2, 0, 2, 0xFF, 0xFF, // 6: thread 3 stores to 2
    0x11, 0, 6, 3, 1, 0, 1, 3, 0xFF, // 7: loads 1, and saw 3
    0x11, 0, 6, 3, 1, 0, 2, 6, 0xFF, // 8: loads 2, and saw 6
    0x11, 0, 6, 4, 2, 0, 2, 0xFF, 0xFF, // 9: thread 4 stores to 2
    0x11, 0, 6, 4, 1, 0, 1, 0, 0xFF, // 10: loads 1, and saw 0
    0x11, 0, 6, 4, 1, 0, 2, 9, 0xFF, // 11: loads 2, and saw 9
];

/// A case, and where its calls are told.
#[derive(Drop)]
struct Teller<'a> {
    rt: &'a HostRuntime,
    case: Case,
}

impl<'a> Teller<'a> {
    /// Opens a case on a record, under a book.
    fn open<B: RuleBook>(
        rt: &'a HostRuntime,
        what: &str,
        bytes: &[u8],
        book: &B,
    ) -> anyhow::Result<Teller<'a>> {
        let mut execution = Execution::new();
        execution.read(bytes)?;
        let case = Case::open(execution, book);
        println!(rt;
            "A case on {what}: m = {}, s = {}.",
            case.missing(),
            case.undecided()
        )?;
        Ok(Teller { rt, case })
    }

    /// Says what became of a claim or an order, and what the case says then.
    fn tell(&self, what: &str, outcome: Result<(), Refusal>) -> anyhow::Result<()> {
        let state = self.case.state();
        match outcome {
            Ok(()) => println!(self.rt; "  {what}: admitted; the case is {state}")?,
            Err(refusal) => println!(self.rt;
                "  {what}: refused {}, {refusal}; the case is {state}",
                refusal.number()
            )?,
        }
        Ok(())
    }

    /// Makes the claims in turn.
    fn claims(&mut self, claims: &[(&str, Claim)]) -> anyhow::Result<()> {
        for (what, claim) in claims {
            let outcome = self.case.claim(*claim);
            self.tell(what, outcome)?;
        }
        Ok(())
    }

    /// Proposes an order.
    fn propose(&mut self, what: &str, order: &[u8]) -> anyhow::Result<()> {
        let outcome = self.case.order(order);
        self.tell(what, outcome)
    }

    /// Lets the house take up to twenty turns.
    fn house(&mut self) -> anyhow::Result<()> {
        match self.case.house(20) {
            Ok((turns, state)) => {
                println!(self.rt; "  the house takes {turns} turns; the case is {state}")?
            }
            Err(refusal) => println!(self.rt; "  the house is refused {}", refusal.number())?,
        }
        Ok(())
    }

    /// What would follow if a were before b.
    fn what_if(&mut self, a: u8, b: u8) -> anyhow::Result<()> {
        match self.case.what_if(a, b) {
            Ok((added, cycle)) => {
                let cycle = if cycle { "a cycle" } else { "no cycle" };
                println!(self.rt; "  {a} before {b} would add {added} pairs, and {cycle}")?
            }
            Err(refusal) => println!(self.rt; "  the question is refused {}", refusal.number())?,
        }
        Ok(())
    }

    /// Writes out the order of a serial case.
    fn write_order(&self) -> anyhow::Result<()> {
        let mut out = [0u8; 32];
        match self.case.write_order(&mut out) {
            Ok(count) => println!(self.rt; "  its order: {:?}", &out[..count])?,
            Err(refusal) => println!(self.rt; "  it has no order to write: {}", refusal.number())?,
        }
        Ok(())
    }

    /// Closes the case off.
    fn close_off(self) -> anyhow::Result<()> {
        let Teller { rt, case } = self;
        let (state, count) = case.close_off();
        println!(rt; "  closed off: {state}, {count} operations")?;
        Ok(())
    }
}

/// The message under WEAK: the house finds an order.
fn message(rt: &HostRuntime, bytes: &[u8]) -> anyhow::Result<()> {
    let mut teller = Teller::open(rt, "the message under WEAK", bytes, &Weak)?;
    let a = Claim::A { load: 5, store: 1 };
    let b = Claim::B { load: 5, store: 1 };
    teller.claims(&[
        ("claim a of load 5 and store 1", a),
        ("claim b of load 5 and store 1", b),
        ("the same claim again", b),
    ])?;
    teller.what_if(4, 5)?;
    teller.propose("the order 0 1 2 3 4 5", &[0, 1, 2, 3, 4, 5])?;
    teller.house()?;
    teller.write_order()?;
    teller.close_off()
}

/// Two readers that disagree, under SC: whichever way the stores are tried, there is a cycle.
fn disagreement(rt: &HostRuntime) -> anyhow::Result<()> {
    let mut teller = Teller::open(rt, "two readers that disagree, under SC", &DISAGREE, &Sc)?;
    let a = Claim::A { load: 5, store: 1 };
    teller.claims(&[
        ("split 0 and 1", Claim::Split { s: 0, t: 1 }),
        ("split 1 and 0", Claim::Split { s: 1, t: 0 }),
        ("close", Claim::Close),
        ("claim a of load 5 and store 1", a),
        ("close, which turns to 1 before 0", Claim::Close),
    ])?;
    teller.house()?;
    teller.house()?;
    teller.write_order()
}

/// A closed order without a cycle, under SC: only trying both ways shows that there is no serialization.
fn no_verdict(rt: &HostRuntime) -> anyhow::Result<()> {
    let what = "twelve operations of which no rule asks anything, under SC";
    let mut teller = Teller::open(rt, what, &NO_VERDICT, &Sc)?;
    teller.house()?;
    teller.write_order()
}

/// Tells three cases: one that ends serial, and two that end impossible.
pub(super) fn tell_cases(rt: &HostRuntime, bytes: &[u8]) -> anyhow::Result<()> {
    message(rt, bytes)?;
    disagreement(rt)?;
    no_verdict(rt)
}
