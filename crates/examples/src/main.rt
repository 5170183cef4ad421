//! Executed examples: every refusal of a record, a table and a writing, with its byte and its layer; and what is just accepted.
#![tactic(auto)]

mod records;
mod tables;

use field::Fault;
use std::fmt;

/// What some bytes show, and the bytes.
type Example = (&'static str, &'static [u8]);

/// A fault by its numbers: the refusal, the byte and the layer.
#[derive(Drop)]
struct Numbers(Fault);

impl fmt::Display for Numbers {
    fn fmt<W: fmt::Write>(&self, f: &mut fmt::Formatter<W>) -> fmt::Result {
        let Fault {
            refusal,
            byte,
            layer,
        } = self.0;
        write!(
            f,
            "refused {} at byte {byte} by layer {}",
            refusal.number(),
            layer.number()
        )
    }
}

/// Runs the examples of records, then those of tables.
fn run(rt: &HostRuntime) -> anyhow::Result<()> {
    records::try_all(rt)?;
    records::try_lengths(rt)?;
    records::try_writing(rt)?;
    tables::try_all(rt)?;
    tables::try_codes(rt)
}

fn main(rt: HostRuntime) -> anyhow::Result<()> {
    run(&rt)
}
