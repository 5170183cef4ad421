//! One real task from beginning to end, told in plain words: a record of a run is read, looked at and judged.
#![tactic(auto)]

mod books;
mod broken;
mod orders;
mod record;
mod story;
mod words;

use execution::Execution;

/// Message passing. Thread 1 stores a message at address 1 and then, behind a fence, a flag at address 2.
/// Thread 2 saw the flag (operation 4 saw store 3), and after it the old message (operation 5 saw the initial store 0).
const MESSAGE: [u8; 58] = [
    0x10, 0, 1, 1, // edition 1
    0x11, 0, 6, 0, 2, 0, 1, 0xFF, 0xFF, // 0: initial store to 1
    0x11, 0, 6, 1, 2, 0, 1, 0xFF, 0xFF, // 1: thread 1 stores to 1
    0x11, 0, 6, 1, 3, 0, 0, 0xFF, 0xFF, // 2: thread 1, fence
    0x11, 0, 6, 1, 2, 0, 2, 0xFF, 0xFF, // 3: thread 1 stores to 2
    0x11, 0, 6, 2, 1, 0, 2, 3, 0xFF, // 4: thread 2 loads 2, and saw 3
    0x11, 0, 6, 2, 1, 0, 1, 0, 4, // 5: thread 2 loads 1, and saw 0; it depends on 4
];

/// Reads the record, tells what each module finds in it, and lists it once more after the broken copies.
// The runtime and the execution stay two parameters: each module takes the runtime to print one thing, as functions of `std` do.
// The case in `story` is used by every method there, so it stands in a `Teller` with its runtime.
fn tell(rt: &HostRuntime) -> anyhow::Result<()> {
    let mut execution = Execution::new();
    println!(rt; "A record of {} bytes comes from the bench.", MESSAGE.len())?;
    execution.read(&MESSAGE)?;
    record::list(rt, &execution)?;
    record::write_back(rt, &execution, &MESSAGE)?;
    books::compare(rt, &execution)?;
    orders::tell(rt, &execution)?;
    story::tell_cases(rt, &MESSAGE)?;
    broken::try_copies(rt, &mut execution, &MESSAGE)?;
    record::list(rt, &execution)
}

fn main(rt: HostRuntime) -> anyhow::Result<()> {
    tell(&rt)
}
