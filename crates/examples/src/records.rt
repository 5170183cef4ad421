//! Records: one that is accepted, and one for each way to be refused.

use super::{Example, Numbers};
use execution::Execution;
use field::Fault;
use std::alloc::{AllocError, Global};

/// Every byte is written out, the edition and the operations too, since the bytes are what is shown.
const EXAMPLES: [Example; 30] = [
    ("nothing at all", &[]),
    ("two bytes", &[0x10, 0]),
    ("an edition cut short", &[0x10, 0, 1]),
    ("a cut field whatever its tag", &[0x77, 0, 1]),
    ("an operation where the edition is due", &[0x11, 0, 1, 1]),
    ("an edition of two bytes", &[0x10, 0, 2, 1, 1]),
    ("edition 2", &[0x10, 0, 1, 2]),
    ("no operations", &[0x10, 0, 1, 1]),
    ("one byte after the edition", &[0x10, 0, 1, 1, 0x11]),
    (
        "an operation cut short",
        &[0x10, 0, 1, 1, 0x11, 0, 6, 1, 3, 0, 0, 0xFF],
    ),
    ("a second edition", &[0x10, 0, 1, 1, 0x10, 0, 1, 1]),
    (
        "an operation of five bytes",
        &[0x10, 0, 1, 1, 0x11, 0, 5, 1, 3, 0, 0, 0xFF],
    ),
    (
        "thread 9",
        &[0x10, 0, 1, 1, 0x11, 0, 6, 9, 3, 0, 0, 0xFF, 0xFF],
    ),
    (
        "thread 9 and kind 0: the smaller number",
        &[0x10, 0, 1, 1, 0x11, 0, 6, 9, 0, 0, 0, 0xFF, 0xFF],
    ),
    (
        "kind 0",
        &[0x10, 0, 1, 1, 0x11, 0, 6, 1, 0, 0, 0, 0xFF, 0xFF],
    ),
    (
        "kind 5",
        &[0x10, 0, 1, 1, 0x11, 0, 6, 1, 5, 0, 0, 0xFF, 0xFF],
    ),
    (
        "a fence with an address",
        &[0x10, 0, 1, 1, 0x11, 0, 6, 1, 3, 0, 1, 0xFF, 0xFF],
    ),
    (
        "a branch with an address",
        &[0x10, 0, 1, 1, 0x11, 0, 6, 1, 4, 1, 0, 0xFF, 0xFF],
    ),
    (
        "a fence in thread 0",
        &[0x10, 0, 1, 1, 0x11, 0, 6, 0, 3, 0, 0, 0xFF, 0xFF],
    ),
    (
        "two initial stores to one address",
        &[
            0x10, 0, 1, 1, 0x11, 0, 6, 0, 2, 0, 0, 0xFF, 0xFF, 0x11, 0, 6, 0, 2, 0, 0, 0xFF, 0xFF,
        ],
    ),
    (
        "two initial stores to addresses 0 and 1",
        &[
            0x10, 0, 1, 1, 0x11, 0, 6, 0, 2, 0, 0, 0xFF, 0xFF, 0x11, 0, 6, 0, 2, 0, 1, 0xFF, 0xFF,
        ],
    ),
    (
        "a dependence on itself",
        &[0x10, 0, 1, 1, 0x11, 0, 6, 1, 3, 0, 0, 0xFF, 0],
    ),
    (
        "a dependence on another thread",
        &[
            0x10, 0, 1, 1, 0x11, 0, 6, 1, 3, 0, 0, 0xFF, 0xFF, 0x11, 0, 6, 2, 3, 0, 0, 0xFF, 0,
        ],
    ),
    (
        "a dependence in thread 0",
        &[
            0x10, 0, 1, 1, 0x11, 0, 6, 0, 2, 0, 0, 0xFF, 0xFF, 0x11, 0, 6, 0, 2, 0, 1, 0xFF, 0,
        ],
    ),
    (
        "a fence with a source",
        &[0x10, 0, 1, 1, 0x11, 0, 6, 1, 3, 0, 0, 0, 0xFF],
    ),
    (
        "a load without a source",
        &[0x10, 0, 1, 1, 0x11, 0, 6, 1, 1, 0, 0, 0xFF, 0xFF],
    ),
    (
        "a load that saw itself",
        &[0x10, 0, 1, 1, 0x11, 0, 6, 1, 1, 0, 0, 0, 0xFF],
    ),
    (
        "a load that saw another address",
        &[
            0x10, 0, 1, 1, 0x11, 0, 6, 0, 2, 0, 1, 0xFF, 0xFF, 0x11, 0, 6, 1, 1, 0, 0, 0, 0xFF,
        ],
    ),
    (
        "a load that saw a store below it",
        &[
            0x10, 0, 1, 1, 0x11, 0, 6, 1, 1, 0, 0, 1, 0xFF, 0x11, 0, 6, 1, 2, 0, 0, 0xFF, 0xFF,
        ],
    ),
    (
        "a wrong source in 0 and a wrong thread in 1: fields come first",
        &[
            0x10, 0, 1, 1, 0x11, 0, 6, 1, 1, 0, 0, 9, 0xFF, 0x11, 0, 6, 9, 2, 0, 0, 0xFF, 0xFF,
        ],
    ),
];

/// What stands after 32 fences.
/// 32 operations are read; a 33rd is refused, once its field stands, before anything in its body.
const ENDS: [Example; 4] = [
    ("32 operations", &[]),
    (
        "a 33rd operation, wrong in every part",
        &[0x11, 0, 6, 9, 9, 9, 9, 9, 9],
    ),
    (
        "a 33rd field of another length",
        &[0x11, 0, 5, 1, 3, 0, 0, 0xFF],
    ),
    ("a 33rd field cut short", &[0x11, 0]),
];

/// Says what became of a reading.
fn show(rt: &HostRuntime, shows: &str, read: Result<usize, Fault>) -> anyhow::Result<()> {
    match read {
        Ok(count) => println!(rt; "accepted, {count} operations: {shows}")?,
        Err(fault) => println!(rt; "{}: {shows}", Numbers(fault))?,
    }
    Ok(())
}

/// Reads a record, and says how many operations it has.
fn read(bytes: &[u8]) -> Result<usize, Fault> {
    let mut execution = Execution::new();
    execution.read(bytes)?;
    Ok(execution.len())
}

/// Reads each example.
pub(super) fn try_all(rt: &HostRuntime) -> anyhow::Result<()> {
    for (shows, bytes) in EXAMPLES {
        show(rt, shows, read(bytes))?;
    }
    Ok(())
}

/// A record of as many fences of thread 1.
fn fences(heap: Global, count: usize) -> Result<Vec<u8>, AllocError> {
    let mut bytes = Vec::from_slice(heap, &[0x10, 0, 1, 1])?;
    for _ in 0..count {
        bytes.extend_from_slice(&[0x11, 0, 6, 1, 3, 0, 0, 0xFF, 0xFF])?;
    }
    Ok(bytes)
}

/// Reads 32 fences with each end after them.
pub(super) fn try_lengths(rt: &HostRuntime) -> anyhow::Result<()> {
    for (shows, end) in ENDS {
        let mut bytes = fences(rt.alloc(), 32)?;
        bytes.extend_from_slice(end)?;
        show(rt, shows, read(&bytes))?;
    }
    Ok(())
}

/// Writing needs 4 + 9 n bytes and touches no other.
pub(super) fn try_writing(rt: &HostRuntime) -> anyhow::Result<()> {
    let record = fences(rt.alloc(), 2)?;
    let mut execution = Execution::new();
    let read = execution.read(&record).map(|()| execution.len());
    show(rt, "two fences, to be written", read)?;
    try_write(rt, &execution, &mut [7; 21])?;
    try_write(rt, &execution, &mut [7; 24])
}

/// Writes into memory that is full of 7, and shows what is there afterwards.
fn try_write(rt: &HostRuntime, execution: &Execution, out: &mut [u8]) -> anyhow::Result<()> {
    let room = out.len();
    match execution.write(out) {
        Ok(size) => println!(rt; "written {size} bytes of {room}: {out:?}")?,
        Err(refusal) => println!(rt; "refused {} for {room} bytes: {out:?}", refusal.number())?,
    }
    Ok(())
}
