//! Broken copies of the record: each is refused for one reason, at one byte, and leaves the execution as it was.

use anyhow::{Context, bail};
use execution::Execution;

/// Reads bytes that are no record, and says why they were refused, and where.
fn try_bytes(rt: &HostRuntime, execution: &mut Execution, bytes: &[u8]) -> anyhow::Result<()> {
    let Err(fault) = execution.read(bytes) else {
        bail!("a broken record was accepted");
    };
    println!(rt; "  {fault}.")?;
    Ok(())
}

/// Breaks the record in several places, one byte at a time, and then cuts it off.
pub(super) fn try_copies(
    rt: &HostRuntime,
    execution: &mut Execution,
    bytes: &[u8],
) -> anyhow::Result<()> {
    for (at, byte) in [(3, 2), (16, 9), (17, 7), (47, 1)] {
        let mut copy = bytes.to_vec(rt.alloc())?;
        *copy
            .get_mut(at)
            .context("the byte to break lies past the record")? = byte;
        println!(rt; "With byte {at} turned into {byte} it is")?;
        try_bytes(rt, execution, &copy)?;
    }
    println!(rt; "Cut off in its middle it is")?;
    try_bytes(rt, execution, &bytes[..bytes.len() / 2])?;
    println!(rt; "After all that the execution is as it was.")?;
    Ok(())
}
