//! What a record says, and that writing it gives the same bytes.

use super::words::Sentence;
use anyhow::ensure;
use execution::Execution;

/// Lists the operations, one to a line.
pub(super) fn list(rt: &HostRuntime, execution: &Execution) -> anyhow::Result<()> {
    println!(rt; "It has {} operations:", execution.len())?;
    for number in 0..execution.len() {
        let operation = execution.operation(number).unwrap();
        println!(rt; "  {number}: {}", Sentence(operation))?;
    }
    Ok(())
}

/// Writes the record again and compares it with the bytes that were read.
pub(super) fn write_back(
    rt: &HostRuntime,
    execution: &Execution,
    bytes: &[u8],
) -> anyhow::Result<()> {
    let mut out = [0u8; 292];
    let size = execution.write(&mut out)?;
    ensure!(
        out.get(..size) == Some(bytes),
        "written back, the record has other bytes"
    );
    println!(rt; "Written back it has the same {size} bytes.")?;
    Ok(())
}
