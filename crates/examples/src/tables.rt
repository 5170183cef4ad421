//! Written tables and book codes.

use super::{Example, Numbers};
use rulebook::{Access, Book, RuleBook, Seen, Table};

/// Tables: one for each way to be refused, and what is just accepted.
const EXAMPLES: [Example; 14] = [
    ("nothing at all", &[]),
    ("a table cut short", &[0x12, 0, 16, 1, 1, 1]),
    ("a book code where a table is due", &[0x13, 0, 1, 1]),
    (
        "fifteen entries",
        &[0x12, 0, 15, 1, 1, 1, 1, 1, 1, 1, 1, 1, 1, 1, 1, 1, 1, 1],
    ),
    (
        "entry 3",
        &[0x12, 0, 16, 1, 1, 1, 1, 1, 1, 1, 1, 1, 1, 1, 1, 1, 1, 1, 3],
    ),
    (
        "all 0",
        &[0x12, 0, 16, 0, 0, 0, 0, 0, 0, 0, 0, 0, 0, 0, 0, 0, 0, 0, 0],
    ),
    (
        "entry 3 after a 0 for store-store: 12 comes first",
        &[0x12, 0, 16, 1, 1, 1, 1, 1, 0, 1, 1, 1, 1, 1, 1, 1, 1, 1, 3],
    ),
    (
        "0 for load-store",
        &[0x12, 0, 16, 1, 0, 1, 1, 1, 1, 1, 1, 1, 1, 1, 1, 1, 1, 1, 1],
    ),
    (
        "0 for store-load",
        &[0x12, 0, 16, 1, 1, 1, 1, 0, 1, 1, 1, 1, 1, 1, 1, 1, 1, 1, 1],
    ),
    (
        "0 for store-store",
        &[0x12, 0, 16, 1, 1, 1, 1, 1, 0, 1, 1, 1, 1, 1, 1, 1, 1, 1, 1],
    ),
    (
        "2 for store-load",
        &[0x12, 0, 16, 1, 1, 1, 1, 2, 1, 1, 1, 1, 1, 1, 1, 1, 1, 1, 1],
    ),
    (
        "0 wherever the law allows it",
        &[0x12, 0, 16, 0, 2, 0, 0, 2, 2, 0, 0, 0, 0, 0, 0, 0, 0, 0, 0],
    ),
    (
        "one byte after the table",
        &[
            0x12, 0, 16, 1, 1, 1, 1, 1, 1, 1, 1, 1, 1, 1, 1, 1, 1, 1, 1, 1,
        ],
    ),
    (
        "a field after the table",
        &[
            0x12, 0, 16, 1, 1, 1, 1, 1, 1, 1, 1, 1, 1, 1, 1, 1, 1, 1, 1, 0x12, 0, 0,
        ],
    ),
];

/// The first operation of every question: a store to address 5.
const STORE: Seen = Seen {
    number: 0,
    access: Access::Store(5),
    dependence: None,
};

/// A load of the same address.
const NEAR: Seen = Seen {
    number: 1,
    access: Access::Load(5),
    dependence: None,
};

/// A load of another address, which depends on the store.
const FAR: Seen = Seen {
    access: Access::Load(6),
    dependence: Some(0),
    ..NEAR
};

/// A fence.
const FENCE: Seen = Seen {
    access: Access::Fence,
    ..NEAR
};

/// What a book says of a store before a load of its address, of another address that depends on it, and before a fence.
fn ask<B: RuleBook>(rt: &HostRuntime, book: &B) -> anyhow::Result<()> {
    let [near, far, fence] = [NEAR, FAR, FENCE].map(|second| {
        if book.kept(STORE, second) {
            "kept"
        } else {
            "may pass"
        }
    });
    println!(rt;
        "  store before load, same address: {near}; another, dependent: {far}; store before fence: {fence}"
    )?;
    Ok(())
}

/// Reads each example into one table, and asks the table after each.
pub(super) fn try_all(rt: &HostRuntime) -> anyhow::Result<()> {
    let mut table = Table::new();
    for (shows, bytes) in EXAMPLES {
        match table.read(bytes) {
            Ok(()) => println!(rt; "table accepted: {shows}")?,
            Err(fault) => println!(rt; "table {}: {shows}", Numbers(fault))?,
        }
        ask(rt, &table)?;
    }
    Ok(())
}

/// Turns the codes 0 to 4 into books, and asks each book.
pub(super) fn try_codes(rt: &HostRuntime) -> anyhow::Result<()> {
    // The codes themselves are tried, those that are refused too.
    for code in 0..5u8 {
        match Book::try_from(code) {
            Ok(book) => {
                println!(rt; "book code {code}")?;
                ask(rt, &book)?;
            }
            Err(refusal) => println!(rt; "book code {code} refused {}", refusal.number())?,
        }
    }
    Ok(())
}
