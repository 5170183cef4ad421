//! How a written table is read from bytes.

ghost use Rattle.std.specs.Prelude.{◌≡◌, IfErr, Ok, Err, MatchResult};
ghost use Rattle.rulebook.specs.Writing.{decoded, judged, ended, table_in, WritingOf, NoWriting};
ghost use Rattle.rulebook.specs.Taking.{Found, Exact, Inside, Taken};

use super::entry::Entry;
use super::table::Table;
use field::{Fault, Layer, Refusal, expect_field, read_field, within};

/// The tag of a written table.
const TABLE_TAG: u8 = 18;

/// How many codes it has, one for each pair of kinds.
const TABLE_CODES: usize = 16;

/// How many bytes it has: the tag, the two bytes of the length, and the codes.
const TABLE_LENGTH: usize = 3 + TABLE_CODES;

/// The entries with these codes.
fn decode(codes: [u8; TABLE_CODES]) -> Result<[Entry; TABLE_CODES], Refusal>
    ensures { result ≡ decoded codes }
{
    // Place by place: `try_map` goes over the codes several times, and took seven times as long.
    let mut entries = [Entry::Kept; TABLE_CODES];
    for (i, code) in codes.iter().enumerate() {
        entries[i] = Entry::try_from(*code)?;
    }
    Ok(entries)
}

/// The table with these codes: an unknown code comes before a lawless table, wherever it stands.
fn table_of(codes: [u8; TABLE_CODES]) -> Result<Table, Refusal>
    ensures { MatchResult result (λ t. judged codes ≡ Ok t.entries) (λ e. judged codes ≡ Err e) }
{
    decode(codes).and_then(Table::try_from)
}

/// Nothing is due any more: what still stands here is judged as a field that is not due.
fn read_end(rest: &[u8]) -> Result<(), Fault>
    ensures ended { result ≡ ended rest.now }
    ensures here { IfErr result (λ e. e.byte ≡ 0) }
{
    if rest.is_empty() {
        return Ok(());
    }
    read_field(rest)?;
    Err(Fault::here(Refusal::TagNotDue, Layer::Record))
}

/// The table that `bytes` are the writing of: its field, its codes and the end are read in turn, so that the first fault there is gets told.
fn table_in(bytes: &[u8]) -> Result<Table, Fault>
    ensures found { Found bytes.now result }
    ensures inside { Inside bytes.now result }
    ensures exact { Exact bytes.now result }
{
    let body = expect_field(bytes, TABLE_TAG, TABLE_CODES, Layer::Record)?;
    // It has the length that was due, so it is an array.
    let codes: [u8; TABLE_CODES] = body.try_into().unwrap();
    let table = table_of(codes).map_err(|refusal| Fault::here(refusal, Layer::Record))?;
    within(read_end(&bytes[TABLE_LENGTH..]), TABLE_LENGTH).map(|()| table)
}

impl Table {
    /// Takes over the table that `bytes` are the writing of, one field with the tag of a table and a code for each pair of kinds.
    /// What is refused leaves the table as it was.
    pub fn read(&mut self, bytes: &[u8]) -> Result<(), Fault>
        ensures taken { Taken (table_in bytes.now) self.old result self.new }
        ensures inside { Inside bytes.now result }
        ensures exact { MatchResult result (λ _. WritingOf bytes.now self.new.entries) (λ _. NoWriting bytes.now) }
    {
        *self = table_in(bytes)?;
        Ok(())
    }
}
