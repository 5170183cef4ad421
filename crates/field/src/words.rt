//! What refusals, layers and faults say in words.

ghost use Rattle.std.specs.Prelude.{Some};
ghost use Rattle.field.specs.Words.{refusal_text, layer_text, fault_text};

use super::fault::{Fault, Layer};
use super::refusal::Refusal;
use std::error::Error;
use std::fmt;

/// Why something was refused.
impl fmt::Display for Refusal {
    ghost output = { λ x. Some (refusal_text x) };

    fn fmt<W: fmt::Write>(&self, f: &mut fmt::Formatter<W>) -> fmt::Result {
        f.write_str(match self {
            Refusal::CutShort => "a field must stand here, and its bytes are not all there",
            Refusal::TagNotDue => "a field with another tag is due here",
            Refusal::WrongLength => "the tag wants another length",
            Refusal::WrongEdition => "the record's edition is not 01",
            Refusal::TooManyOperations => "there is room for 32 operations only",
            Refusal::ThreadTooHigh => "threads go up to 8",
            Refusal::UnknownKind => "kinds go from 1 to 4",
            Refusal::NeedlessAddress => "a fence or a branch has no address",
            Refusal::InitialRule => "thread 0 has only stores, one to an address",
            Refusal::DependenceRule => "a dependence is on an earlier operation of the same thread",
            Refusal::SourceRule =>
                "a load saw a store to its address, and nothing else has a source",
            Refusal::UnknownCode => "table entries go from 0 to 2, and book codes from 1 to 3",
            Refusal::LawlessTable => "the table lets pass what every rule book keeps",
            Refusal::NoSuchOperation => "no operation has this number",
            Refusal::MemoryTooShort => "the memory for writing is too short",
            Refusal::IncompleteOrder => "the order does not name each operation once",
            Refusal::DocketTooLong => "the docket is longer than 4096 bytes",
            Refusal::CaseEnded => "the case has its verdict already",
            Refusal::PremiseFails => "a premise of the claim does not hold",
            Refusal::PairRecorded => "the pair is recorded already",
            Refusal::NoCycle => "no operation is before itself",
            Refusal::NotSerialization => "the order is no serialization",
            Refusal::NotSerial => "the case is not serial, so it has no order",
        })
    }
}

impl Error for Refusal {}

/// Who found it. A record or a table is called the record.
impl fmt::Display for Layer {
    ghost output = { λ x. Some (layer_text x) };

    fn fmt<W: fmt::Write>(&self, f: &mut fmt::Formatter<W>) -> fmt::Result {
        f.write_str(match self {
            Layer::Field => "field",
            Layer::Record => "record",
            Layer::Docket => "docket",
        })
    }
}

/// What is wrong, where, who found it and why.
impl fmt::Display for Fault {
    ghost output = { λ x. Some (fault_text x) };

    fn fmt<W: fmt::Write>(&self, f: &mut fmt::Formatter<W>) -> fmt::Result {
        let Fault {
            refusal,
            byte,
            layer,
        } = *self;
        let number = refusal.number();
        write!(
            f,
            "refused {number} at byte {byte}, found in the {layer}: {refusal}"
        )
    }
}

impl Error for Fault {}
