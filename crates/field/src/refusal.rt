//! Why an input or a call is turned away.

ghost use Rattle.std.specs.Prelude.{◌≡◌};
ghost use Rattle.field.specs.Numbers.{number_of};

/// Every reason there is, with the number by which makers know it.
/// 1 to 17 are refused for the input, 21 to 26 for the state of a case.
#[derive(Debug, Clone, Copy, PartialEq, Eq)]
pub enum Refusal {
    /// A field must stand here, or has begun, and its bytes are not all there.
    CutShort = 1,
    /// A field with another tag is due here.
    TagNotDue = 2,
    /// The tag wants another length.
    WrongLength = 3,
    /// A record of an edition that is not 01.
    WrongEdition = 4,
    /// A 33rd operation.
    TooManyOperations = 5,
    /// A thread above 8.
    ThreadTooHigh = 6,
    /// A kind outside 1 to 4.
    UnknownKind = 7,
    /// A fence or a branch with an address.
    NeedlessAddress = 8,
    /// Thread 0 has only stores, at most one to an address.
    InitialRule = 9,
    /// A dependence is on an earlier operation of the same thread, and never in thread 0.
    DependenceRule = 10,
    /// A load saw a store to its address, and nothing else has a source.
    SourceRule = 11,
    /// An entry of a table above 2, or a book code outside 1 to 3.
    UnknownCode = 12,
    /// A table that lets pass what the law keeps.
    LawlessTable = 13,
    /// No operation has this number.
    NoSuchOperation = 14,
    /// The memory lent for writing is too short.
    MemoryTooShort = 15,
    /// An order that does not name each operation once.
    IncompleteOrder = 16,
    /// A docket above 4,096 bytes.
    DocketTooLong = 17,
    /// The case has its verdict already.
    CaseEnded = 21,
    /// A premise of the claim does not hold.
    PremiseFails = 22,
    /// The pair is recorded already.
    PairRecorded = 23,
    /// A close where no operation is before itself.
    NoCycle = 24,
    /// The order is no serialization.
    NotSerialization = 25,
    /// The case is not serial, so it has no order to write.
    NotSerial = 26,
}

impl Refusal {
    /// The number by which makers know it.
    pub fn number(self) -> u8
        ensures { result ≡ number_of self }
    {
        self as u8
    }
}
