//! Bytes of the format that reading and writing share.

/// The tag of the edition's field.
pub(super) const EDITION_TAG: u8 = 0x10;

/// The tag of an operation's field.
pub(super) const OPERATION_TAG: u8 = 0x11;

/// No source, or no dependence.
pub(super) const NONE: u8 = 0xFF;
