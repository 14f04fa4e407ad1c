//! The numbers of the faults. The documentation of `ReadFault` says when each of them comes.

/// The bytes are no UTF-8.
pub const NOT_UTF8: u8 = 30;
/// The text is no JSON.
pub const NOT_JSON: u8 = 31;
/// The JSON is no object.
pub const NOT_OBJECT: u8 = 32;
/// A field or a section that isn't in the table.
pub const UNKNOWN_FIELD: u8 = 33;
/// A field that has to be there and isn't.
pub const MISSING: u8 = 34;
/// A value of another type, or an empty list of names or references.
pub const WRONG_TYPE: u8 = 35;
/// No name, no reference or no URL text.
pub const BAD_NAME: u8 = 36;
/// No path or no subdirectory.
pub const BAD_PATH: u8 = 37;
/// Words that stand for no rights.
pub const BAD_RIGHTS: u8 = 38;
/// A word that isn't listed.
pub const UNKNOWN_WORD: u8 = 39;
/// Not exactly one of the fields that tell an item's kind.
pub const KIND_COUNT: u8 = 40;
/// There are too many bytes.
pub const TOO_LARGE: u8 = 41;
/// A field that may not stand beside several names.
pub const NOT_WITH_MANY: u8 = 42;
/// A section gives too many rows.
pub const TOO_MANY_ROWS: u8 = 43;
