// The limits of document 01 (specs/Limits.antt), in one place.

// Bytes of a draft.
pub const DRAFT: usize = 16384;
// Bytes of a simple token or a prefix.
pub const TOKEN: usize = 255;
// Clean bytes of a string's data.
pub const STRING: usize = 4096;
// Groups open at a time.
pub const GROUPS: usize = 64;
