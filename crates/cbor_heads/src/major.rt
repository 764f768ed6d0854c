// The major types (RFC 8949, 3.1) and the simple values (3.3) that are read or written.

pub const UNSIGNED: u8 = 0;

pub const NEGATIVE: u8 = 1;

pub const BYTES: u8 = 2;

pub const TEXT: u8 = 3;

pub const ARRAY: u8 = 4;

pub const MAP: u8 = 5;

pub const SIMPLE: u8 = 7;

pub const FALSE: u64 = 20;

pub const TRUE: u64 = 21;

pub const NULL: u64 = 22;
