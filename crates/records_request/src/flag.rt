// The bits of a request's flags, each as the number it adds, and the largest number they make together.

pub const AMNESIA: u64 = 1;

pub const PEER: u64 = 2;

pub const AUDIENCE: u64 = 4;

pub const DIGEST: u64 = 8;

pub const RATE: u64 = 16;

pub const MOST: u64 = 31;
