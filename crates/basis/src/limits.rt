// Every limit and kind of document 01, as Limits of `specs/` has them, each of the type that its users compare it with.

pub const NAME_MOST: u64 = 64;

pub const AUD_MOST: u64 = 128;

pub const PATH_MOST: u64 = 256;

pub const METHODS_MOST: u64 = 16;

pub const METHOD_MOST: u64 = 16;

pub const DIGEST_LENGTH: u64 = 64;

pub const CIDR_MOST: u32 = 32;

pub const NUMBER_MOST: u64 = 0xffff_ffff_ffff_ffff;

pub const RATE_MOST: u64 = 0xffff_ffff;

pub const DEPTH_MOST: u8 = 4;

pub const CAVEATS_MOST: u64 = 64;

pub const TOKEN_VERSION: u64 = 1;

pub const TAG_LENGTH: u64 = 32;

pub const TOKEN_MOST: usize = 4096;

pub const TEXT_MOST: usize = 5462;

pub const MESSAGE_MOST: usize = 8192;

pub const KEY_LENGTH: usize = 32;

pub const ROWS_MOST: u32 = 64;

pub const ROW_KIND: u64 = 1;

pub const SKEW_MOST: u64 = 300;

pub const REQUEST_PATH_MOST: u64 = 1024;

pub const TABLE_KIND: u64 = 16;

pub const REQUEST_KIND: u64 = 32;

pub const TOKEN_KIND: u64 = 48;

pub const BUNDLE_MOST: usize = 65536;
