// The index of each name among those of its place, in the order of `keys_of`.

pub const TOKEN_C: u32 = 0;

pub const TOKEN_R: u32 = 1;

pub const TOKEN_S: u32 = 2;

pub const TOKEN_V: u32 = 3;

pub const TOKEN_KID: u32 = 4;

pub const TOKEN_TID: u32 = 5;

pub const SCOPE_PREFIX: u32 = 0;

pub const SCOPE_METHODS: u32 = 1;

pub const SCOPE_MAX_BYTES: u32 = 2;

pub const CAVEAT_T: u32 = 0;

pub const CAVEAT_V: u32 = 1;

pub const RATE_BURST: u32 = 0;

pub const RATE_PER_S: u32 = 1;

pub const CUSTOM_NS: u32 = 0;

pub const CUSTOM_CBOR: u32 = 1;

pub const CUSTOM_NAME: u32 = 2;

pub const T_EXP: u32 = 0;

pub const T_NBF: u32 = 1;

pub const T_AUD: u32 = 2;

pub const T_METHOD: u32 = 3;

pub const T_PATH_PREFIX: u32 = 4;

pub const T_IP_CIDR: u32 = 5;

pub const T_BYTES_LE: u32 = 6;

pub const T_RATE: u32 = 7;

pub const T_TENANT: u32 = 8;

pub const T_AMNESIA: u32 = 9;

pub const T_GOV_POLICY_DIGEST: u32 = 10;

pub const T_CUSTOM: u32 = 11;
