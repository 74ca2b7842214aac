// What an entry is of, by number. negoex.h has the same names and numbers.
pub const MESSAGE: u32 = 0;

pub const SIGNATURE: u32 = 1;

pub const TYPE: u32 = 2;

pub const SEQUENCE: u32 = 3;

pub const HEADER_LENGTH: u32 = 4;

pub const MESSAGE_LENGTH: u32 = 5;

pub const CONVERSATION: u32 = 6;

pub const RANDOM: u32 = 7;

pub const VERSION: u32 = 8;

pub const SCHEME_VECTOR: u32 = 9;

pub const EXTENSION_VECTOR: u32 = 10;

pub const SCHEME: u32 = 11;

pub const EXCHANGE_VECTOR: u32 = 12;

pub const CHECKSUM_HEADER: u32 = 13;

pub const CHECKSUM_SCHEME: u32 = 14;

pub const CHECKSUM_TYPE: u32 = 15;

pub const CHECKSUM_VECTOR: u32 = 16;

pub const ERROR_CODE: u32 = 17;

pub const ALERT_VECTOR: u32 = 18;

pub const PAD: u32 = 19;

pub const SCHEMES: u32 = 20;

pub const EXTENSIONS: u32 = 21;

pub const EXTENSION_VALUE: u32 = 22;

pub const EXCHANGE: u32 = 23;

pub const CHECKSUM_VALUE: u32 = 24;

pub const ALERTS: u32 = 25;

pub const ALERT_VALUE: u32 = 26;

pub const EXTENSION_TYPE: u32 = 27;

pub const EXTENSION_VALUE_VECTOR: u32 = 28;

pub const ALERT_TYPE: u32 = 29;

pub const ALERT_VALUE_VECTOR: u32 = 30;
