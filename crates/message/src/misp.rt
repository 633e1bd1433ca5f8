// The codes of MISP messages (document 000, 4.5), and the types of the objects in them (document 000, 4.4).

pub const BEACON: u8 = 1;

pub const REQUEST: u8 = 3;

pub const SUCCESS: u8 = 4;

pub const FAILURE: u8 = 8;

pub const TERMINATING: u8 = 9;

pub const STAMP: u8 = 2;

pub const LOCAL: u8 = 3;

pub const REMOTE: u8 = 4;

pub const CHECK: u8 = 5;

pub const ACCOUNT: u8 = 6;

pub const SEED: u8 = 8;

pub const POSITION: u8 = 9;

pub const LEFT: u8 = 10;

pub const FILTER: u8 = 11;

pub const REASON: u8 = 13;

pub const GROUPS: u8 = 14;

pub const LIFETIME: u8 = 15;

pub const SERIAL: u8 = 16;

pub const INTERVAL: u8 = 17;

pub const SECURITY: u8 = 18;

pub const UPLINK: u8 = 19;

pub const CHANNEL: u8 = 20;

pub const LAYERS: u8 = 21;
