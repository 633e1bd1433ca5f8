// The codes of MISAUTH messages (document 003, 5), and the types of the objects in them (document 003, 4).

pub const REQUEST: u8 = 1;

pub const ACCEPT: u8 = 2;

pub const REJECT: u8 = 3;

pub const ACCOUNT: u8 = 1;

pub const ROUTER: u8 = 4;

pub const PROXY: u8 = 33;

pub const SIX: u8 = 95;

pub const AUTHENTICATION: u8 = 200;

pub const CHECK: u8 = 201;

pub const SEED: u8 = 202;

pub const KEY: u8 = 203;

pub const POSITION: u8 = 204;

pub const SECURITY: u8 = 205;

pub const GROUPS: u8 = 206;
