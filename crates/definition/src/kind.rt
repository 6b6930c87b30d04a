// The kinds of definitions, by the numbers of "Records"; specs/Landmark.antt has the same under the same names.

pub const IDENTITY: u8 = 1;

pub const PLAIN: u8 = 2;

pub const OBJECT_IDENTITY: u8 = 3;

pub const OBJECT: u8 = 4;

pub const CONVENTION: u8 = 5;

pub const SEQUENCE_TYPE: u8 = 6;

pub const NOTIFICATION: u8 = 7;
