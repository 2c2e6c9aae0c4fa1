/// The number of a native: a value of the library that the machine computes itself.
/// Natives are numbered from 0 in the order in which the library's modules declare them.
pub type NativeId = u32;

// Basics
pub const ADD: NativeId = 0;

pub const SUBTRACT: NativeId = 1;

pub const MULTIPLY: NativeId = 2;

pub const DIVIDE: NativeId = 3;

pub const MODULO: NativeId = 4;

pub const REMAINDER: NativeId = 5;

pub const NEGATE: NativeId = 6;

pub const EQUAL: NativeId = 7;

pub const NOT_EQUAL: NativeId = 8;

pub const LESS: NativeId = 9;

pub const GREATER: NativeId = 10;

pub const AT_MOST: NativeId = 11;

pub const AT_LEAST: NativeId = 12;

pub const COMPARE: NativeId = 13;

pub const JOIN: NativeId = 14;

pub const TO_STRING: NativeId = 15;

// Char
pub const CHAR_TO_CODE: NativeId = 16;

pub const CHAR_FROM_CODE: NativeId = 17;

// String
pub const STRING_LENGTH: NativeId = 18;

pub const STRING_REVERSE: NativeId = 19;

pub const STRING_TO_LIST: NativeId = 20;

pub const STRING_FROM_LIST: NativeId = 21;

pub const STRING_TO_INT: NativeId = 22;

// Debug
pub const WATCH: NativeId = 23;

pub const LOG: NativeId = 24;

pub const CRASH: NativeId = 25;

// Signal
pub const CONSTANT: NativeId = 26;

pub const MAP: NativeId = 27;

pub const MAP2: NativeId = 28;

pub const MAP3: NativeId = 29;

pub const MAP4: NativeId = 30;

pub const MAP5: NativeId = 31;

pub const FOLDP: NativeId = 32;

pub const MERGE: NativeId = 33;

pub const FILTER: NativeId = 34;

pub const FILTER_MAP: NativeId = 35;

pub const DROP_REPEATS: NativeId = 36;

pub const SAMPLE_ON: NativeId = 37;

pub const ASYNC: NativeId = 38;

// Graphics.Element
pub const TEXT: NativeId = 39;

pub const EMPTY: NativeId = 40;

pub const SPACER: NativeId = 41;

pub const FLOW: NativeId = 42;

pub const UP: NativeId = 43;

pub const DOWN: NativeId = 44;

pub const LEFT: NativeId = 45;

pub const RIGHT: NativeId = 46;

pub const TOP_LEFT: NativeId = 47;

pub const MIDDLE: NativeId = 48;

pub const BOTTOM_RIGHT: NativeId = 49;

pub const CONTAINER: NativeId = 50;

pub const WIDTH_OF: NativeId = 51;

pub const HEIGHT_OF: NativeId = 52;

/// How many natives there are.
pub const NATIVES: u32 = 53;
