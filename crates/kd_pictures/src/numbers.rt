//! The numbers of a machine's cables, slots, pin wheels and bars.

pub static CABLES: [u8; 13] = [1, 2, 3, 4, 5, 6, 7, 8, 9, 10, 11, 12, 13];

pub static SLOTS: [u8; 4] = [1, 2, 3, 4];

pub static PIN_WHEELS: [u8; 6] = [1, 2, 3, 4, 5, 6];

/// The slots and pin wheels after the first one.
pub static LATER_WHEELS: [u8; 5] = [2, 3, 4, 5, 6];

pub static BARS: [u8; 27] = [
    1, 2, 3, 4, 5, 6, 7, 8, 9, 10, 11, 12, 13, 14, 15, 16, 17, 18, 19, 20, 21, 22, 23, 24, 25, 26,
    27,
];
