//! One packet in each form of a capture, byte by byte as the standard has them: of the bytes ab cd, at 7 seconds and
//! 250 microseconds. And the header of the form that is written.

/// The header that is written: little-endian with nanoseconds.
pub const HEADER: [u8; 24] = [
    0x4d, 0x3c, 0xb2, 0xa1, 2, 0, 4, 0, 0, 0, 0, 0, 0, 0, 0, 0, 0, 0, 4, 0, 1, 0, 0, 0,
];

/// Little-endian with microseconds.
pub const MICROSECONDS: [u8; 42] = [
    0xd4, 0xc3, 0xb2, 0xa1, 2, 0, 4, 0, 0, 0, 0, 0, 0, 0, 0, 0, 0, 0, 4, 0, 1, 0, 0, 0, //
    7, 0, 0, 0, 0xfa, 0, 0, 0, 2, 0, 0, 0, 2, 0, 0, 0, 0xab, 0xcd,
];

/// Little-endian with nanoseconds.
pub const NANOSECONDS: [u8; 42] = [
    0x4d, 0x3c, 0xb2, 0xa1, 2, 0, 4, 0, 0, 0, 0, 0, 0, 0, 0, 0, 0, 0, 4, 0, 1, 0, 0, 0, //
    7, 0, 0, 0, 0x90, 0xd0, 3, 0, 2, 0, 0, 0, 2, 0, 0, 0, 0xab, 0xcd,
];

/// Big-endian with microseconds.
pub const BIG_MICROSECONDS: [u8; 42] = [
    0xa1, 0xb2, 0xc3, 0xd4, 0, 2, 0, 4, 0, 0, 0, 0, 0, 0, 0, 0, 0, 4, 0, 0, 0, 0, 0, 1, //
    0, 0, 0, 7, 0, 0, 0, 0xfa, 0, 0, 0, 2, 0, 0, 0, 2, 0xab, 0xcd,
];

/// Big-endian with nanoseconds.
pub const BIG_NANOSECONDS: [u8; 42] = [
    0xa1, 0xb2, 0x3c, 0x4d, 0, 2, 0, 4, 0, 0, 0, 0, 0, 0, 0, 0, 0, 4, 0, 0, 0, 0, 0, 1, //
    0, 0, 0, 7, 0, 3, 0xd0, 0x90, 0, 0, 0, 2, 0, 0, 0, 2, 0xab, 0xcd,
];

/// All four forms.
pub const FORMS: [[u8; 42]; 4] = [MICROSECONDS, NANOSECONDS, BIG_MICROSECONDS, BIG_NANOSECONDS];
