//! The bytes of statements on a value `[x=1]`, where `x` is a letter.

/// The five bytes of the value `[x=1]`.
pub fn value_bytes(letter: u8) -> [u8; 5] {
    [1, 3, letter, 0x3d, 0x31]
}

/// A report on that value alone, without ALL and without locks.
pub fn report_bytes(height: u8, phase: u8, signer: u8, letter: u8) -> [u8; 23] {
    [
        1, 0, 0, 0, height, 0, 0, 0, phase, signer, 0, 1, 3, letter, 0x3d, 0x31, 1, 1, 3, letter,
        0x3d, 0x31, 0,
    ]
}

/// A lock on that value at height 1, up to the number of its reports.
pub fn lock_bytes(phase: u8, owner: u8, letter: u8, reports: u8) -> [u8; 16] {
    [
        2, 0, 0, 0, 1, 0, 0, 0, phase, owner, 1, 3, letter, 0x3d, 0x31, reports,
    ]
}

/// An acknowledgement of the lock of that value.
pub fn ack_bytes(height: u8, phase: u8, signer: u8, letter: u8) -> [u8; 15] {
    [
        3, 0, 0, 0, height, 0, 0, 0, phase, signer, 1, 3, letter, 0x3d, 0x31,
    ]
}
