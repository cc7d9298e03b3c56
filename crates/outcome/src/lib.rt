// What a schedule comes to: definitions and laws on its bytes, no code. Running one is `schedule`.
#![tactic(auto)]

use order::Refusal;

// The bytes of the longest schedule.
pub const MAX_BYTES: usize = 65_536;

// What an accepted schedule gives: its network, how many have entered, and the bytes of the reports.
#[derive(Clone, Copy)]
pub struct Accepted {
    pub width: u16,
    pub construction: u16,
    pub entries: u32,
    pub bytes: usize,
}

// Where a schedule is refused: why, at which record from 0 and at which offset, and how many bytes of it are present where it is
// cut, else 0.
#[derive(Clone, Copy)]
pub struct Stopped {
    pub refusal: Refusal,
    pub record: usize,
    pub offset: usize,
    pub present: usize,
}
