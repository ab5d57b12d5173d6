// The memory that a call's slices are parts of: each has its own, from its front on, as long as the line says.

// More than any table, file and answers have, so that a slice can be too long.
pub const BYTES: usize = 100000;

const VALUES: usize = 8300;

const MASKS: usize = 2100;

#[derive(Drop)]
pub struct Memory {
    pub starting: [u32; VALUES],
    pub file: [u8; BYTES],
    pub main: [u32; VALUES],
    pub copies: [u32; VALUES],
    pub masks: [u16; MASKS],
    pub out: [u8; BYTES],
    pub values: [u32; VALUES],
}

impl Memory {
    pub fn new() -> Memory {
        Memory {
            starting: [0; VALUES],
            file: [0; BYTES],
            main: [0; VALUES],
            copies: [0; VALUES],
            masks: [0; MASKS],
            out: [0; BYTES],
            values: [0; VALUES],
        }
    }
}
