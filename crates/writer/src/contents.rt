// What a file is made from: the program name in 16-bit units, tables of pairs (name offset, name length; next index, block count), two
// sections in bytes, and the numbers that stand nowhere else.
#[derive(Clone, Copy)]
pub struct Contents<'a> {
    pub name: &'a [u16],
    pub stored_hash: u32,
    pub run_time: u64,
    pub run_count: u32,
    pub metrics: &'a [u32],
    pub trace: &'a [u32],
    pub strings: &'a [u8],
    pub volumes: &'a [u8],
    pub volume_count: u32,
}
