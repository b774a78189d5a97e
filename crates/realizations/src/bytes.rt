// Records of sixteen bytes in a room of 1024, 0 before they are put, and fields of them that are below 65,536.

#[derive(Drop)]
pub struct Bytes {
    bytes: [u8; 16384],
}

// Where the fields of a record stand; kind and A are taken together.
pub(crate) const KIND_A: u64 = 0;

pub(crate) const B: u64 = 2;

pub(crate) const C: u64 = 4;

pub(crate) const D: u64 = 8;

pub(crate) const E: u64 = 12;

impl Bytes {
    pub(crate) fn new() -> Bytes {
        Bytes { bytes: [0; 16384] }
    }

    // The first records alone.
    pub(crate) fn first(&self, records: u64) -> &[u8] {
        &self.bytes[..(records % 1024 * 16) as usize]
    }

    pub(crate) fn put(&mut self, record: u64, field: u64, value: u64) {
        let i = (record % 1024 * 16 + field % 15) as usize;
        let [low, high] = ((value % 65_536) as u16).to_le_bytes();
        self.bytes[i] = low;
        self.bytes[i + 1] = high;
    }

    pub(crate) fn field(&self, record: u64, field: u64) -> u64 {
        let i = (record % 1024 * 16 + field % 15) as usize;
        u64::from(u16::from_le_bytes([self.bytes[i], self.bytes[i + 1]]))
    }

    // The record of the i-th task; what is behind all tasks is 0, and counts as tasks of a record.
    pub(crate) fn head_of(&self, i: u64) -> u64 {
        let mut head: u64 = 0;
        for _ in 0..i {
            let rest = self.field(head, B).wrapping_add(self.field(head, E));
            head = head.wrapping_add(1).wrapping_add(rest);
        }
        head
    }
}
