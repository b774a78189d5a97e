// The bytes of a line, put one behind another.
ghost use Rattle.std.specs.Prelude.{◌≡◌, ◌∷◌, [], ◌++◌, ◌+◌, ◌≤◌, ◌<◌, length};

// A line of at most 84 bytes: four numbers of up to twenty digits, three spaces and a line feed. Its memory is of a fixed size: nothing
// here has a heap. Bytes and length are public and it is Copy, as ever; an ArrayVec has neither.
#[derive(Clone, Copy)]
pub struct Line {
    pub bytes: [u8; 84],
    pub len: usize,
    pub ghost fits: { len ≤ 84 },
}

impl Line {
    ghost use Rattle.line.specs.Text.{decimal, text};

    // The empty line.
    pub(super) fn new() -> Self
        ensures { (text result ≡ []) × (result.len ≡ 0) }
    {
        Line {
            bytes: [0; 84],
            len: 0,
        }
    }

    pub(super) fn push(&mut self, byte: u8)
        requires { self.old.len < 84 }
        ensures { (text self.new ≡ text self.old ++ byte ∷ []) × (self.new.len ≡ self.old.len + 1) }
    {
        self.bytes[self.len] = byte;
        self.len += 1;
    }

    pub(super) fn extend_from_slice(&mut self, bytes: &[u8])
        requires { self.old.len + length bytes.now ≤ 84 }
        ensures { (text self.new ≡ text self.old ++ bytes.now) × (self.new.len ≡ self.old.len + length bytes.now) }
    {
        for &byte in bytes {
            self.push(byte);
        }
    }

    // A number, in decimal.
    pub(super) fn push_number(&mut self, n: u64)
        requires { self.old.len + 20 ≤ 84 }
        ensures { (text self.new ≡ text self.old ++ decimal n) × (self.new.len ≤ self.old.len + 20) }
    {
        let mut digits = [0u8; 20];
        let count = io::decimal(n, &mut digits);
        self.extend_from_slice(&digits[..count]);
    }
}
