// Numbers as little-endian bytes in a slice: what stands at a place, and how it is written there.
#![tactic(auto)]

ghost use Rattle.std.specs.Prelude.{◌≡◌, ℕ, ◌+◌, ◌≤◌, length, drop};
ghost use Rattle.image_bytes.specs.Bytes.{le, bytes};
ghost use Rattle.image_bytes.specs.InternalPut.{put};

// A number that stands as so many little-endian bytes.
pub trait LittleEndian {
    ghost width: { ℕ };

    ghost number: { Self → ℕ };

    // The number in the bytes from `at` on.
    fn read_at(s: &[u8], at: usize) -> Self
        requires { at + width ≤ length s.now }
        ensures { number result ≡ le width (drop at s.now) };

    // Writes the number as bytes from `at` on.
    fn put_at(self, s: &mut [u8], at: usize)
        requires { at + width ≤ length s.old }
        ensures { s.new ≡ put s.old at (bytes width (number self)) };
}

impl LittleEndian for u8 {
    ghost width = { 1 };

    ghost number = { λ x. x };

    fn read_at(s: &[u8], at: usize) -> u8 {
        s[at]
    }

    fn put_at(self, s: &mut [u8], at: usize) {
        s[at] = self;
    }
}

impl LittleEndian for u16 {
    ghost width = { 2 };

    ghost number = { λ x. x };

    fn read_at(s: &[u8], at: usize) -> u16 {
        u16::from_le_bytes([s[at], s[at + 1]])
    }

    fn put_at(self, s: &mut [u8], at: usize) {
        s[at..at + 2].copy_from_slice(&self.to_le_bytes());
    }
}

impl LittleEndian for u32 {
    ghost width = { 4 };

    ghost number = { λ x. x };

    fn read_at(s: &[u8], at: usize) -> u32 {
        u32::from_le_bytes([s[at], s[at + 1], s[at + 2], s[at + 3]])
    }

    fn put_at(self, s: &mut [u8], at: usize) {
        s[at..at + 4].copy_from_slice(&self.to_le_bytes());
    }
}

impl LittleEndian for u64 {
    ghost width = { 8 };

    ghost number = { λ x. x };

    fn read_at(s: &[u8], at: usize) -> u64 {
        u64::from_le_bytes([
            s[at],
            s[at + 1],
            s[at + 2],
            s[at + 3],
            s[at + 4],
            s[at + 5],
            s[at + 6],
            s[at + 7],
        ])
    }

    fn put_at(self, s: &mut [u8], at: usize) {
        s[at..at + 8].copy_from_slice(&self.to_le_bytes());
    }
}
