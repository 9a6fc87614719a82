// The numbers of the book: u16, u32, u64 and i64. The impls of u16, u32 and u64 are alike: an impl by a macro is refused.
ghost use Rattle.std.specs.Prelude.{◌≡◌, ◌+◌, ◌≤◌, ℕ, List, length, take, drop};
ghost use Rattle.std.specs.List.{replace_range};
ghost use Rattle.wire.specs.LittleEndian.{number_at, put_number, signed_at, put_signed};

/// A number in little-endian bytes.
pub trait Number: Copy {
    ghost size: { ℕ };

    ghost at: { List ℕ → ℕ → Self };

    ghost put: { List ℕ → ℕ → Self → List ℕ };

    fn read(s: &[u8], off: usize) -> Self
        requires { off + size ≤ length s.now }
        ensures { result ≡ at s.now off };

    fn write(self, s: &mut [u8], off: usize)
        requires { off + size ≤ length s.old }
        ensures { s.new ≡ put s.old off self };
}

pub fn bytes_at<const N: usize>(s: &[u8], off: usize) -> &[u8; N]
    requires { off + N ≤ length s.now }
    ensures { result.now ≡ take N (drop off s.now) }
{
    s[off..off + N].first_chunk().unwrap()
}

pub fn put_bytes<const N: usize>(s: &mut [u8], off: usize, bytes: &[u8; N])
    requires { off + N ≤ length s.old }
    ensures { s.new ≡ replace_range s.old off (off + N) bytes.now }
{
    s[off..off + N].copy_from_slice(bytes);
}

impl Number for u16 {
    ghost size = { 2 };

    ghost at = { λ xs off. number_at xs off 2 };

    ghost put = { λ xs off n. put_number xs off 2 n };

    fn read(s: &[u8], off: usize) -> u16 {
        u16::from_le_bytes(*bytes_at(s, off))
    }

    fn write(self, s: &mut [u8], off: usize) {
        put_bytes(s, off, &self.to_le_bytes());
    }
}

impl Number for u32 {
    ghost size = { 4 };

    ghost at = { λ xs off. number_at xs off 4 };

    ghost put = { λ xs off n. put_number xs off 4 n };

    fn read(s: &[u8], off: usize) -> u32 {
        u32::from_le_bytes(*bytes_at(s, off))
    }

    fn write(self, s: &mut [u8], off: usize) {
        put_bytes(s, off, &self.to_le_bytes());
    }
}

impl Number for u64 {
    ghost size = { 8 };

    ghost at = { λ xs off. number_at xs off 8 };

    ghost put = { λ xs off n. put_number xs off 8 n };

    fn read(s: &[u8], off: usize) -> u64 {
        u64::from_le_bytes(*bytes_at(s, off))
    }

    fn write(self, s: &mut [u8], off: usize) {
        put_bytes(s, off, &self.to_le_bytes());
    }
}

impl Number for i64 {
    ghost size = { 8 };

    ghost at = { signed_at };

    ghost put = { put_signed };

    fn read(s: &[u8], off: usize) -> i64 {
        u64::read(s, off).cast_signed()
    }

    fn write(self, s: &mut [u8], off: usize) {
        self.cast_unsigned().write(s, off);
    }
}
