// Little-endian numbers and unused bytes.
ghost use Rattle.std.specs.Prelude.{◌+◌, ◌<◌, ◌≤◌, ◌≡◌, length, drop};
ghost use Rattle.fields.specs.Bytes.{number2, number4, number8, all_zero};

// The number in the two bytes from k on.
#[tactic(auto, unfolding(crate::specs::Bytes::number2))]
pub fn number2(s: &[u8], k: usize) -> u32
    requires { k + 2 ≤ length s.now }
    ensures { (result ≡ number2 s.now k) × (result < 65536) }
{
    u32::from(u16::from_le_bytes([s[k], s[k + 1]]))
}

// The number in the four bytes from k on.
pub fn number4(s: &[u8], k: usize) -> u32
    requires { k + 4 ≤ length s.now }
    ensures { result ≡ number4 s.now k }
{
    u32::from_le_bytes([s[k], s[k + 1], s[k + 2], s[k + 3]])
}

// The number in the eight bytes from k on: u64::from_le_bytes would take a list of eight elements.
pub fn number8(s: &[u8], k: usize) -> u64
    requires { k + 8 ≤ length s.now }
    ensures { result ≡ number8 s.now k }
{
    u64::from(number4(s, k)) + u64::from(number4(s, k + 4)) * 4294967296
}

// The bytes from k on are zero.
fn rest_zero(s: &[u8], k: usize) -> bool
    requires { k ≤ length s.now }
    ensures { result ≡ all_zero (drop k s.now) }
{
    for i in k..s.len() {
        if s[i] != 0 {
            return false;
        }
    }
    true
}

// Unused bytes are zero: eight at a time, then those that are left.
pub fn all_zero(s: &[u8]) -> bool
    ensures { result ≡ all_zero s.now }
{
    let words = s.len() / 8;
    for j in 0..words {
        if number8(s, 8 * j) != 0 {
            return false;
        }
    }
    rest_zero(s, 8 * words)
}
