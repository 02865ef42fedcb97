ghost use Rattle.std.specs.Prelude.{◌≡◌, ◌≤◌, ◌+◌, ◌++◌, length, take, drop};
ghost use Rattle.core_words.specs.Words.{le_bytes, word_from};

/// The 32-bit word in the four bytes from place `at` on, the lowest byte first.
pub fn word_le(bytes: &[u8], at: usize) -> u32
    requires { at + 4 ≤ length bytes.now }
    ensures { result ≡ word_from bytes.now at }
{
    u32::from_le_bytes([bytes[at], bytes[at + 1], bytes[at + 2], bytes[at + 3]])
}

/// Puts a 32-bit word into the four bytes from place `at` on, the lowest byte first.
pub fn put_le(bytes: &mut [u8], at: usize, word: u32)
    requires { at + 4 ≤ length bytes.old }
    ensures put { bytes.new ≡ take at bytes.old ++ le_bytes word ++ drop (at + 4) bytes.old }
    ensures read { word_from bytes.new at ≡ word }
{
    bytes[at..at + 4].copy_from_slice(&word.to_le_bytes());
}
