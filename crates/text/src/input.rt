// The input: bytes, and the words that they stand for.
ghost use Rattle.std.specs.Prelude.{◌≡◌, ◌+◌, ◌*◌, ◌≤◌, ◌<◌, length, take, get_or};
ghost use Rattle.text.specs.Input.{wrong_bytes, word_of_bytes, words_of_bytes};

// "11: more than 6,288 bytes"
pub const MAX_BYTES: usize = 6288;

// Whether so many bytes are refused.
pub fn wrong_bytes(n: usize) -> bool
    ensures { result ≡ wrong_bytes n }
{
    (MAX_BYTES < n) | !(n % 4 == 0)
}

// A byte as a number of 32 bits.
fn wide(byte: u8) -> u32
    ensures { (result ≡ byte) × (result < 256) }
{
    byte as u32
}

// The word whose lowest byte is at a place.
fn word_at(bytes: &[u8], i: usize) -> u32
    requires { i + 3 < length bytes.now }
    ensures { result ≡ word_of_bytes (get_or bytes.now i 0) (get_or bytes.now (i + 1) 0) (get_or bytes.now (i + 2) 0) (get_or bytes.now (i + 3) 0) }
{
    let a = wide(bytes[i]);
    let b = wide(bytes[i + 1]);
    let c = wide(bytes[i + 2]);
    let d = wide(bytes[i + 3]);
    a + 256 * b + 65536 * c + 16777216 * d
}

// Puts the words of bytes into the first of the lent words, and answers how many there are.
pub fn read_words(bytes: &[u8], words: &mut [u32]) -> usize
    requires { length bytes.now ≤ 4 * length words.old }
    ensures { (result ≤ length words.new) × (take result words.new ≡ words_of_bytes bytes.now) }
{
    let n = bytes.len() / 4;
    for i in 0..n {
        words[i] = word_at(bytes, 4 * i);
    }
    n
}
