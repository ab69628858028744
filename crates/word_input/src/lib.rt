// Words from standard input, little-endian, for the test programs.
#![tactic(auto)]

// The file descriptor of standard input.
const STDIN_FILENO: i32 = 0;

// The next word of the input, if there is one.
pub fn next_word() -> Option<u32> {
    let mut bytes = [0u8; 4];
    if io::read_full(STDIN_FILENO, &mut bytes) < 4 {
        return None;
    }
    Some(u32::from_le_bytes(bytes))
}

// The next word, or 0 at the end.
pub fn word_or_zero() -> u32 {
    next_word().unwrap_or(0)
}

// The next n words of the input, stored from the start on.
pub fn load(words: &mut [u32], n: usize) {
    for at in 0..n {
        let Some(word) = next_word() else {
            return;
        };
        logic::put(words, at, word);
    }
}
