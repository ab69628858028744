// One word, or 0, stored all along a lent slice, and the words of another slice copied to it.
#![tactic(auto)]

ghost use Rattle.std.specs.Prelude.{◌≡◌, ◌-◌, ◌≤◌, length, replicate, take};
ghost use Rattle.std.proofs.lemmas.List.Edits.{sets};

// One word at every place from a start to an end.
pub fn fill(words: &mut [u32], start: usize, end: usize, word: u32)
    ensures { words.new ≡ sets words.old start (replicate (end - start) word) }
{
    for at in start..end {
        logic::put(words, at, word);
    }
}

// 0 in every word.
pub fn clear_words(words: &mut [u32])
    ensures { words.new ≡ replicate (length words.old) 0 }
{
    words.fill(0);
}

// 0 in every byte.
pub fn clear(bytes: &mut [u8])
    ensures { bytes.new ≡ replicate (length bytes.old) 0 }
{
    bytes.fill(0);
}

// The first n words of a slice, copied to another.
pub fn copy(out: &mut [u32], words: &[u32], n: usize)
    ensures { n ≤ length words.now
        → out.new ≡ sets out.old 0 (take n words.now) }
{
    for i in 0..n {
        logic::put(out, i, logic::word_at(words, i));
    }
}
