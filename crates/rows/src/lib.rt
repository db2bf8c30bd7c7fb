// Rows of words in lent tables: a word is read, a word is written, a whole table is cleared. The tables of the crates above are made of these.
#![tactic(auto)]

ghost use Rattle.std.specs.Prelude.{◌≡◌, ℕ, ◌<◌, length, get_or};
ghost use Rattle.protocol.specs.Folds.{update2};
ghost use Rattle.rows.specs.Rows.{cell, RowIn};

// Word k of a row, in a table whose rows are so wide.
pub fn word_at(words: &[u64], width: usize, row: usize, k: usize) -> u64
    requires { RowIn width words.now row × (k < width) }
    ensures { result ≡ cell width words.now row k }
{
    words[row * width + k]
}

// Another word there.
pub fn put_word(words: &mut [u64], width: usize, row: usize, k: usize, word: u64)
    requires { RowIn width words.old row × (k < width) }
    ensures words_after { cell width words.new ≡ update2 (cell width words.old) row k word }
    ensures words_len_unchanged { length words.new ≡ length words.old }
{
    let at = row * width + k;
    words[at] = word;
}

// Every word is 0.
pub fn clear(words: &mut [u64])
    ensures by_index { (k : ℕ) → get_or words.new k 0 ≡ 0 }
    ensures words_len_unchanged { length words.new ≡ length words.old }
{
    words.fill(0);
}
