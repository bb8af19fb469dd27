// Words of lent arrays. Past the end none is read, and none is written.
use lookahead::Set;

pub fn number_at(words: &[usize], k: usize) -> usize {
    if k < words.len() { words[k] } else { 0 }
}

pub fn put_number(words: &mut [usize], k: usize, n: usize) {
    if k < words.len() {
        words[k] = n;
    }
}

fn word_at(words: &[u64], k: usize) -> u64 {
    if k < words.len() { words[k] } else { 0 }
}

fn put_word(words: &mut [u64], k: usize, w: u64) {
    if k < words.len() {
        words[k] = w;
    }
}

// Set i of a family.
pub fn set_at(sets: &[u64], i: usize) -> Set {
    let mut words = [0u64; 8];
    if i < 512 {
        for k in 0..8 {
            words[k] = word_at(sets, 8 * i + k);
        }
    }
    Set { words }
}

pub fn put_set(sets: &mut [u64], i: usize, set: Set) {
    if i < 512 {
        for k in 0..8 {
            put_word(sets, 8 * i + k, set.words[k]);
        }
    }
}
