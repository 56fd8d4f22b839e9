//! What the tests share: words, and the frames of a file.
use std::alloc::Global;

// Adds a word, if there is memory.
fn add_word(alloc: Global, words: &mut Vec<String>, word: &str) {
    if let Ok(word) = String::from_str(alloc, word) {
        let _added = words.push(word);
    }
}

/// Words that are separated by spaces; a word for which there is no memory is left out.
pub(crate) fn words_of(alloc: Global, line: &str) -> Vec<String> {
    let mut words = Vec::new(alloc);
    for word in line.split_whitespace() {
        add_word(alloc, &mut words, word);
    }
    words
}

/// So many bytes of stereo frames that are numbered from 1, or as many as there is memory for.
pub(crate) fn numbered(alloc: Global, length: usize) -> Vec<u8> {
    let mut bytes = Vec::new(alloc);
    for i in 0..length {
        let number = (i / 4 % 255) as u8 + 1;
        let _added = bytes.push(if i % 2 == 0 { number } else { 0 });
    }
    bytes
}
