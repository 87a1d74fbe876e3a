//! Texts as numbers.
//!
//! A text is a list of at most 65,535 bytes. Both tables find the bucket of a text by one hash of its
//! bytes (`hash`). By seed 0 that is the polynomial of 31 that HotSpot uses for the bytes of a symbol
//! (`classfile/javaClasses.hpp`, `java_lang_String::hash_code`). By any other seed it is a mixture, which
//! parts texts that were made to have one polynomial. A table in shared memory holds a text as words of
//! 64 bits (`words`), and compares it word by word.
#![tactic(auto)]

pub mod hash;
pub mod laws;
pub mod words;

pub use hash::{hash_of, hash31};
pub use words::{equal_word, pack, unpack, word_at, words_of};
