//! The other two sorts of columns: categories, whose words have codes in a dictionary, and texts.
#![tactic(auto)]

mod dictionary;
mod dictionary_file;
mod fault;
mod laws;
mod numbers;
#[cfg(test)]
mod tests;
mod text_files;
mod text_reads;
mod text_ref;
mod texts;

pub use dictionary::Dictionary;
pub use dictionary_file::open_dictionary;
pub use fault::{DicFault, TextFault};
pub use laws::{
    codes_and_words, one_dictionary, starts_and_texts, the_faults_of_dictionaries,
    written_texts_open,
};
pub use patterns::like;
pub use text_files::{TextFiles, text_bytes};
pub use text_reads::read_texts;
pub use text_ref::TextRef;
pub use texts::open_text;
