//! Tables of words.

/// What the table says of a word: `word_table!(word; b"first" => value, b"second" => value)`.
#[macro_export]
macro_rules! word_table {
    ($word:expr;) => {
        None
    };
    ($word:expr; $text:literal => $value:expr $(, $texts:literal => $values:expr)*) => {
        if $word == $text.as_slice() {
            Some($value)
        } else {
            $crate::word_table!($word; $($texts => $values),*)
        }
    };
}
