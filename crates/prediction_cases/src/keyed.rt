//! What words give under names, as `trip T1 date 20231114`.

use std::str::FromStr;

/// The word behind a name.
pub fn text_at<'a>(words: &'a [String], name: &str) -> Option<&'a str> {
    let mut is_named = false;
    for word in words {
        if is_named {
            return Some(word.as_str());
        }
        is_named = word.as_str() == name;
    }
    None
}

/// The number that the word behind a name spells.
pub fn number_at<T: FromStr>(words: &[String], name: &str) -> Option<T>
where
    <T as FromStr>::Err: Drop,
{
    match text_at(words, name) {
        Some(text) => text.parse().ok(),
        None => None,
    }
}
