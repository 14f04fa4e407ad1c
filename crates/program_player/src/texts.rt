//! Texts and words that are found by their names.

/// The text of a name in these texts. Each begins with a line of `== `, its name and, where it has one, a
/// remark after `: `.
pub fn named_in(texts: &'static str, name: &str) -> Option<&'static str> {
    for part in texts.split("== ") {
        if let Some((head, text)) = part.split_once('\n') {
            if is_named(head, name) {
                return Some(text);
            }
        }
    }
    None
}

/// Whether a case's head has this name; a remark may follow it after a colon.
fn is_named(head: &str, name: &str) -> bool {
    match head.split_once(": ") {
        Some((named, _remark)) => named == name,
        None => head == name,
    }
}

/// Whether a word is one of these, between which spaces stand.
pub fn is_one_of(words: &str, word: &str) -> bool {
    words.split(' ').any(|known| known == word)
}
