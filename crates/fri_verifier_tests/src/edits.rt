//! Texts that were changed at a place or two.
use std::alloc::Global;
use std::test::Fail;

/// The text without its ends of lines.
pub fn on_one_line(alloc: Global, text: &str) -> Result<String, Fail> {
    let mut whole = String::new(alloc);
    for line in text.lines() {
        whole.push_str(line)?;
    }
    Ok(whole)
}

/// The text with each edit's first part replaced by its second, once: ` > ` stands between the
/// parts, ` & ` between edits.
pub fn edited(alloc: Global, text: &str, edits: &str) -> Result<String, Fail> {
    let mut text = String::from_str(alloc, text)?;
    for edit in edits.split(" & ") {
        let (from, to) = edit.split_once(" > ").ok_or("an edit of nothing")?;
        if !text.contains(from) {
            return Err(Fail::new("an edit of what isn't there"));
        }
        text = text.replacen(alloc, from, to, 1)?;
    }
    Ok(text)
}
