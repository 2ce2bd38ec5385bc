//! Words and numbers of a case.
use std::alloc::Global;
use std::fmt::Debug;
use std::test::Fail;

/// The first words of a text, as numbers.
pub fn numbers_in<const N: usize>(text: &str) -> Result<[u32; N], Fail> {
    let mut numbers = [0; N];
    let mut words = text.split_ascii_whitespace();
    for slot in &mut numbers {
        let word = words.next().ok_or("too few numbers")?;
        *slot = word.parse::<u32>()?;
    }
    Ok(numbers)
}

/// All words of a text, as numbers; the one word `empty` stands for no number.
pub fn list_in(alloc: Global, text: &str) -> Result<Vec<u32>, Fail> {
    let mut numbers = Vec::new(alloc);
    if text == "empty" {
        return Ok(numbers);
    }
    for word in text.split_ascii_whitespace() {
        numbers.push(word.parse::<u32>()?)?;
    }
    Ok(numbers)
}

/// The text before the first bar and the one behind it.
pub fn apart(text: &str) -> Result<(&str, &str), Fail> {
    Ok(text.split_once(" | ").ok_or("no bar")?)
}

/// A text's first word and what is behind it.
pub fn word_and_rest(text: &str) -> Result<(&str, &str), Fail> {
    Ok(text.split_once(' ').ok_or("one word")?)
}

/// A value in words.
pub fn shown<T: Debug>(alloc: Global, value: &T) -> Result<String, Fail> {
    Ok(format!(in alloc; "{value:?}")?)
}
