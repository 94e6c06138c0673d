//! Lists of channels, as the command line has them.

use std::alloc::{AllocError, Global};

/// The number that one or two ASCII digits write.
fn number(digits: &str) -> Option<u8> {
    let is_short = digits.len() == 1 || digits.len() == 2;
    if is_short && digits.bytes().all(|digit| digit.is_ascii_digit()) {
        digits.parse::<u8>().ok()
    } else {
        None
    }
}

/// The first and the last number of an item: `n`, or `a-b` where a is not above b.
fn ends_of(item: &str) -> Option<(u8, u8)> {
    let (first, last) = match item.split_once('-') {
        Some((first, last)) => (number(first)?, number(last)?),
        None => (number(item)?, number(item)?),
    };
    if first <= last {
        Some((first, last))
    } else {
        None
    }
}

/// The numbers that a list names, in its order: `none`, or items separated by commas, each `n` or a range `a-b` of
/// all numbers from a to b. Numbers have one or two digits. None where the text has another form.
pub(crate) fn channel_numbers(alloc: Global, list: &str) -> Result<Option<Vec<u8>>, AllocError> {
    let mut numbers = Vec::new(alloc);
    if list == "none" {
        return Ok(Some(numbers));
    }
    for item in list.split(',') {
        let Some((first, last)) = ends_of(item) else {
            return Ok(None);
        };
        numbers.extend(first..=last)?;
    }
    Ok(Some(numbers))
}
