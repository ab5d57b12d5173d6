// What a line is made of: words with one blank between two. Each is taken in turn, and `None` says that it is not what has to stand there.
use crate::memory::BYTES;
use std::num::ParseIntError;
use std::str::FromStr;

// What is left of a line; `None` behind its last word.
#[derive(Drop)]
pub struct Words<'a>(Option<&'a str>);

// The decimal digits that a text begins with, and what is behind them. So `parse` finds no sign, which it would take too.
fn split_digits(text: &str) -> Option<(&str, &str)> {
    let end = text.bytes().position(|byte| !byte.is_ascii_digit());
    text.split_at_checked(end.unwrap_or(text.len()))
}

// Stores a number, or several with dots between them, at the front of the room: answers how many, and what is behind them.
fn store_group<'a, T: Copy + FromStr<Err = ParseIntError>>(
    text: &'a str,
    room: &mut [T],
) -> Option<(usize, &'a str)> {
    let mut left = text;
    for (before, place) in room.iter_mut().enumerate() {
        let (digits, behind) = split_digits(left)?;
        *place = digits.parse().ok()?;
        let Some(more) = behind.strip_prefix('.') else {
            return Some((before + 1, behind));
        };
        left = more;
    }
    None
}

// Stores a group as often as a count and a star before it say: it is read once, and behind it each number repeats the one that stands a group before.
// Behind a count of 0 stands none. Most groups are one number and have no count: that number is stored here, as its digits are split off already.
// One loop for all the numbers of a group, in `store_group` alone, was tried, and took up to a seventh longer.
fn store<'a, T: Copy + FromStr<Err = ParseIntError>>(
    text: &'a str,
    room: &mut [T],
) -> Option<(usize, &'a str)> {
    let (digits, behind) = split_digits(text)?;
    if let Some(group) = behind.strip_prefix('*') {
        let count = digits.parse().ok()?;
        if count == 0 {
            return Some((0, group));
        }
        if count > BYTES {
            return None;
        }
        let (once, behind) = store_group(group, room)?;
        let all = room.get_mut(..once.checked_mul(count)?)?;
        for i in once..all.len() {
            all[i] = all[i - once];
        }
        return Some((all.len(), behind));
    }
    let (first, rest) = room.split_first_mut()?;
    *first = digits.parse().ok()?;
    let Some(more) = behind.strip_prefix('.') else {
        return Some((1, behind));
    };
    let (stored, behind) = store_group(more, rest)?;
    Some((stored.checked_add(1)?, behind))
}

impl<'a> Words<'a> {
    pub fn new(line: &'a str) -> Words<'a> {
        Words(Some(line))
    }

    pub fn word(&mut self) -> Option<&'a str> {
        let left = self.0?;
        let (word, behind) = match left.split_once(' ') {
            Some((word, behind)) => (word, Some(behind)),
            None => (left, None),
        };
        self.0 = behind;
        Some(word)
    }

    pub fn number<T: FromStr<Err = ParseIntError>>(&mut self) -> Option<T> {
        let (digits, behind) = split_digits(self.word()?)?;
        behind.is_empty().then_some(())?;
        digits.parse().ok()
    }

    pub fn bar(&mut self) -> Option<()> {
        (self.word()? == "|").then_some(())
    }

    pub fn end(&mut self) -> Option<()> {
        self.0.is_none().then_some(())
    }

    // The contents of a slice, up to a bar: gives the part of the room that they fill.
    pub fn slice<'m, T: Copy + FromStr<Err = ParseIntError>>(
        &mut self,
        room: &'m mut [T],
    ) -> Option<&'m mut [T]> {
        let most = room.len();
        let mut rest = &mut *room;
        let mut left = self.0?;
        // each turn takes a byte or more, so the bar is found if there is one
        for _ in 0..left.len() {
            if left.starts_with('|') {
                break;
            }
            let (stored, behind) = store(left, rest)?;
            rest = rest.get_mut(stored..)?;
            left = behind.strip_prefix(' ')?;
        }
        self.0 = Some(left);
        self.bar()?;
        let filled = most.checked_sub(rest.len())?;
        room.get_mut(..filled)
    }
}
