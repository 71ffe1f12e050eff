// Lists of vectors: one byte string each, walked by one function, since each call and each function adds to the check's time. A row has
// what is asked (a letter), the settings, a place and a number of repetitions; the counts of the octets of its name, of those that are
// given and of those expected; and these octets. A list has a width and a limit for all its rows, which only the two ends look at.
ghost use Rattle.std.specs.Prelude.{◌<◌, length, IfSome};

use crate::answers::Answers;
use crate::{check_sequence, code_blocks, two_ends};
use lines::Page;
use std::io::Print;

// asked: a letter, and no enum of its own, since each has its meaning in the one place that answers it.
#[derive(Clone, Copy)]
pub(crate) struct Row<'a> {
    pub(crate) asked: u8,
    pub(crate) settings: u8,
    pub(crate) width: u8,
    pub(crate) limit: u16,
    pub(crate) at: u8,
    pub(crate) again: u8,
    name: &'a [u8],
    pub(crate) given: &'a [u8],
    expected: &'a [u8],
}

pub(crate) fn compare_all<R: Print>(rt: &R, width: u8, limit: u16, rows: &[u8]) {
    let mut left = rows;
    while let Some((row, rest)) = split_row(left, width, limit) {
        compare(rt, &row);
        left = rest;
    }
}

// The first row, and what is behind it; none at the list's end, or where the row is cut short.
fn split_row(rows: &[u8], width: u8, limit: u16) -> Option<(Row<'_>, &[u8])>
    ensures { IfSome result (λ split. length split.1.now < length rows.now) }
{
    let [
        asked,
        settings,
        at,
        again,
        name,
        given,
        expected,
        behind @ ..,
    ] = rows
    else {
        return None;
    };
    let (name, behind) = behind.split_at_checked(*name as usize)?;
    let (given, behind) = behind.split_at_checked(*given as usize)?;
    let (expected, behind) = behind.split_at_checked(*expected as usize)?;
    let row = Row {
        asked: *asked,
        settings: *settings,
        width,
        limit,
        at: *at,
        again: *again,
        name,
        given,
        expected,
    };
    Some((row, behind))
}

// ok or WRONG, the name and of which octets, and the answer; where it is wrong, also the one expected.
fn compare<R: Print>(rt: &R, row: &Row) {
    let answers = answer(row);
    let right = answers.as_slice() == row.expected;
    let _ = rt.write_all(if right { b"ok    " } else { b"WRONG " });
    write(rt, row.name, row.given);
    write(rt, b":", answers.as_slice());
    if !right {
        write(rt, b", not", row.expected);
    }
    let _ = rt.write_all(b"\n");
}

fn answer(row: &Row) -> Answers {
    match row.asked {
        b'e' | b'f' | b'r' | b'g' | b'E' | b'F' | b'N' | b'Q' | b'G' => check_sequence::answer(row),
        b'S' | b'H' | b'T' => two_ends::sent(row),
        b'R' | b'A' | b'L' => two_ends::received(row),
        _ => code_blocks::answer(row),
    }
}

// Words, and octets in hexadecimal.
fn write<R: Print>(rt: &R, words: &[u8], list: &[u8]) {
    let mut area = [0u8; 1024];
    let mut page = Page {
        area: &mut area,
        filled: 0,
    };
    page.text(words);
    page.octets(list);
    let _ = rt.write_all(page.written());
}
