// A step of a test as a line of a text. What it says is read at run time, so a further line costs
// no proof.

/// What a line says: two words, numbers, a text, and behind ` => [` what is to be told, in
/// brackets.
///
/// Words and numbers stand one space apart. The numbers end before the first word that is none, and
/// what is left is the text; `-` is a text of nothing. Behind `alter` and `rows` all is text: it is
/// SQL. A line that says nothing of what it is to tell is to be `done`.
#[derive(Clone, Copy)]
pub(crate) struct Line {
    pub name: &'static str,
    pub kind: &'static str,
    pub n: [i64; 11],
    pub text: &'static str,
    pub expected: &'static str,
}

fn first_of(words: &'static str) -> (&'static str, &'static str) {
    match words.split_once(' ') {
        Some(both) => both,
        None => (words, ""),
    }
}

// The numbers that words begin with, eleven at most, and what is left of them.
fn numbers_of(words: &'static str) -> ([i64; 11], &'static str) {
    let mut numbers = [0i64; 11];
    let mut left = words;
    for at in 0..11usize {
        let (word, rest) = first_of(left);
        let Ok(number) = word.parse::<i64>() else {
            break;
        };
        numbers[at] = number;
        left = rest;
    }
    (numbers, left)
}

/// The first word of a text and what is behind it, each `-` as nothing.
pub(crate) fn two_texts(words: &'static str) -> (&'static str, &'static str) {
    let (word, rest) = first_of(words);
    (text_of(word), text_of(rest))
}

pub(crate) fn text_of(words: &'static str) -> &'static str {
    if words == "-" { "" } else { words }
}

fn said(asked: &'static str, expected: &'static str) -> Line {
    let (name, rest) = first_of(asked);
    if name == "alter" || name == "rows" {
        return Line {
            name,
            kind: "",
            n: [0; 11],
            text: rest,
            expected,
        };
    }
    let (kind, rest) = first_of(rest);
    let (n, text) = numbers_of(rest);
    Line {
        name,
        kind,
        n,
        text,
        expected,
    }
}

/// What a line says.
pub(crate) fn read_line(line: &'static str) -> Line {
    match line.split_once(" => [") {
        Some((asked, told)) => said(asked, told.strip_suffix(']').unwrap_or("no bracket")),
        None => said(line, "done"),
    }
}
