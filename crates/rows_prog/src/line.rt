//! The lines of rows, by their first words.

/// What a line says of bytes, with the words that say it.
#[derive(Clone, Copy)]
pub enum Said<'a> {
    /// Pairs of hexadecimal digits, with blanks between some of them.
    Hex(&'a str),
    Text(&'a str),
    /// A text and its line's end.
    Line(&'a str),
    /// So many times the bytes of these digits.
    Times(usize, &'a str),
    All(&'a str),
    /// So many bytes of a file: its name, a place and a number.
    Part(&'a str, usize, usize),
}

/// What a program reads or prints.
#[derive(Clone, Copy)]
pub enum Stream<'a> {
    /// So many times this line.
    Lines(usize, &'a str),
    /// All bytes of a file.
    All(&'a str),
}

/// What a line does or asks, before the lines behind it say bytes or streams.
#[derive(Clone, Copy)]
pub enum Begun<'a> {
    File(&'a str),
    Is(&'a str),
    Has(&'a str, usize),
    Absent(&'a str),
    /// The words of a command, the program's name first.
    Run(&'a str),
}

/// A line of a row.
#[derive(Clone, Copy)]
pub enum Line<'a> {
    Begins(Begun<'a>),
    Says(Said<'a>),
    /// What follows stands from this place on.
    At(usize),
    Reads(Stream<'a>),
    Prints(Stream<'a>),
    Ends(u8),
}

/// A name and two numbers.
fn name_and_range(words: &str) -> Option<Said<'_>> {
    let (name, range) = words.split_once(' ')?;
    let (at, count) = range.split_once(' ')?;
    Some(Said::Part(name, at.parse().ok()?, count.parse().ok()?))
}

/// The bytes of a file, all or a part, as braces name them too.
pub fn piece(words: &str) -> Option<Said<'_>> {
    if words.contains(' ') {
        name_and_range(words)
    } else {
        Some(Said::All(words))
    }
}

fn read_said<'a>(word: &str, rest: &'a str) -> Option<Said<'a>> {
    match word {
        "hex" => Some(Said::Hex(rest)),
        "text" => Some(Said::Text(rest)),
        "line" => Some(Said::Line(rest)),
        "times" => {
            let (count, digits) = rest.split_once(' ')?;
            Some(Said::Times(count.parse().ok()?, digits))
        }
        "all" => Some(Said::All(rest)),
        "part" => name_and_range(rest),
        _ => None,
    }
}

fn read_begun<'a>(word: &str, rest: &'a str) -> Option<Begun<'a>> {
    match word {
        "file" => Some(Begun::File(rest)),
        "is" => Some(Begun::Is(rest)),
        "has" => {
            let (name, at) = rest.split_once(' ')?;
            Some(Begun::Has(name, at.parse().ok()?))
        }
        "none" => Some(Begun::Absent(rest)),
        "run" => Some(Begun::Run(rest)),
        _ => None,
    }
}

/// What stands behind a mark: a number of lines, or an equals sign.
fn read_stream<'a>(behind: &str, rest: &'a str) -> Option<Stream<'a>> {
    match behind {
        "" => Some(Stream::Lines(1, rest)),
        "=" => Some(Stream::All(rest)),
        _ => Some(Stream::Lines(behind.parse().ok()?, rest)),
    }
}

/// The line by its first word, if it is one.
pub fn read_line(line: &str) -> Option<Line<'_>> {
    let (word, rest) = line.split_once(' ').unwrap_or((line, ""));
    if let Some(behind) = word.strip_prefix('<') {
        return Some(Line::Reads(read_stream(behind, rest)?));
    }
    if let Some(behind) = word.strip_prefix('>') {
        return Some(Line::Prints(read_stream(behind, rest)?));
    }
    match word {
        "at" => Some(Line::At(rest.parse().ok()?)),
        "status" => Some(Line::Ends(rest.parse().ok()?)),
        _ => match read_begun(word, rest) {
            Some(begun) => Some(Line::Begins(begun)),
            None => Some(Line::Says(read_said(word, rest)?)),
        },
    }
}
