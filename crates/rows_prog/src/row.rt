//! A row: its lines are done one after the other, each step once the next one begins.

use crate::bytes::{add_said, add_stream, part_of};
use crate::line::{Begun, Line, Said, read_line};
use crate::running::{put_file, run};
use crate::stop::{Stop, compare_bytes, differ, no_line};
use host_io::MemoryFiles;
use std::alloc::{AllocError, Global};

/// What a row does or asks next.
#[derive(Drop)]
enum Step {
    Nothing,
    File(String),
    Is(String),
    Has(String, usize),
    Absent(String),
    Run(String),
}

/// The bytes that lines say, and from which place on the next ones stand, where it isn't the end.
#[derive(Drop)]
struct Written {
    bytes: Vec<u8>,
    place: Option<usize>,
}

/// What a program reads, what it prints and with which status it ends.
#[derive(Drop)]
struct Streams {
    input: Vec<u8>,
    output: Vec<u8>,
    status: u8,
}

/// The files of a row, and its next step with what the lines behind it say.
#[derive(Drop)]
struct Row {
    alloc: Global,
    files: MemoryFiles,
    step: Step,
    written: Written,
    streams: Streams,
}

fn step_of(alloc: Global, begun: &Begun<'_>) -> Result<Step, AllocError> {
    match *begun {
        Begun::File(name) => Ok(Step::File(String::from_str(alloc, name)?)),
        Begun::Is(name) => Ok(Step::Is(String::from_str(alloc, name)?)),
        Begun::Has(name, at) => Ok(Step::Has(String::from_str(alloc, name)?, at)),
        Begun::Absent(name) => Ok(Step::Absent(String::from_str(alloc, name)?)),
        Begun::Run(words) => Ok(Step::Run(String::from_str(alloc, words)?)),
    }
}

impl Written {
    fn new(alloc: Global) -> Written {
        Written {
            bytes: Vec::new(alloc),
            place: None,
        }
    }

    // Puts more bytes behind those before, over what stands there.
    fn put(&mut self, more: &[u8]) -> Result<(), AllocError> {
        let Some(at) = self.place else {
            return self.bytes.extend_from_slice(more);
        };
        for (i, byte) in more.iter().enumerate() {
            self.put_at(at.saturating_add(i), *byte)?;
        }
        self.place = Some(at.saturating_add(more.len()));
        Ok(())
    }

    // Puts a byte in a place, or at the end.
    fn put_at(&mut self, at: usize, byte: u8) -> Result<(), AllocError> {
        match self.bytes.get_mut(at) {
            Some(place) => *place = byte,
            None => self.bytes.push(byte)?,
        }
        Ok(())
    }
}

impl Streams {
    fn new(alloc: Global) -> Streams {
        Streams {
            input: Vec::new(alloc),
            output: Vec::new(alloc),
            status: 0,
        }
    }
}

impl Row {
    fn new(alloc: Global) -> Row {
        Row {
            alloc,
            files: MemoryFiles::new(alloc, Vec::new(alloc), Vec::new(alloc)),
            step: Step::Nothing,
            written: Written::new(alloc),
            streams: Streams::new(alloc),
        }
    }

    // Does the next line. One that is empty or a comment is nothing.
    fn read(&mut self, line: &str) -> Result<(), Stop> {
        if line.is_empty() || line.starts_with('#') {
            return Ok(());
        }
        match read_line(line) {
            Some(read) if self.expects(&read) => self.take(&read),
            _ => Err(no_line(self.alloc, line)),
        }
    }

    // Whether a line that begins no step belongs to the one that was begun.
    fn expects(&self, line: &Line<'_>) -> bool {
        match (line, &self.step) {
            (Line::Begins(_), _) => true,
            (Line::Says(_), Step::File(_) | Step::Is(_) | Step::Has(_, _)) => true,
            (Line::At(place), Step::File(_) | Step::Is(_) | Step::Has(_, _)) => {
                *place <= self.written.bytes.len()
            }
            (Line::Reads(_) | Line::Prints(_) | Line::Ends(_), Step::Run(_)) => true,
            _ => false,
        }
    }

    fn take(&mut self, line: &Line<'_>) -> Result<(), Stop> {
        match line {
            Line::Begins(begun) => {
                self.finish()?;
                self.step = step_of(self.alloc, begun)?;
            }
            Line::Says(said) => self.say(said)?,
            Line::At(place) => self.written.place = Some(*place),
            Line::Reads(stream) => add_stream(
                self.alloc,
                &self.files,
                &mut self.streams.input,
                stream,
            )?,
            Line::Prints(stream) => add_stream(
                self.alloc,
                &self.files,
                &mut self.streams.output,
                stream,
            )?,
            Line::Ends(status) => self.streams.status = *status,
        }
        Ok(())
    }

    fn say(&mut self, said: &Said<'_>) -> Result<(), Stop> {
        let mut bytes = Vec::new(self.alloc);
        add_said(self.alloc, &self.files, &mut bytes, said)?;
        self.written.put(bytes.as_slice())?;
        Ok(())
    }

    // Does the step that was begun, if there is one.
    fn finish(&mut self) -> Result<(), Stop> {
        let step = std::mem::replace(&mut self.step, Step::Nothing);
        let written = std::mem::replace(&mut self.written, Written::new(self.alloc));
        let streams = std::mem::replace(&mut self.streams, Streams::new(self.alloc));
        let bytes = written.bytes.as_slice();
        match &step {
            Step::Nothing => Ok(()),
            Step::File(name) => put_file(&mut self.files, name.as_str(), bytes),
            Step::Is(name) => self.compare_file(name.as_str(), bytes),
            Step::Has(name, at) => self.compare_part(name.as_str(), *at, bytes),
            Step::Absent(name) => self.miss(name.as_str()),
            Step::Run(line) => self.run(line.as_str(), streams),
        }
    }

    fn compare_file(&self, name: &str, wanted: &[u8]) -> Result<(), Stop> {
        match self.files.get(name) {
            Some(found) => compare_bytes(self.alloc, name, wanted, found),
            None => Err(differ(self.alloc, name, "a file", "no file")?),
        }
    }

    fn compare_part(&self, name: &str, at: usize, wanted: &[u8]) -> Result<(), Stop> {
        match part_of(self.files.get(name).unwrap_or(&[]), at, wanted.len()) {
            Some(found) => compare_bytes(self.alloc, name, wanted, found),
            None => Err(differ(self.alloc, name, "more bytes", "fewer bytes")?),
        }
    }

    fn miss(&self, name: &str) -> Result<(), Stop> {
        match self.files.get(name) {
            Some(_) => Err(differ(self.alloc, name, "no file", "a file")?),
            None => Ok(()),
        }
    }

    fn run(&mut self, line: &str, streams: Streams) -> Result<(), Stop> {
        let ended = run(self.alloc, &mut self.files, line, streams.input)?;
        if ended.status == streams.status && ended.printed == streams.output {
            return Ok(());
        }
        let wanted = end_of(self.alloc, streams.output.as_slice(), streams.status)?;
        let found = end_of(self.alloc, ended.printed.as_slice(), ended.status)?;
        Err(differ(self.alloc, line, wanted.as_str(), found.as_str())?)
    }
}

// What was printed, and the status.
fn end_of(alloc: Global, printed: &[u8], status: u8) -> Result<String, AllocError> {
    let text = str::from_utf8(printed).unwrap_or("bytes that are no text\n");
    format!(in alloc; "{text}status {status}")
}

/// Does the lines of these texts, one behind the other, and says where they don't hold.
pub fn try_row(alloc: Global, texts: [&str; 3]) -> Result<(), Stop> {
    let mut row = Row::new(alloc);
    for text in texts {
        for line in text.split('\n') {
            row.read(line)?;
        }
        row.finish()?;
    }
    Ok(())
}
