//! A row, as it is read line by line.
//!
//! A line is `$ WORDS` for a call, `@ MOST READ PUT SAID IDLE` for objects that take so many bytes a call and fail at these
//! calls, the last of which takes nothing, `^ MOST` for calls over such objects that fail at each of their calls in turn,
//! `^ fronts` for calls over each front of the text, which are refused, `> TEXT` for a line that is written on `out` and
//! `| TEXT` for one without its end, `! TEXT` and `~ TEXT` for the same on `err`, `* COUNT TEXT` and `+ TEXT` for what is
//! put behind the text as it is, `& FROM END TEXT` for what is put there once for each number from the first and below the
//! second, which stands at each `@` of it, and `# TEXT` for a remark.
//! `h TEXT` is a line of the history, the file `h`, which is there only where a row has some of it, and `% COUNT TEXT`
//! is put behind it so many times as it is. `= STATUS`, with `steps N` and `cells N` behind it where they matter, ends
//! the row, and `? STATUS` ends one of which only the status matters. Any other line behind a call is one of the text.
use crate::setting::{Files, Setting};
use std::alloc::{AllocError, Global};

/// A row that is being read, and how many there were.
pub struct Row {
    alloc: Global,
    text: Vec<u8>,
    is_begun: bool,
    history: Vec<u8>,
    has_history: bool,
    /// The words of its calls, a line each.
    pub words: Vec<String>,
    /// How the objects of its calls behave.
    pub settings: Vec<Setting>,
    /// How many bytes a call moves of those that fail in turn.
    pub failing: Vec<u64>,
    /// Whether each front of the text is to be refused.
    pub has_fronts: bool,
    /// What is due on `out`.
    pub out: Vec<u8>,
    /// What is due on `err`.
    pub err: Vec<u8>,
    /// The rows that are over.
    pub rows: u64,
    /// The calls that were made.
    pub calls: u64,
}

impl Drop for Row {
    fn drop(self) {
        let Row {
            alloc: _,
            text,
            is_begun: _,
            history,
            has_history: _,
            words,
            settings,
            failing,
            has_fronts: _,
            out,
            err,
            rows: _,
            calls: _,
        } = self;
        drop(text);
        drop(history);
        drop(words);
        drop(settings);
        drop(failing);
        drop(out);
        drop(err);
    }
}

/// What a line of a row says.
#[derive(Clone, Copy)]
pub enum Line<'a> {
    /// It is part of the row.
    Part,
    /// It ends the row: how its calls end, and whether what they write matters.
    End(&'a str, bool),
}

/// The number that these digits are, up to 2^64 - 1.
pub fn number(digits: &str) -> u64 {
    let mut number = 0u64;
    for digit in digits.bytes() {
        number = number
            .saturating_mul(10)
            .saturating_add(u64::from(digit.saturating_sub(b'0')));
    }
    number
}

// The number that these bytes are, or 0.
fn digits(bytes: &[u8]) -> u64 {
    number(str::from_utf8(bytes).unwrap_or(""))
}

// Puts a line behind a file.
fn put_line(file: &mut Vec<u8>, line: &[u8]) -> Result<(), AllocError> {
    file.extend_from_slice(line)?;
    file.push(b'\n')?;
    Ok(())
}

// A part's front up to a blank, and what stands behind that.
fn cut(part: &[u8]) -> (&[u8], &[u8]) {
    let at = part.iter().position(|b| *b == b' ').unwrap_or(part.len());
    let (front, rest) = part.split_at(at);
    (front, rest.get(1..).unwrap_or(rest))
}

// Puts a part behind a file, so many times.
fn repeat(file: &mut Vec<u8>, words: &[u8]) -> Result<(), AllocError> {
    let (count, part) = cut(words);
    for _ in 0..digits(count) {
        file.extend_from_slice(part)?;
    }
    Ok(())
}

// Puts a part behind a file with this number at each `@`.
fn put_numbered(file: &mut Vec<u8>, part: &[u8], number: &str) -> Result<(), AllocError> {
    for byte in part {
        if *byte == b'@' {
            file.extend_from_slice(number.as_bytes())?;
        } else {
            file.push(*byte)?;
        }
    }
    Ok(())
}

// Puts a part behind a file for each number from the first and below the second.
fn repeat_numbered(alloc: Global, file: &mut Vec<u8>, words: &[u8]) -> Result<(), AllocError> {
    let (from, words) = cut(words);
    let (end, part) = cut(words);
    for each in digits(from)..digits(end) {
        let each = format!(in alloc; "{each}")?;
        put_numbered(file, part, each.as_str())?;
    }
    Ok(())
}

// The setting that these words tell.
fn setting_of(words: &str) -> Setting {
    let mut numbers = [0u64; 5];
    for (place, word) in numbers.iter_mut().zip(words.split_whitespace()) {
        *place = number(word);
    }
    let [most, read, put, said, idle] = numbers;
    Setting {
        most,
        read,
        put,
        said,
        idle,
    }
}

impl Row {
    /// No row so far.
    pub fn new(alloc: Global) -> Self {
        Row {
            alloc,
            text: Vec::new(alloc),
            is_begun: false,
            history: Vec::new(alloc),
            has_history: false,
            words: Vec::new(alloc),
            settings: Vec::new(alloc),
            failing: Vec::new(alloc),
            has_fronts: false,
            out: Vec::new(alloc),
            err: Vec::new(alloc),
            rows: 0,
            calls: 0,
        }
    }

    /// The row is over, and the next begins.
    pub fn clear(&mut self) {
        self.rows = self.rows.saturating_add(1);
        self.text.clear();
        self.is_begun = false;
        self.history.clear();
        self.has_history = false;
        self.words.clear();
        self.settings.clear();
        self.failing.clear();
        self.has_fronts = false;
        self.out.clear();
        self.err.clear();
    }

    /// The files of its calls.
    pub fn files(&self) -> Files<'_> {
        Files {
            text: self.text.as_slice(),
            history: if self.has_history {
                Some(self.history.as_slice())
            } else {
                None
            },
        }
    }

    // Puts a line behind the text, if there is a call.
    fn put(&mut self, line: &[u8]) -> Result<(), AllocError> {
        if self.words.is_empty() {
            return Ok(());
        }
        if self.is_begun {
            self.text.push(b'\n')?;
        }
        self.is_begun = true;
        self.text.extend_from_slice(line)
    }

    // Puts a part behind the text or the history, as its kind of line says.
    fn put_part(&mut self, kind: u8, part: &[u8]) -> Result<(), AllocError> {
        match kind {
            b'h' => {
                self.has_history = true;
                put_line(&mut self.history, part)
            }
            b'%' => {
                self.has_history = true;
                repeat(&mut self.history, part)
            }
            b'*' => {
                self.is_begun = true;
                repeat(&mut self.text, part)
            }
            b'&' => {
                self.is_begun = true;
                repeat_numbered(self.alloc, &mut self.text, part)
            }
            _ => {
                self.is_begun = true;
                self.text.extend_from_slice(part)
            }
        }
    }

    // Adds a call with these words.
    fn add_call(&mut self, words: &str) -> Result<(), AllocError> {
        self.words.push(String::from_str(self.alloc, words)?)?;
        Ok(())
    }

    /// Takes a line, and tells whether it ends the row. The calls of a row that names no setting move up to 4,096 bytes at a time.
    ///
    /// # Errors
    /// Where memory is wanting.
    pub fn take<'a>(&mut self, line: &'a [u8]) -> Result<Line<'a>, AllocError> {
        let (kind, rest) = match line {
            [kind, b' ', rest @ ..] => (*kind, rest),
            _ => (b' ', line),
        };
        let said = str::from_utf8(rest).unwrap_or("");
        match kind {
            b'$' => self.add_call(said)?,
            b'@' => self.settings.push(setting_of(said))?,
            b'^' if rest == b"fronts".as_slice() => self.has_fronts = true,
            b'^' => self.failing.push(number(said))?,
            b'>' => put_line(&mut self.out, rest)?,
            b'|' => self.out.extend_from_slice(rest)?,
            b'!' => put_line(&mut self.err, rest)?,
            b'~' => self.err.extend_from_slice(rest)?,
            b'h' | b'%' | b'*' | b'&' | b'+' => self.put_part(kind, rest)?,
            b'#' => {}
            b'=' | b'?' => {
                if self.settings.is_empty() {
                    self.settings.push(setting_of("4096"))?;
                }
                return Ok(Line::End(said, kind == b'='));
            }
            _ => self.put(line)?,
        }
        Ok(Line::Part)
    }
}
