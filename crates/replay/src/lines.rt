// From text to words: hexadecimal numbers with small letters, one line at a time.
ghost use Rattle.std.specs.Prelude.{◌≤◌, length, IfOk, IfSome};

use crate::at_most::AtMost;
use crate::fault::{Fault, Malformed};
use std::fs::File;
use std::io;
use std::os::unix::fs::FileExt;

// A line has at most this many bytes, its end counted, and this many words.
const BYTES: usize = 65536;

pub const WORDS: usize = 2048;

// How much is read at once, and how often for the longest line.
const TEXT: usize = 16384;

const READS: usize = BYTES / TEXT;

// How many words a line has, and whether it was the text's last. Also where it had all the bytes that a line may
// have: then no more is looked at.
#[derive(Clone, Copy)]
pub struct Line {
    pub count: AtMost<WORDS>,
    pub is_last: bool,
}

// Where the text that is read and not yet passed stands in its array.
#[derive(Clone, Copy)]
struct Unread {
    from: usize,
    to: usize,
    ghost fits: { (from ≤ to) × (to ≤ 16384) },
}

// An array holds what is read at once, so no memory is asked for. The file is read by place: what has no places, as a
// pipe, is declined.
#[derive(Drop)]
pub struct Lines {
    file: File,
    // Of the text that comes next.
    place: u64,
    text: [u8; TEXT],
    unread: Unread,
}

impl Lines {
    pub fn new(file: File) -> Lines {
        Lines {
            file,
            place: 0,
            text: [0; TEXT],
            unread: Unread { from: 0, to: 0 },
        }
    }

    // The next line, into the words; it is malformed where the text ends before it or in it.
    pub fn next_line(&mut self, words: &mut [u64; WORDS]) -> Result<Line, Fault> {
        let mut line = Begun::default();
        let mut bytes = self.pass(&mut line, words)?;
        for _ in 0..READS {
            if line.is_over {
                break;
            }
            self.read_on()?;
            bytes = bytes.saturating_add(self.pass(&mut line, words)?);
        }
        if !line.is_over | (BYTES < bytes) {
            return Err(Fault::Malformed);
        }
        if self.unread.from == self.unread.to {
            self.read_on()?;
        }
        Ok(Line {
            count: AtMost::try_from(line.count)?,
            is_last: (bytes == BYTES) | (self.unread.from == self.unread.to),
        })
    }

    // Passes the unread text as far as the line goes, and answers how many bytes that is.
    fn pass(&mut self, line: &mut Begun, words: &mut [u64; WORDS]) -> Result<usize, Malformed> {
        let Unread { from, to } = self.unread;
        let bytes = line.pass_text(&self.text[from..to], words)?;
        self.unread = Unread {
            from: from + bytes,
            to,
        };
        Ok(bytes)
    }

    // Reads as much as the array holds; what was there is passed.
    fn read_on(&mut self) -> io::Result<()> {
        let read = self.file.read_at(&mut self.text, self.place)?;
        self.place = self.place.wrapping_add(read as u64);
        self.unread = Unread { from: 0, to: read };
        Ok(())
    }
}

// A line as far as it is passed: how many words stand in front, the one that is begun, whether it has a digit, and
// whether the line is over.
#[derive(Clone, Copy, Default)]
struct Begun {
    count: usize,
    word: u64,
    has_digit: bool,
    is_over: bool,
}

impl Begun {
    // Passes the text to the line's end, or all of it, and answers how many bytes that is.
    fn pass_text(&mut self, text: &[u8], words: &mut [u64; WORDS]) -> Result<usize, Malformed>
        ensures { IfOk result (λ n. n ≤ length text.now) }
    {
        for (i, b) in text.iter().enumerate() {
            if let Some(digit) = digit(*b) {
                self.add(digit)?;
            } else {
                self.end_word(*b, words)?;
                if self.is_over {
                    return Ok(i + 1);
                }
            }
        }
        Ok(text.len())
    }

    // One digit more. A word of more than 64 bits is none.
    fn add(&mut self, digit: u64) -> Result<(), Malformed>
        requires { digit ≤ 15 }
    {
        if 0x0fff_ffff_ffff_ffff < self.word {
            return Err(Malformed);
        }
        self.word = self.word * 16 + digit;
        self.has_digit = true;
        Ok(())
    }

    // The word is over, and with it the line, by the byte behind it.
    fn end_word(&mut self, b: u8, words: &mut [u64; WORDS]) -> Result<(), Malformed> {
        if !self.has_digit | !matches!(b, b' ' | b'\n') {
            return Err(Malformed);
        }
        *words.get_mut(self.count).ok_or(Malformed)? = self.word;
        *self = Begun {
            count: self.count.saturating_add(1),
            is_over: b == b'\n',
            ..Begun::default()
        };
        Ok(())
    }
}

// The value of a digit. Figures and letters are not told apart by a branch, which goes either way as often.
fn digit(b: u8) -> Option<u64>
    ensures { IfSome result (λ d. d ≤ 15) }
{
    let figure = b.wrapping_sub(b'0');
    let letter = b.wrapping_sub(b'a').saturating_add(10);
    let value = if figure < 10 { figure } else { letter };
    if value < 16 {
        Some(u64::from(value))
    } else {
        None
    }
}
