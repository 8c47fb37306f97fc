// The steps of a row, line by line.
use crate::acts::act_of;
use crate::fault::{Fault, Reason};
use crate::row::{Act, Outcome, Run, Step};
use crate::words::{status_of, words_of};
use std::alloc::Global;
use std::mem;
use zc_num::NoMemory;
use zc_script::number_of;

// The most bytes that a line `fill` makes.
const MOST_FILL: u64 = 67_108_864;

// Which line of a run comes next.
#[derive(Clone, Copy, PartialEq, Eq)]
enum Due {
    /// A line of the script, or the status.
    Script,
    /// The status.
    Status,
    /// A line of the text, or another outcome, or the end.
    Text,
}

// A run whose lines are being read.
#[derive(Drop)]
struct Begun {
    line: u64,
    words: Vec<String>,
    script: Vec<u8>,
    before: Vec<Outcome>,
    status: u8,
    text: Vec<u8>,
    due: Due,
}

/// The steps so far.
#[derive(Drop)]
pub struct Builder {
    alloc: Global,
    steps: Vec<Step>,
    begun: Option<Begun>,
}

// The words of a run, as the program is given them.
fn texts_of(alloc: Global, words: &[&[u8]]) -> Result<Option<Vec<String>>, NoMemory> {
    let mut texts = Vec::new(alloc);
    for word in words {
        match str::from_utf8(word) {
            Ok(text) if !text.is_empty() => texts.push(String::from_str(alloc, text)?)?,
            _ => return Ok(None),
        }
    }
    Ok(Some(texts))
}

// So many bytes of a word that is repeated.
fn push_filled(text: &mut Vec<u8>, count: u64, word: &[u8]) -> Result<(), NoMemory> {
    let mut at = 0usize;
    for _ in 0..count {
        match word.get(at) {
            Some(byte) => text.push(*byte)?,
            None => return Ok(()),
        }
        at = if at + 1 < word.len() { at + 1 } else { 0 };
    }
    Ok(())
}

// What a line says, with the bytes before it taken away.
enum Mark<'a> {
    Script { text: &'a [u8], ended: bool },
    Text { text: &'a [u8], ended: bool },
    Other,
}

// Whether a line begins with a mark, and what stands after it.
fn mark_of(text: &[u8]) -> Mark<'_> {
    match text {
        [b'<'] => Mark::Script {
            text: &[],
            ended: true,
        },
        [b'<', b' ', rest @ ..] => Mark::Script {
            text: rest,
            ended: true,
        },
        [b'<', b'-', b' ', rest @ ..] => Mark::Script {
            text: rest,
            ended: false,
        },
        [b'>'] => Mark::Text {
            text: &[],
            ended: true,
        },
        [b'>', b' ', rest @ ..] => Mark::Text {
            text: rest,
            ended: true,
        },
        [b'>', b'-', b' ', rest @ ..] => Mark::Text {
            text: rest,
            ended: false,
        },
        _ => Mark::Other,
    }
}

// Adds a line.
fn push_line(bytes: &mut Vec<u8>, text: &[u8], ended: bool) -> Result<(), NoMemory> {
    bytes.extend_from_slice(text)?;
    if ended {
        bytes.push(b'\n')?;
    }
    Ok(())
}

impl Begun {
    // A run with these words.
    fn new(alloc: Global, line: u64, words: Vec<String>) -> Begun {
        Begun {
            line,
            words,
            script: Vec::new(alloc),
            before: Vec::new(alloc),
            status: 0,
            text: Vec::new(alloc),
            due: Due::Script,
        }
    }

    // Begins an outcome, where a status is due.
    fn begin_outcome(&mut self, status: u8) -> Option<Reason> {
        match self.due {
            Due::Text => Some(Reason::NoRun),
            Due::Script | Due::Status => {
                self.status = status;
                self.due = Due::Text;
                None
            }
        }
    }

    // Ends an outcome, and begins another.
    fn go_on(&mut self, alloc: Global) -> Result<Option<Reason>, NoMemory> {
        if self.due != Due::Text {
            return Ok(Some(Reason::NoRun));
        }
        let text = mem::replace(&mut self.text, Vec::new(alloc));
        self.before.push(Outcome {
            status: self.status,
            text,
        })?;
        self.due = Due::Status;
        Ok(None)
    }

    // The step of it.
    fn into_step(self) -> Result<Option<Step>, NoMemory> {
        let Begun {
            line,
            words,
            script,
            before,
            status,
            text,
            due,
        } = self;
        if due != Due::Text {
            return Ok(None);
        }
        let mut wanted = before;
        wanted.push(Outcome { status, text })?;
        let act = Act::Run(Run {
            words,
            script,
            wanted,
        });
        Ok(Some(Step { line, act }))
    }
}

impl Builder {
    /// No step.
    pub fn new(alloc: Global) -> Builder {
        Builder {
            alloc,
            steps: Vec::new(alloc),
            begun: None,
        }
    }

    // Adds a line to the script of the run.
    fn add_script(&mut self, text: &[u8], ended: bool) -> Result<Option<Reason>, NoMemory> {
        match &mut self.begun {
            Some(begun) if begun.due == Due::Script => {
                push_line(&mut begun.script, text, ended)?;
                if !ended {
                    begun.due = Due::Status;
                }
                Ok(None)
            }
            _ => Ok(Some(Reason::NoRun)),
        }
    }

    // Adds a line to the text that is wanted.
    fn add_text(&mut self, text: &[u8], ended: bool) -> Result<Option<Reason>, NoMemory> {
        match &mut self.begun {
            Some(begun) if begun.due == Due::Text => {
                push_line(&mut begun.text, text, ended)?;
                Ok(None)
            }
            _ => Ok(Some(Reason::NoRun)),
        }
    }

    // `fill > N WORD`.
    fn add_fill(&mut self, words: &[&[u8]]) -> Result<Option<Reason>, NoMemory> {
        let [b">", count, word] = words else {
            return Ok(Some(Reason::Words));
        };
        let Some(count) = number_of(count) else {
            return Ok(Some(Reason::Words));
        };
        if count > MOST_FILL || word.is_empty() {
            return Ok(Some(Reason::Words));
        }
        match &mut self.begun {
            Some(begun) if begun.due == Due::Text => {
                push_filled(&mut begun.text, count, word)?;
                Ok(None)
            }
            _ => Ok(Some(Reason::NoRun)),
        }
    }

    // `status N`.
    fn add_status(&mut self, words: &[&[u8]]) -> Option<Reason> {
        let [status] = words else {
            return Some(Reason::Words);
        };
        match (status_of(status), &mut self.begun) {
            (Some(status), Some(begun)) => begun.begin_outcome(status),
            (Some(_), None) => Some(Reason::NoRun),
            (None, _) => Some(Reason::Words),
        }
    }

    // `or`.
    fn add_or(&mut self, words: &[&[u8]]) -> Result<Option<Reason>, NoMemory> {
        if !words.is_empty() {
            return Ok(Some(Reason::Words));
        }
        match &mut self.begun {
            Some(begun) => begun.go_on(self.alloc),
            None => Ok(Some(Reason::NoRun)),
        }
    }

    // Ends the run that was begun, if one was.
    fn end_run(&mut self) -> Result<Option<Reason>, NoMemory> {
        match self.begun.take() {
            None => Ok(None),
            Some(begun) => match begun.into_step()? {
                Some(step) => {
                    self.steps.push(step)?;
                    Ok(None)
                }
                None => Ok(Some(Reason::NoStatus)),
            },
        }
    }

    // `run WORD ..`.
    fn add_run(&mut self, line: u64, words: &[&[u8]]) -> Result<Option<Reason>, NoMemory> {
        if let Some(reason) = self.end_run()? {
            return Ok(Some(reason));
        }
        match texts_of(self.alloc, words)? {
            Some(words) => {
                self.begun = Some(Begun::new(self.alloc, line, words));
                Ok(None)
            }
            None => Ok(Some(Reason::Words)),
        }
    }

    // Any line that is none of a run.
    fn add_act(&mut self, line: u64, words: &[&[u8]]) -> Result<Option<Reason>, NoMemory> {
        if let Some(reason) = self.end_run()? {
            return Ok(Some(reason));
        }
        match act_of(self.alloc, words)? {
            Some(act) => {
                self.steps.push(Step { line, act })?;
                Ok(None)
            }
            None => Ok(Some(Reason::Words)),
        }
    }

    // Adds a line that has no mark.
    fn add_words(&mut self, line: u64, text: &[u8]) -> Result<Option<Reason>, NoMemory> {
        let words = words_of(self.alloc, text)?;
        let [first, rest @ ..] = words.as_slice() else {
            return Ok(Some(Reason::Words));
        };
        match *first {
            b"status" => Ok(self.add_status(rest)),
            b"or" => self.add_or(rest),
            b"fill" => self.add_fill(rest),
            b"run" => self.add_run(line, rest),
            _ => self.add_act(line, words.as_slice()),
        }
    }

    /// Adds a line with its number; the reason where it is bad.
    pub fn add(&mut self, line: u64, text: &[u8]) -> Result<Option<Reason>, NoMemory> {
        match mark_of(text) {
            Mark::Script { text, ended } => self.add_script(text, ended),
            Mark::Text { text, ended } => self.add_text(text, ended),
            Mark::Other => self.add_words(line, text),
        }
    }

    /// The steps, after the last line, which has this number.
    pub fn finish(mut self, line: u64) -> Result<Vec<Step>, Fault> {
        if let Some(reason) = self.end_run()? {
            return Err(Fault::Bad { line, reason });
        }
        let Builder {
            alloc: _,
            steps,
            begun: _,
        } = self;
        Ok(steps)
    }
}
