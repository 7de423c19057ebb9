//! The reader of a text of cases.

use crate::asks::{call, count, guard_call, number};
use crate::case::{Asked, Case, Line, Order};
use crate::claims::{Claim, terms};
use crate::fault::{Expected, TextFault};
use crate::orders::order;
use std::alloc::{AllocError, Global};
use std::mem;

/// How far the text is read.
#[derive(Drop)]
struct Reader<'a> {
    alloc: Global,
    /// The cases that are read.
    cases: Vec<Case<'a>>,
    /// The one that is being read.
    case: Case<'a>,
    /// The number of the line that is being read.
    number: usize,
}

/// A pair, as 1=10.
fn pair(word: &str) -> Result<(u64, u64), Expected> {
    match word.split_once('=') {
        Some((key, value)) => Ok((number(key)?, number(value)?)),
        None => Err(Expected::Pair),
    }
}

/// The same calls.
fn copy_of(program: &[Asked], alloc: Global) -> Result<Vec<Asked>, AllocError> {
    let mut copy = Vec::with_capacity(alloc, program.len())?;
    for ask in program {
        copy.push(ask.clone()?)?;
    }
    Ok(copy)
}

impl<'a> Reader<'a> {
    /// Ends the case that is being read, and begins another.
    fn open(&mut self, name: &'a str) -> Result<(), Expected> {
        let next = Case::new(self.alloc, name, self.number);
        let last = mem::replace(&mut self.case, next);
        if !last.programs.is_empty() || !last.lines.is_empty() {
            self.cases.push(last)?;
        }
        Ok(())
    }

    fn add_pairs(&mut self, words: &[&'a str]) -> Result<(), Expected> {
        for word in words {
            let told = pair(word)?;
            self.case.pairs.push(told)?;
        }
        Ok(())
    }

    fn add_thread(&mut self, name: &'a str) -> Result<(), Expected> {
        self.case.names.push(name)?;
        self.case.programs.push(Vec::new(self.alloc))?;
        self.case.calls.push(Vec::new(self.alloc))?;
        Ok(())
    }

    fn add_call(&mut self, asked: Asked, text: &'a str) -> Result<(), Expected> {
        match self.case.programs.last_mut() {
            Some(program) => program.push(asked)?,
            None => return Err(Expected::Program),
        }
        match self.case.calls.last_mut() {
            Some(calls) => calls.push(text)?,
            None => return Err(Expected::Program),
        }
        Ok(())
    }

    /// The calls of the last program, as they are written.
    fn last_calls(&self) -> Result<Vec<&'a str>, AllocError> {
        match self.case.calls.last() {
            Some(calls) => calls.clone(),
            None => Ok(Vec::new(self.alloc)),
        }
    }

    /// Makes the last program that of so many threads.
    fn copy_thread(&mut self, threads: usize) -> Result<(), Expected> {
        let alloc = self.alloc;
        let program = match self.case.programs.last() {
            Some(program) => copy_of(program, alloc)?,
            None => return Err(Expected::Program),
        };
        for _ in 1..threads {
            self.case.programs.push(copy_of(&program, alloc)?)?;
            let calls = self.last_calls()?;
            self.case.calls.push(calls)?;
        }
        Ok(())
    }

    /// Makes the last program's calls once more, so many times.
    fn repeat(&mut self, times: usize) -> Result<(), Expected> {
        let alloc = self.alloc;
        let Some(program) = self.case.programs.last_mut() else {
            return Err(Expected::Program);
        };
        let calls = copy_of(program, alloc)?;
        for _ in 0..times {
            for ask in &calls {
                program.push(ask.clone()?)?;
            }
        }
        self.repeat_texts(times)
    }

    /// The same with the calls as they are written.
    fn repeat_texts(&mut self, times: usize) -> Result<(), Expected> {
        let texts = self.last_calls()?;
        if let Some(calls) = self.case.calls.last_mut() {
            for _ in 0..times {
                for text in &texts {
                    calls.push(*text)?;
                }
            }
        }
        Ok(())
    }

    /// The threads of these names.
    fn threads(&self, words: &[&'a str]) -> Result<Vec<usize>, Expected> {
        let mut threads = Vec::new(self.alloc);
        for word in words {
            threads.push(self.case.thread(word)?)?;
        }
        Ok(threads)
    }

    /// The threads that are named behind so many words, up to the first other word.
    fn threads_behind(&self, words: &[&'a str], said: usize) -> Result<Vec<usize>, Expected> {
        let mut threads = Vec::new(self.alloc);
        for word in words.iter().skip(said) {
            match self.case.thread(word) {
                Ok(thread) => threads.push(thread)?,
                Err(_) => break,
            }
        }
        Ok(threads)
    }

    /// The words behind so many.
    fn words_behind(&self, words: &[&'a str], said: usize) -> Result<Vec<&'a str>, Expected> {
        let mut behind = Vec::new(self.alloc);
        for word in words.iter().skip(said) {
            behind.push(*word)?;
        }
        Ok(behind)
    }

    fn add_line(&mut self, words: &[&'a str]) -> Result<(), Expected> {
        let (order, said) = order(&self.case, words)?;
        let threads = match order {
            Order::Run => self.threads_behind(words, said)?,
            _ => Vec::new(self.alloc),
        };
        let want = self.words_behind(words, said.saturating_add(threads.len()))?;
        if let Order::Claim(Claim::Never | Claim::Always | Claim::Sometimes) = order {
            let _ = terms(self.alloc, &self.case, &want)?;
        }
        let number = self.number;
        self.case.lines.push(Line {
            number,
            order,
            threads,
            want,
        })?;
        Ok(())
    }

    /// Reads a line that begins with no space.
    fn directive(&mut self, words: &[&'a str]) -> Result<(), Expected> {
        match *words {
            ["shards", shards] => self.case.shards = count(shards)?,
            ["pairs", ref pairs @ ..] => self.add_pairs(pairs)?,
            ["thread", name] => self.add_thread(name)?,
            ["copies", threads] => self.copy_thread(count(threads)?)?,
            ["again", times] => self.repeat(count(times)?)?,
            ["fair", ref threads @ ..] => self.case.fair = self.threads(threads)?,
            ["either", ref threads @ ..] => self.case.either = self.threads(threads)?,
            _ => self.add_line(words)?,
        }
        Ok(())
    }

    /// Reads a line that isn't empty.
    fn line(&mut self, text: &'a str) -> Result<(), Expected> {
        let words: Vec<&'a str> = text.split_whitespace().collect(self.alloc)?;
        match text.len().saturating_sub(text.trim_start().len()) {
            0 => self.directive(&words),
            2 => {
                let asked = call(&words)?;
                self.add_call(asked, text.trim())
            }
            4 => {
                let asked = guard_call(&words)?;
                self.add_call(asked, text.trim())
            }
            _ => Err(Expected::Depth),
        }
    }

    fn any_line(&mut self, text: &'a str) -> Result<(), Expected> {
        let told = match text.split_once('#') {
            Some((told, _)) => told,
            None => text,
        };
        let told = told.trim_end();
        match told.strip_prefix("case ") {
            Some(name) => self.open(name),
            None if told.is_empty() => Ok(()),
            None => self.line(told),
        }
    }
}

/// The cases of a text.
pub fn read<'a>(alloc: Global, text: &'a str) -> Result<Vec<Case<'a>>, TextFault> {
    let mut reader = Reader {
        alloc,
        cases: Vec::new(alloc),
        case: Case::new(alloc, "the only one", 1),
        number: 0,
    };
    for line in text.lines() {
        let number = reader.number.saturating_add(1);
        reader.number = number;
        match reader.any_line(line) {
            Ok(()) => {}
            Err(Expected::Memory) => return Err(TextFault::NoMemory),
            Err(expected) => return Err(TextFault::Line {
                line: number,
                expected,
            }),
        }
    }
    match reader.open("") {
        Ok(()) => Ok(reader.cases),
        Err(_) => Err(TextFault::NoMemory),
    }
}
