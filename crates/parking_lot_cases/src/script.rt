//! A file of cases, line by line.

use crate::deed::{Outcome, make};
use crate::words::{kind, number};
use parking_lot_world::{LockKind, SizeFault, World};
use std::alloc::{AllocError, Global};
use std::{fmt, io, mem};

/// What was found in a file.
#[derive(Clone, Copy)]
pub struct Found {
    cases: u64,
    lines: u64,
    wrong: u64,
}

impl Found {
    /// Whether every line came true.
    pub fn is_true(self) -> bool {
        self.wrong == 0
    }
}

impl fmt::Display for Found {
    fn fmt<W: fmt::Write>(&self, f: &mut fmt::Formatter<W>) -> fmt::Result {
        write!(
            f,
            "{} cases, {} lines, {} wrong",
            self.cases, self.lines, self.wrong
        )
    }
}

/// A file that is followed, and the world of its case.
#[derive(Drop)]
struct Script<'r, R> {
    rt: &'r R,
    file: &'r str,
    /// The number of the line.
    at: u64,
    world: World,
    found: Found,
}

/// A world by the number of its threads and the kinds of its locks; `None` where the line says no such thing.
fn world_of(alloc: Global, line: &str) -> Result<Option<Result<World, SizeFault>>, AllocError> {
    let mut words = line.split_whitespace();
    let Some(threads) = number(&mut words) else {
        return Ok(None);
    };
    let mut kinds = Vec::new(alloc);
    for name in words {
        match kind(name) {
            Some(kind) => kinds.push(kind)?,
            None => return Ok(None),
        }
    }
    Ok(Some(World::new(alloc, threads, kinds)))
}

impl<'r, R: AllocGlobal + Print> Script<'r, R> {
    /// Says that a line didn't come true, and what came in its place.
    fn tell(&mut self, line: &str, came: &str) -> io::Result<()> {
        self.found.wrong = self.found.wrong.saturating_add(1);
        println!(self.rt; "{}:{}: {line}: {came}", self.file, self.at)
    }

    /// Makes the world of a case.
    fn renew(&mut self, line: &str) -> io::Result<()> {
        match world_of(self.rt.alloc(), line)? {
            Some(Ok(world)) => {
                drop(mem::replace(&mut self.world, world));
                Ok(())
            }
            Some(Err(fault)) => {
                let text = format!(in self.rt.alloc(); "{fault:?}")?;
                self.tell(line, text.as_str())
            }
            None => self.tell(line, "it can't be read"),
        }
    }

    /// Compares what came of a line with what is wanted, if it says so, and tells where that didn't come.
    fn compare(&mut self, line: &str, came: &Outcome, wanted: Option<&str>) -> io::Result<()> {
        let is_true = match wanted {
            Some(wanted) => came.text.as_str() == wanted,
            None => came.is_done,
        };
        match is_true {
            true => Ok(()),
            false => self.tell(line, came.text.as_str()),
        }
    }

    /// Does what a line says, and compares.
    fn deed(&mut self, line: &str) -> io::Result<()> {
        let (says, wanted) = match line.split_once(" = ") {
            Some((says, wanted)) => (says, Some(wanted)),
            None => (line, None),
        };
        let came = make(self.rt.alloc(), &mut self.world, says)?;
        self.found.lines = self.found.lines.saturating_add(1);
        self.compare(line, &came, wanted)
    }

    /// Does so many times what the rest of the line says.
    fn repeat(&mut self, line: &str) -> io::Result<()> {
        let Some((count, says)) = line.split_once(' ') else {
            return self.tell(line, "it can't be read");
        };
        for _ in 0..count.parse::<u32>().unwrap_or(0) {
            self.deed(says)?;
        }
        Ok(())
    }

    /// Follows the next line.
    fn line(&mut self, line: &str) -> io::Result<()> {
        self.at = self.at.saturating_add(1);
        if line.is_empty() || line.starts_with("#") {
            Ok(())
        } else if line.starts_with("case ") {
            self.found.cases = self.found.cases.saturating_add(1);
            Ok(())
        } else if let Some(rest) = line.strip_prefix("world ") {
            self.renew(rest)
        } else if let Some(rest) = line.strip_prefix("times ") {
            self.repeat(rest)
        } else {
            self.deed(line)
        }
    }
}

/// Follows a file of cases. Lines that don't come true are printed, with what came in their place.
pub fn follow(rt: &(impl AllocGlobal + Print), file: &str, text: &str) -> Result<Found, io::Error> {
    let kinds = vec![in rt.alloc(); LockKind::Mutex]?;
    let Ok(world) = World::new(rt.alloc(), 1, kinds) else {
        return Err(AllocError.into());
    };
    let mut script = Script {
        rt,
        file,
        at: 0,
        world,
        found: Found {
            cases: 0,
            lines: 0,
            wrong: 0,
        },
    };
    for line in text.lines() {
        script.line(line)?;
    }
    Ok(script.found)
}
