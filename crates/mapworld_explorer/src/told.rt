//! Steps in words.

use crate::outcome::Written;
use crate::standing::{act_of, kind_of};
use crate::worlds::World;
use lock_api_desk::Mode;
use mapworld::Step;
use mapworld_calls::Ask;
use mapworld_text::{Asked, Case, Shown};
use parking_lot_machine::{Act, SectionAct};

/// How a step is told.
#[derive(Clone, Copy)]
enum Words {
    /// By these words.
    Plain(&'static str),
    /// By words around the number of its shard.
    Shard(&'static str, &'static str),
    /// As a look at the word of its shard, by words behind the shard's number.
    Look(&'static str),
    /// As a change of the word of its shard, by its verb.
    Change(&'static str),
    /// By words around the text of its call.
    Call(&'static str, &'static str),
}

/// How a step in the section of a lock's queues is told.
fn words_of_section(act: SectionAct) -> Words {
    match act {
        SectionAct::Check => Words::Look(" once more"),
        SectionAct::TakeFirst | SectionAct::TakeNext(_) => {
            Words::Shard("looks for a thread in the queue of", " to wake")
        }
        SectionAct::Append(_) => Words::Shard("joins the queue of", ""),
        SectionAct::Store { .. } => Words::Change("stores"),
        SectionAct::Leave => Words::Shard("leaves the section of", "'s queues"),
        SectionAct::Wake => Words::Plain("wakes a thread"),
    }
}

/// How a step at a lock is told, where that takes no more than the word of the lock.
fn words_of_act(act: Act) -> Words {
    match act {
        Act::Load => Words::Look(""),
        Act::Add(_) | Act::FetchAnd(_) => Words::Change("changes"),
        Act::Spin => Words::Plain("spins"),
        Act::Enter(_) => Words::Shard("enters the section of", "'s queues"),
        Act::Section(act) => words_of_section(act),
        Act::Sleep => Words::Shard(
            "is past its deadline, and goes on to leave the queues of",
            "",
        ),
        Act::Exchange(..) | Act::Done(_) => Words::Plain(""),
    }
}

/// How a step of a call's own work of that kind is told.
fn words_of_work(kind: u8) -> Words {
    match kind {
        0 => Words::Call("starts", ""),
        1 | 14 => Words::Shard("looks into", ""),
        3 => Words::Shard("makes room in", ""),
        4 => Words::Plain("adds the pair"),
        5 | 8 => Words::Call("does", " with the pair"),
        6 | 7 => Words::Plain("reads the pair"),
        9 => Words::Plain("adds the pair at its entry"),
        10 => Words::Plain("turns its guard into a shared one"),
        12 => Words::Shard("looks into", ", which it has"),
        15 => Words::Plain("finds the next pair"),
        16 => Words::Plain("does with a pair what the walk does"),
        17 | 19 => Words::Shard("is to give", " up"),
        18 => Words::Plain("asks for the next shard"),
        _ => Words::Call("ends", ""),
    }
}

/// What is known of a thread before its step.
#[derive(Clone, Copy)]
pub(crate) struct Before {
    thread: usize,
    /// Whether the step is the thread's deadline.
    deadline: bool,
    /// The number of the call that it is in, or that is next.
    call: usize,
    kind: u8,
    act: Option<Act>,
    shard: usize,
    word: u64,
    hold: Option<Mode>,
    blocks: usize,
    replies: usize,
    /// Whether the key of its call is present, where it has one.
    present: Option<bool>,
}

/// What is known of the thread's shard behind the step.
#[derive(Clone, Copy)]
struct Now {
    word: u64,
    hold: Option<Mode>,
}

/// A thread's call.
fn asked_at<'c>(case: &'c Case<'_>, thread: usize, call: usize) -> Option<&'c Asked> {
    case.programs.get(thread)?.get(call)
}

/// The key of a thread's call, where it has one.
fn key_at(case: &Case<'_>, thread: usize, call: usize) -> Option<u64> {
    asked_at(case, thread, call)?.key().copied()
}

impl Before {
    /// Of a thread, before its step.
    pub(crate) fn of(world: &World, case: &Case<'_>, step: Step) -> Before {
        let thread = step.thread;
        let (call, kind, own) = match world.place(thread) {
            Some(stand) => (stand.next, kind_of(stand), stand.shard),
            None => (0, 0, 0),
        };
        let shard = match world.locks().machine().call(thread) {
            Some(call) => call.lock,
            None => own,
        };
        let present = key_at(case, thread, call).map(|key| world.pair(&key).is_some());
        Before {
            thread,
            deadline: step.deadline,
            call,
            kind,
            act: act_of(world, thread),
            shard,
            word: world.word(shard),
            hold: world.hold(thread, shard),
            blocks: world.blocks().len(),
            replies: world.replies().len(),
            present,
        }
    }

    /// Writes a step as it is told; the word of its shard is now that.
    fn write_words(&self, words: Words, case: &Case<'_>, word: u64, out: &mut String) -> Written {
        let (shard, from) = (self.shard, self.word);
        match words {
            Words::Plain(words) => out.push_str(words),
            Words::Shard(before, after) => write!(out, "{before} shard {shard}{after}"),
            Words::Look(after) => write!(out, "looks at the word of shard {shard}{after}: {word}"),
            Words::Change(verb) => {
                write!(
                    out,
                    "{verb} the word of shard {shard}: {from} becomes {word}"
                )
            }
            Words::Call(before, after) => {
                let call = case.call_of(self.thread, self.call);
                write!(out, "{before} `{call}`{after}")
            }
        }
    }

    /// Writes what the step was, which has led to this world.
    pub(crate) fn write(&self, world: &World, case: &Case<'_>, out: &mut String) -> Written {
        let now = Now {
            word: world.word(self.shard),
            hold: world.hold(self.thread, self.shard),
        };
        out.push_str(case.name_of(self.thread))?;
        out.push_str(" ")?;
        self.write_step(now, case, out)?;
        if let Some(block) = world.blocks().get(self.blocks) {
            self.write_counted((block.thread, block.call), case, out)?;
        }
        match world.replies().get(self.replies) {
            Some(reply) => write!(out, ": {}", Shown(&reply.answer)),
            None => Ok(()),
        }
    }

    /// Writes what was done at the shard or by the call itself.
    fn write_step(&self, now: Now, case: &Case<'_>, out: &mut String) -> Written {
        if self.deadline {
            let words = Words::Shard("has waited long enough for", ": its deadline has come");
            return self.write_words(words, case, now.word, out);
        }
        match self.act {
            None if self.gives_up(now) => self.write_given_up(now, out),
            Some(Act::Done(_)) | None => self.write_work(now, case, out),
            Some(act) => self.write_act(act, now, case, out),
        }
    }

    /// Whether the shard was given up by the step.
    fn gives_up(&self, now: Now) -> bool {
        self.hold.is_some() && now.hold.is_none()
    }

    /// A step that gives the shard up at once.
    fn write_given_up(&self, now: Now, out: &mut String) -> Written {
        let (shard, before, word) = (self.shard, self.word, now.word);
        write!(
            out,
            "gives shard {shard} up: its word {before} becomes {word}"
        )
    }

    /// An exchange of a lock's word that fails, as it is now another.
    fn write_failed(&self, from: u64, now: Now, out: &mut String) -> Written {
        let (shard, word) = (self.shard, now.word);
        write!(
            out,
            "fails to exchange the word of shard {shard}: it is {word}, not {from}"
        )
    }

    /// A step at a lock, and whether the shard was had or given up by it.
    fn write_act(&self, act: Act, now: Now, case: &Case<'_>, out: &mut String) -> Written {
        match act {
            Act::Exchange(from, _) if self.word != from => self.write_failed(from, now, out)?,
            Act::Exchange(_, to) => self.write_words(Words::Change("exchanges"), case, to, out)?,
            _ => self.write_words(words_of_act(act), case, now.word, out)?,
        }
        self.write_words(self.words_of_hold(now), case, now.word, out)
    }

    /// A step of the call's own work.
    fn write_work(&self, now: Now, case: &Case<'_>, out: &mut String) -> Written {
        match key_at(case, self.thread, self.call) {
            Some(key) if self.kind == 1 => self.write_look(key, out),
            _ => self.write_words(words_of_work(self.kind), case, now.word, out),
        }
    }

    /// The look for the call's key.
    fn write_look(&self, key: u64, out: &mut String) -> Written {
        let shard = self.shard;
        let found = match self.present {
            Some(true) => "present",
            _ => "absent",
        };
        write!(out, "looks for key {key} in shard {shard}: {found}")
    }

    /// How it is told that the shard was had or given up by the step.
    fn words_of_hold(&self, now: Now) -> Words {
        match (self.hold, now.hold) {
            (None, Some(Mode::Exclusive)) => Words::Shard(", and has", " alone"),
            (None, Some(_)) => Words::Shard(", and shares", ""),
            (Some(_), None) => Words::Shard(", and gives", " up"),
            _ => Words::Plain(""),
        }
    }

    /// Which call counts as done from the step on.
    fn write_counted(&self, of: (usize, usize), case: &Case<'_>, out: &mut String) -> Written {
        let shard = self.shard;
        let text = case.call_of(of.0, of.1);
        if matches!(asked_at(case, of.0, of.1), Some(Ask::Walk(_))) {
            write!(
                out,
                ". From here on `{text}` counts as done in shard {shard}"
            )
        } else {
            write!(out, ". From here on its `{text}` counts as done")
        }
    }
}
