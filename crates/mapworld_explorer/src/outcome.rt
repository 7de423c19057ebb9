//! What schedules come to, as texts.

use mapworld_text::Case;
use std::alloc::AllocError;

/// What is written.
pub(crate) type Written = Result<(), AllocError>;

/// What a call is answered, as it is written in a text.
#[derive(Drop)]
pub struct Answering {
    pub thread: usize,
    pub call: usize,
    pub text: String,
}

/// What schedules come to.
#[derive(Drop)]
pub struct Outcome {
    /// What each call is answered, by threads and then by calls.
    pub answers: Vec<Answering>,
    /// The pairs at the end, by their keys.
    pub contents: String,
    /// How many ends there are that come to it.
    pub ends: usize,
    /// The first state that was found to come to it: none is reached by fewer steps.
    pub state: usize,
    /// By how many steps that is reached.
    pub steps: usize,
}

impl Outcome {
    ghost use Rattle.std.specs.Prelude.{◌≡◌};
    ghost use Rattle.std.specs.List.{list_all};
    ghost use Rattle.std.specs.Option.{option_map};
    ghost use Rattle.mapworld_explorer.specs.Outcomes.{answer_in, has_told, is_same};

    /// Whether the other is the same one.
    pub fn is(&self, other: &Outcome) -> bool
        ensures { result ≡ is_same self.now other.now }
    {
        self.answers.len() == other.answers.len()
            && self.contents.as_str() == other.contents.as_str()
            && other.has_all(&self.answers)
    }

    fn has_all(&self, wanted: &[Answering]) -> bool
        ensures { result ≡ list_all (has_told self.now) wanted.now }
    {
        let mut all = true;
        for answer in wanted {
            all = all & self.has(answer);
        }
        all
    }

    fn has(&self, wanted: &Answering) -> bool
        ensures { result ≡ has_told self.now wanted.now }
    {
        match self.answer(wanted.thread, wanted.call) {
            Some(text) => text == wanted.text.as_str(),
            None => false,
        }
    }

    /// What a call is answered.
    pub fn answer(&self, thread: usize, call: usize) -> Option<&str>
        ensures { option_map (λ text. text.now) result ≡ answer_in self.now thread call }
    {
        let found = self
            .answers
            .iter()
            .find(|answer| answer.thread == thread && answer.call == call);
        match found {
            Some(answer) => Some(answer.text.as_str()),
            None => None,
        }
    }

    /// Writes it as a claim of a text has it.
    pub fn write(&self, case: &Case<'_>, out: &mut String) -> Written {
        for answer in &self.answers {
            let name = case.name_of(answer.thread);
            let is_one = match case.programs.get(answer.thread) {
                Some(program) => program.len() == 1,
                None => false,
            };
            if is_one {
                write!(out, "{name}={} ", answer.text.as_str())?;
            } else {
                write!(out, "{name}.{}={} ", answer.call, answer.text.as_str())?;
            }
        }
        write!(out, "contents {}", self.contents.as_str())
    }
}
