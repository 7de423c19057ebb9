//! Where a call of a one-time initialization stands.
ghost use Rattle.std.specs.Prelude.{◌≡◌, ◌==◌, ◌+◌, ◌*◌, ◌-◌, ◌/◌, ◌%◌, ◌^◌, ◌&&◌, min, true, false, if◌then◌else◌};
ghost use Rattle.parking_lot_rules.specs.Once.Once.{ended, state_number, waits};
ghost use Rattle.parking_lot_protocol_waits.specs.declared.once.once_phase.OnceAnswer.TheVariants as answer;
ghost use Rattle.parking_lot_protocol_waits.specs.declared.once.once_phase.OncePhase.TheVariants.{Loads, Enters, Parks};
ghost use Rattle.parking_lot_protocol_waits.specs.declared.once.once_phase.OncePhase.TheVariants.{Looks, Appends};
ghost use Rattle.parking_lot_protocol_waits.specs.declared.once.once_phase.OncePhase.TheVariants.{Retreats, Ends};
ghost use Rattle.parking_lot_protocol_waits.specs.Once.OnceTable.{act_of, after, answer_of, begins, core_answer};
ghost use Rattle.parking_lot_protocol_waits.specs.Once.OnceTable.{end_store, is_parked, scans, sees, seeks, state_of};
ghost use Rattle.parking_lot_protocol_waits.specs.Once.OnceTable.{waiting, wakes, with_taken, won_or, word_of};

use crate::once::seen;
use parking_lot_core_model::DEFAULT_PARK_TOKEN;
use parking_lot_protocol::{Act, ActResult, CoreAnswer, SectionAct, WordChange};
use parking_lot_rules::once::{OnceState, Wish};

/// How many rounds a call spins before it sets the parked bit.
pub(crate) const ROUNDS: u8 = 10;

/// One that asks: what it wants, and how many rounds it may still spin before it goes to sleep.
#[derive(Clone, Copy, PartialEq, Eq, Debug)]
pub struct Seeking {
    pub wish: Wish,
    pub rounds: u8,
}

/// How a call ended.
#[derive(Clone, Copy, PartialEq, Eq, Debug)]
pub enum OnceAnswer {
    /// The caller is to run its closure, to hand it this state, and to go on with how that ended.
    Runs(OnceState),
    /// A closure has ended well.
    Completed,
    /// The last closure has failed.
    Poisoned,
    /// How the caller's closure ended is stored, and all that waited are woken.
    Finished,
}

/// Where a call stands: it has asked for the act that the case names, and waits for what it gives.
#[derive(Clone, Copy, PartialEq, Eq, Debug)]
pub enum OncePhase {
    /// A call that asks, and one whose closure has ended well or not, before they begin.
    Asking(Wish),
    Returning(bool),
    /// On the way: a load; the exchange that begins to run the closure, from that state and with callers waiting or
    /// not; a round of spinning; the exchange that sets the parked bit.
    Loads(Seeking),
    Starts(Seeking, OnceState, bool),
    Spins(Seeking, OnceState),
    Parks(Seeking, OnceState),
    /// The section in which it goes to sleep: it enters, checks, and leaves at once; or it joins the list, leaves and
    /// sleeps.
    Enters(Wish),
    Checks(Wish),
    Retreats(Wish),
    Appends(Wish),
    Rests(Wish),
    Sleeps(Wish),
    /// The end of the closure is stored: by an exchange where nobody waits; else in a section in which all that wait
    /// are taken, so many so far; it leaves, and wakes them, so many still.
    Stores(bool),
    Looks(bool),
    Scans(bool, u32),
    Clears(bool, u32),
    Leaves(u32),
    Wakes(u32),
    Finishes,
    /// The call is over, or was told what its act can't give.
    Ends(OnceAnswer),
    Invalid,
}

/// The state that a word has.
pub fn state_of(word: u64) -> OnceState
    ensures { result ≡ state_of word }
{
    if word % 2 == 1 {
        OnceState::Done
    } else if (word / 2) % 2 == 1 {
        OnceState::Poisoned
    } else if (word / 4) % 2 == 1 {
        OnceState::InProgress
    } else {
        OnceState::New
    }
}

/// Whether callers may wait at this word.
fn is_parked(word: u64) -> bool
    ensures { result ≡ is_parked word }
{
    (word / 8) % 2 == 1
}

/// The word of a state.
fn state_number(state: OnceState) -> u64
    ensures { result ≡ state_number state }
{
    match state {
        OnceState::New => 0,
        OnceState::Done => 1,
        OnceState::Poisoned => 2,
        OnceState::InProgress => 4,
    }
}

/// The word of a state, where callers may wait or not.
fn word_of(state: OnceState, parked: bool) -> u64
    ensures { result ≡ word_of state parked }
{
    state_number(state) + 8 * u64::from(parked)
}

/// The state behind a closure that has ended well or not.
fn ended(well: bool) -> OnceState
    ensures { result ≡ ended well }
{
    if well {
        OnceState::Done
    } else {
        OnceState::Poisoned
    }
}

/// Whether a call waits at this state.
fn waits(wish: Wish, state: OnceState) -> bool
    ensures { result ≡ waits wish state }
{
    match state {
        OnceState::New => !wish.runs,
        OnceState::Poisoned => wish.force && !wish.runs,
        OnceState::InProgress => true,
        OnceState::Done => false,
    }
}

impl OnceAnswer {
    /// How a call has ended, as far as other cores know it: it has the run, has given it up, or neither.
    fn core_answer(self) -> CoreAnswer
        ensures { result ≡ core_answer self }
    {
        match self {
            OnceAnswer::Runs(_) => CoreAnswer::Owned,
            OnceAnswer::Completed | OnceAnswer::Poisoned => CoreAnswer::Refused,
            OnceAnswer::Finished => CoreAnswer::Released,
        }
    }
}

impl Seeking {
    /// One that may spin for as long as one that begins.
    fn begins(wish: Wish) -> Seeking
        ensures { result ≡ begins wish }
    {
        Seeking {
            wish,
            rounds: ROUNDS,
        }
    }

    /// One that has to wait: it spins a while where nobody else waits, and else goes to sleep.
    fn waiting(self, state: OnceState, parked: bool) -> OncePhase
        ensures { result ≡ waiting self state parked }
    {
        if parked {
            OncePhase::Enters(self.wish)
        } else if self.rounds > 0 {
            OncePhase::Spins(self, state)
        } else {
            OncePhase::Parks(self, state)
        }
    }

    /// It has seen the state: it is done, or refused where the last closure has failed; it begins to run its closure,
    /// or has to wait.
    fn seeks(self, state: OnceState, parked: bool) -> OncePhase
        ensures { result ≡ seeks self state parked }
    {
        match state {
            OnceState::Done => OncePhase::Ends(OnceAnswer::Completed),
            OnceState::Poisoned if !self.wish.force => OncePhase::Ends(OnceAnswer::Poisoned),
            OnceState::New | OnceState::Poisoned if self.wish.runs => OncePhase::Starts(
                self, state, parked,
            ),
            OnceState::New | OnceState::Poisoned | OnceState::InProgress => self.waiting(
                state, parked,
            ),
        }
    }

    /// The same by the word.
    fn sees(self, word: u64) -> OncePhase
        ensures { result ≡ sees self word }
    {
        self.seeks(state_of(word), is_parked(word))
    }

    /// An exchange was won, or lost to this word.
    fn won_or(self, outcome: Result<(), u64>, won: OncePhase) -> OncePhase
        ensures { result ≡ won_or won (sees self) outcome }
    {
        match outcome {
            Ok(()) => won,
            Err(word) => self.sees(word),
        }
    }

    /// A round was spun, or there were enough.
    fn spins(self, state: OnceState, spun: bool) -> OncePhase
        ensures { result ≡ (if spun then Loads (record self { rounds = self.rounds - 1 }) else Parks self state) }
    {
        if spun {
            let rounds = self.rounds.saturating_sub(1);
            OncePhase::Loads(Seeking { rounds, ..self })
        } else {
            OncePhase::Parks(self, state)
        }
    }
}

/// The word was looked at in the section: it sleeps where it has to wait, and the parked bit is set.
fn checks(wish: Wish, word: u64) -> OncePhase
    ensures { result ≡ (if waits wish (state_of word) && is_parked word then Appends wish else Retreats wish) }
{
    if waits(wish, state_of(word)) && is_parked(word) {
        OncePhase::Appends(wish)
    } else {
        OncePhase::Retreats(wish)
    }
}

/// The exchange that stores the end was won, or callers wait.
fn stores_or(outcome: Result<(), u64>, well: bool) -> OncePhase
    ensures { result ≡ won_or (Ends answer.Finished) (λ word. Looks well) outcome }
{
    match outcome {
        Ok(()) => OncePhase::Ends(OnceAnswer::Finished),
        Err(_) => OncePhase::Looks(well),
    }
}

/// A waiter was taken or none, and waiters are left or not: it goes on as long as some are.
fn scans(well: bool, taken: u32, one: bool, left: bool) -> OncePhase
    ensures { result ≡ scans well (with_taken taken one) left }
{
    let taken = taken.saturating_add(u32::from(one));
    if left {
        OncePhase::Scans(well, taken)
    } else {
        OncePhase::Clears(well, taken)
    }
}

/// So many are to be woken.
fn wakes(count: u32) -> OncePhase
    ensures { result ≡ wakes count }
{
    if count > 0 {
        OncePhase::Wakes(count)
    } else {
        OncePhase::Finishes
    }
}

/// The change of the word by which a section stores the end.
fn end_store(well: bool) -> WordChange
    ensures { result ≡ end_store well }
{
    WordChange {
        keep: 0,
        add: state_number(ended(well)),
    }
}

impl OncePhase {
    /// The act that it has asked for. Before it begins, and where it was told what its act can't give, it asks for
    /// nothing.
    pub fn act(self) -> Act
        ensures { result ≡ act_of self }
    {
        match self {
            OncePhase::Loads(_) => Act::Load,
            OncePhase::Starts(_, before, parked) => Act::Exchange(
                word_of(before, parked),
                word_of(OnceState::InProgress, parked),
            ),
            OncePhase::Spins(..) => Act::Spin,
            OncePhase::Parks(_, state) => Act::Exchange(
                word_of(state, false),
                word_of(state, true),
            ),
            OncePhase::Enters(_) | OncePhase::Looks(_) => Act::Enter(0),
            OncePhase::Checks(_) => Act::Section(SectionAct::Check),
            OncePhase::Appends(_) => Act::Section(SectionAct::Append(DEFAULT_PARK_TOKEN)),
            OncePhase::Retreats(_) | OncePhase::Rests(_) | OncePhase::Leaves(_) => Act::Section(
                SectionAct::Leave,
            ),
            OncePhase::Sleeps(_) => Act::Sleep,
            OncePhase::Stores(well) => Act::Exchange(
                word_of(OnceState::InProgress, false),
                word_of(ended(well), false),
            ),
            OncePhase::Scans(..) => Act::Section(SectionAct::TakeNext(0)),
            OncePhase::Clears(well, _) => Act::Section(SectionAct::Store {
                plain: end_store(well),
                fair: end_store(well),
            }),
            OncePhase::Wakes(_) => Act::Section(SectionAct::Wake),
            OncePhase::Finishes => Act::Done(CoreAnswer::Released),
            OncePhase::Ends(answer) => Act::Done(answer.core_answer()),
            OncePhase::Asking(_) | OncePhase::Returning(_) | OncePhase::Invalid => Act::Done(
                CoreAnswer::Refused,
            ),
        }
    }

    /// How the call has ended, if it has.
    pub fn answer(self) -> Option<OnceAnswer>
        ensures { result ≡ answer_of self }
    {
        match self {
            OncePhase::Finishes => Some(OnceAnswer::Finished),
            OncePhase::Ends(answer) => Some(answer),
            _ => None,
        }
    }

    /// The phase that follows what the act of this one gave; `None` where the act can't give that.
    pub fn after(self, seen: ActResult) -> Option<OncePhase>
        ensures { result ≡ after self seen }
    {
        match self {
            OncePhase::Asking(wish) => seen::begun(seen, OncePhase::Loads(Seeking::begins(wish))),
            OncePhase::Returning(well) => seen::begun(seen, OncePhase::Stores(well)),
            OncePhase::Loads(seeking) => Some(seeking.sees(seen::word(seen)?)),
            OncePhase::Starts(seeking, before, _) => {
                let won = OncePhase::Ends(OnceAnswer::Runs(before));
                Some(seeking.won_or(seen::exchange(seen)?, won))
            }
            OncePhase::Spins(seeking, state) => Some(seeking.spins(state, seen::spun(seen)?)),
            OncePhase::Parks(seeking, _) => {
                let won = OncePhase::Enters(seeking.wish);
                Some(seeking.won_or(seen::exchange(seen)?, won))
            }
            OncePhase::Enters(wish) => seen::entered(seen, OncePhase::Checks(wish)),
            OncePhase::Checks(wish) => Some(checks(wish, seen::word(seen)?)),
            OncePhase::Retreats(wish) => seen::made(seen, OncePhase::Loads(Seeking::begins(wish))),
            OncePhase::Appends(wish) => seen::made(seen, OncePhase::Rests(wish)),
            OncePhase::Rests(wish) => seen::made(seen, OncePhase::Sleeps(wish)),
            OncePhase::Sleeps(wish) => {
                let _token = seen::woken(seen)?;
                Some(OncePhase::Loads(Seeking::begins(wish)))
            }
            OncePhase::Stores(well) => Some(stores_or(seen::exchange(seen)?, well)),
            OncePhase::Looks(well) => seen::entered(seen, OncePhase::Scans(well, 0)),
            OncePhase::Scans(well, taken) => {
                let (one, left) = seen::took(seen)?;
                Some(scans(well, taken, one, left))
            }
            OncePhase::Clears(_, taken) => {
                let _fair = seen::stored(seen)?;
                Some(OncePhase::Leaves(taken))
            }
            OncePhase::Leaves(taken) => seen::made(seen, wakes(taken)),
            OncePhase::Wakes(count) => seen::made(seen, wakes(count.saturating_sub(1))),
            OncePhase::Finishes | OncePhase::Ends(_) | OncePhase::Invalid => None,
        }
    }
}
