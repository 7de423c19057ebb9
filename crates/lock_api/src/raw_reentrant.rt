//! A raw mutex that its owner may take again.
ghost use Rattle.std.specs.Prelude.{◌≡◌, ◌-◌, ◌^◌, ◌<◌, IfSome, IfOk, OnErr, Some, true};
ghost use Rattle.lock_api_raw.specs.Limits.{kept_limit};
ghost use Rattle.lock_api.specs.Leaves.{BumpedAlone, EndedBy, Entered, EnteredIf, IsNested};
ghost use Rattle.lock_api.specs.Leaves.{IsOwner, Left, WasFull, WasNested, WasPutIn, WasTakenOut};

use counted_slot::{Claim, Counted, FREE, Fits, TAKEN};
use lock_api_raw::{
    GetThreadId, GuardNoSend, MakeLock, RawMutex, RawMutexFair, RawMutexTimed, ReadersFull,
    TableFull,
};
use std::marker::Model;
use std::rt::Clock;
use std::snapshot::Snapshot;
use std::sync::Wait;
use std::sync::atomic::{AtomicU64, AtomicUsize, Ordering};
use std::thread;

/// The token of the raw mutex, as long as the nested holds last.
struct Kept<R: RawMutex> {
    token: R::Guard,
}

impl<R: RawMutex> Fits for Kept<R> {
    type Tag = Snapshot<R>;

    ghost fits = { λ raw kept. R.issued_by kept.token ≡ R.number raw.value };
}

/// A raw mutex that its owner may take again.
///
/// The first hold of a party takes the raw mutex below, and each further one adds one to a count, up to a limit. The
/// holds end in whatever order they like, and the last of them releases the raw mutex. Nothing here takes memory.
///
/// Its drop gives a raw token back that is still here, so the type itself asks for a runtime that may wait.
///
/// ```text
/// let outer = canvas.lock(&mut me)?;
/// if let Ok(inner) = canvas.lock(&mut me) { canvas.unlock(inner); }   // the same owner
/// canvas.unlock(outer);                                               // the raw mutex is free
/// ```
pub struct RawReentrantMutex<R: RawMutex + Drop, G: GetThreadId<Party = R::Party> + Drop>
where
    R::Runtime: Wait,
{
    raw: R,
    get_thread_id: G,
    owner: AtomicUsize,
    depth: AtomicU64,
    limit: u64,
    number: u64,
    slot: Counted<Option<Kept<R>>>,
}

impl<R: RawMutex + Drop, G: GetThreadId<Party = R::Party> + Drop> Model for RawReentrantMutex<R, G>
where
    R::Runtime: Wait,
{
    ghost use Rattle.std.specs.Prelude.{◌≡◌};
    ghost use Rattle.lock_api.specs.Nestings.{Nesting};

    ghost Value = { Nesting R G };

    ghost view = { λ mutex. record {
      raw = mutex.raw;
      get_thread_id = mutex.get_thread_id;
      limit = mutex.limit;
      number = mutex.number;
    } };

    // The slot's token is one of the raw mutex below.
    ghost invariant = { λ mutex. R.number mutex.slot.value ≡ R.number mutex.raw };
}

impl<R: RawMutex + Drop, G: GetThreadId<Party = R::Party> + Drop> Drop for RawReentrantMutex<R, G>
where
    R::Runtime: Wait,
{
    fn drop(self) {
        let (_raw, _get_thread_id) = self.into_raw();
    }
}

impl<R: RawMutex + Drop, G: GetThreadId<Party = R::Party> + Drop> RawReentrantMutex<R, G>
where
    R::Runtime: Wait,
{
    /// Makes an unlocked one. It keeps `readers` as its limit of nested holds, where 0 counts as 1.
    ///
    /// ```text
    /// let raw: lock_api::RawReentrantMutex<RawMutex<'_, '_, HostRuntime>, RawThreadId> =
    ///     lock_api::RawReentrantMutex::new(&table, 8)?;
    /// ```
    pub fn new<S>(source: S, readers: u64) -> Result<RawReentrantMutex<R, G>, TableFull>
    where
        R: MakeLock<S>,
        ensures { IfOk result (λ mutex. mutex.limit ≡ kept_limit (2 ^ 64 - 1) readers) }
    {
        let raw = R::new(source, readers)?;
        Ok(RawReentrantMutex::over(raw, readers, G::new()))
    }

    /// One over a raw mutex that exists and isn't held.
    pub(crate) fn over(raw: R, readers: u64, get_thread_id: G) -> RawReentrantMutex<R, G>
        ensures limit { result.limit ≡ kept_limit (2 ^ 64 - 1) readers }
        ensures raw { result.raw ≡ raw }
        ensures helper { result.get_thread_id ≡ get_thread_id }
    {
        let slot = Counted::new(None, &Snapshot::of(&raw));
        RawReentrantMutex {
            raw,
            get_thread_id,
            owner: AtomicUsize::new(0),
            depth: AtomicU64::new(0),
            limit: readers.max(1),
            number: 0,
            slot,
        }
    }

    /// The raw mutex, which is unlocked then, and what tells the parties apart.
    pub(crate) fn into_raw(self) -> (R, G)
        ensures raw { result.0 ≡ self.raw }
        ensures helper { result.1 ≡ self.get_thread_id }
    {
        let RawReentrantMutex {
            raw,
            get_thread_id,
            owner: _,
            depth: _,
            limit: _,
            number: _,
            slot,
        } = self;
        if let Some(kept) = slot.into_inner() {
            let Kept { token } = kept;
            raw.unlock(token);
        }
        (raw, get_thread_id)
    }

    /// The raw mutex below.
    pub(crate) fn raw(&self) -> &R
        ensures { result.now ≡ self.now.raw }
    {
        &self.raw
    }

    /// Adds one to the count of the owner's holds, if the limit allows it.
    fn nest(&self, _owner: &R::Party) -> Result<GuardNoSend, ReadersFull>
        requires { IsOwner _owner.now }
        ensures token { IfOk result (λ token. token ≡ self.now.number) }
        ensures nested { IfOk result (λ _. WasNested _owner.now) }
        ensures full { OnErr result (WasFull _owner.now) }
    {
        let depth = self.depth.load(Ordering::SeqCst);
        if depth < self.limit {
            self.depth.store(depth + 1, Ordering::SeqCst);
            Ok(GuardNoSend::new(&self.number))
        } else {
            Err(ReadersFull)
        }
    }

    /// Whether the party holds it. Nobody else changes that answer.
    ///
    /// ```text
    /// let mine = canvas.is_owned_by_current_thread(&me);
    /// ```
    pub fn is_owned_by_current_thread(&self, party: &R::Party) -> bool
        ensures { result ≡ true → IsOwner party.now }
    {
        self.owner.load(Ordering::SeqCst) == self.get_thread_id.nonzero_thread_id(party).get()
    }

    /// Whether a hold was out at the moment of one look at the raw mutex.
    ///
    /// ```text
    /// let used = canvas.is_locked();
    /// ```
    pub fn is_locked(&self) -> bool
        ensures { R.looked self.now.raw result }
    {
        self.raw.is_locked()
    }
}

impl<R: RawMutex + Drop, G: GetThreadId<Party = R::Party> + Drop> RawReentrantMutex<R, G>
where
    R::Runtime: Wait,
{
    /// The place of the raw token, which only the owner uses.
    fn claim(&self) -> Claim<'_, Option<Kept<R>>>
        ensures right { result.right ≡ 2 }
        ensures tag { R.number result.tag.value ≡ R.number self.now.raw }
    {
        for _ in self.raw.runtime().forever() {
            let (found, claim) = self.slot.turn(FREE, TAKEN);
            if found == FREE {
                return claim;
            }
            claim.done();
            thread::yield_now();
        }
        unreachable!()
    }

    /// Begins the first hold of the party, which was admitted by the raw token.
    #[inline(always)]
    fn begin(&self, token: R::Guard, party: &R::Party) -> GuardNoSend
        requires { R.issued_by token ≡ R.number self.now.raw }
        ensures token { result ≡ self.now.number }
        ensures begun { WasPutIn token }
    {
        if let Some(kept) = self.claim().put(Some(Kept { token }), FREE) {
            let Kept { token } = kept;
            self.raw.unlock(token);
        }
        let id = self.get_thread_id.nonzero_thread_id(party).get();
        self.depth.store(1, Ordering::SeqCst);
        self.owner.store(id, Ordering::SeqCst);
        GuardNoSend::new(&self.number)
    }

    /// The count, if it is more than 1.
    #[inline(always)]
    fn depth_of_many(&self) -> Option<u64>
        ensures more { IfSome result (λ depth. 1 < depth) }
        ensures nested { IfSome result (λ _. IsNested) }
    {
        let depth = self.depth.load(Ordering::SeqCst);
        if depth > 1 { Some(depth) } else { None }
    }

    /// Takes one from the count, and with the last the raw token.
    #[inline(always)]
    fn leave(&self) -> Option<R::Guard>
        ensures issued { IfSome result (λ token. R.issued_by token ≡ R.number self.now.raw) }
        ensures left { Left result }
    {
        if let Some(depth) = self.depth_of_many() {
            self.depth.store(depth - 1, Ordering::SeqCst);
            return None;
        }
        self.leave_last()
    }

    /// The raw token, with the count at 0, if the hold is the only one. Where it isn't, nothing changes.
    fn leave_alone(&self) -> Option<R::Guard>
        ensures issued { IfSome result (λ token. R.issued_by token ≡ R.number self.now.raw) }
        ensures left { Left result }
    {
        if self.depth_of_many().is_some() {
            return None;
        }
        self.leave_last()
    }

    /// The raw token, with the count at 0.
    fn leave_last(&self) -> Option<R::Guard>
        ensures issued { IfSome result (λ token. R.issued_by token ≡ R.number self.now.raw) }
        ensures taken { WasTakenOut result }
    {
        self.owner.store(0, Ordering::SeqCst);
        self.depth.store(0, Ordering::SeqCst);
        match self.claim().put(None, FREE) {
            Some(kept) => {
                let Kept { token } = kept;
                Some(token)
            }
            None => None,
        }
    }

    /// Adds one to the count if the party is the owner, and else waits for the raw mutex. Where the count is full it
    /// refuses, with nothing changed.
    ///
    /// Blocks while another party has it.
    ///
    /// ```text
    /// let token = canvas.lock(&mut me)?;
    /// canvas.unlock(token);
    /// ```
    #[inline(always)]
    pub fn lock(&self, party: &mut R::Party) -> Result<GuardNoSend, ReadersFull>
        ensures lock { IfOk result (λ token. token ≡ self.now.number) }
        ensures call { IfOk result (λ _. Entered party.old R.locked) }
        ensures refused { OnErr result (party.new ≡ party.old) }
        ensures full { OnErr result (WasFull party.old) }
    {
        if self.is_owned_by_current_thread(party) {
            return self.nest(party);
        }
        let token = self.raw.lock(party);
        Ok(self.begin(token, party))
    }

    /// As `lock`, but `Ok(None)` where another party holds it.
    ///
    /// ```text
    /// if let Some(token) = canvas.try_lock(&me)? { canvas.unlock(token); }
    /// ```
    pub fn try_lock(&self, party: &R::Party) -> Result<Option<GuardNoSend>, ReadersFull>
        ensures lock { IfOk result (λ some. IfSome some (λ token. token ≡ self.now.number)) }
        ensures call { IfOk result (EnteredIf party.now (R.tried self.now.raw)) }
        ensures full { OnErr result (WasFull party.now) }
    {
        if self.is_owned_by_current_thread(party) {
            return Ok(Some(self.nest(party)?));
        }
        match self.raw.try_lock() {
            Some(token) => Ok(Some(self.begin(token, party))),
            None => Ok(None),
        }
    }

    /// Takes one from the count, and releases the raw mutex with the last.
    ///
    /// ```text
    /// let token = canvas.lock(&mut me)?;
    /// canvas.unlock(token);
    /// ```
    #[inline(always)]
    pub fn unlock(&self, guard: GuardNoSend)
        requires { guard ≡ self.now.number }
        ensures { EndedBy R.unlocked }
    {
        guard.spend();
        if let Some(token) = self.leave() {
            self.raw.unlock(token);
        }
    }

    /// As `unlock`, but the last release is fair.
    ///
    /// ```text
    /// let token = canvas.lock(&mut me)?;
    /// canvas.unlock_fair(token);   // with the last hold, whoever waits longest has the mutex
    /// ```
    pub fn unlock_fair(&self, guard: GuardNoSend)
    where
        R: RawMutexFair,
        requires { guard ≡ self.now.number }
        ensures { EndedBy R.spent_fairly }
    {
        guard.spend();
        if let Some(token) = self.leave() {
            self.raw.unlock_fair(token);
        }
    }

    /// If the count is 1 and somebody waits, a fair release and then a blocking acquisition, and else nothing.
    ///
    /// ```text
    /// let token = canvas.lock(&mut me)?;
    /// let token = canvas.bump(token, &mut me);
    /// canvas.unlock(token);
    /// ```
    pub fn bump(&self, guard: GuardNoSend, party: &mut R::Party) -> GuardNoSend
    where
        R: RawMutexFair,
        requires { guard ≡ self.now.number }
        ensures issued { result ≡ self.now.number }
        ensures bump { BumpedAlone R.bumped }
    {
        match self.leave_alone() {
            Some(token) => {
                guard.spend();
                let token = self.raw.bump(token, party);
                self.begin(token, party)
            }
            None => guard,
        }
    }

    /// As `lock`, but `Ok(None)` if the wait for the raw mutex is given up after the length of time.
    ///
    /// ```text
    /// let soon = Duration::from_millis(5);
    /// if let Some(token) = canvas.try_lock_for(soon, &rt, &mut me)? { canvas.unlock(token); }
    /// ```
    pub fn try_lock_for<C: Clock>(
        &self,
        timeout: R::Duration,
        clock: &C,
        party: &mut R::Party,
    ) -> Result<Option<GuardNoSend>, ReadersFull>
    where
        R: RawMutexTimed,
        R::Duration: Drop,
        ensures lock { IfOk result (λ some. IfSome some (λ token. token ≡ self.now.number)) }
        ensures call { IfOk result (EnteredIf party.old R.locked_in_time) }
        ensures refused { OnErr result (party.new ≡ party.old) }
        ensures full { OnErr result (WasFull party.old) }
    {
        if self.is_owned_by_current_thread(party) {
            return Ok(Some(self.nest(party)?));
        }
        match self.raw.try_lock_for(timeout, clock, party) {
            Some(token) => Ok(Some(self.begin(token, party))),
            None => Ok(None),
        }
    }

    /// As `lock`, but `Ok(None)` if the wait for the raw mutex is given up at the moment.
    ///
    /// ```text
    /// if let Some(token) = canvas.try_lock_until(deadline, &rt, &mut me)? { canvas.unlock(token); }
    /// ```
    pub fn try_lock_until<C: Clock>(
        &self,
        deadline: R::Instant,
        clock: &C,
        party: &mut R::Party,
    ) -> Result<Option<GuardNoSend>, ReadersFull>
    where
        R: RawMutexTimed,
        R::Instant: Drop,
        ensures lock { IfOk result (λ some. IfSome some (λ token. token ≡ self.now.number)) }
        ensures call { IfOk result (EnteredIf party.old R.locked_in_time) }
        ensures refused { OnErr result (party.new ≡ party.old) }
        ensures full { OnErr result (WasFull party.old) }
    {
        if self.is_owned_by_current_thread(party) {
            return Ok(Some(self.nest(party)?));
        }
        match self.raw.try_lock_until(deadline, clock, party) {
            Some(token) => Ok(Some(self.begin(token, party))),
            None => Ok(None),
        }
    }
}
