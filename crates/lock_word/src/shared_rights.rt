//! The rights to a reader-writer lock, each by its type.
ghost use Rattle.std.specs.Prelude.{◌≡◌, ℕ};
ghost use Rattle.lock_word.specs.Rights.{a_reader, an_upgradable, a_pending, an_exclusive};

use crate::shared_claim::SharedClaim;
use std::marker::Model;

/// That the lock is read: a claim of one reader's share. In a clause it is the name of the lock.
pub struct Reader {
    claim: SharedClaim,
    ghost right: { claim.held ≡ a_reader },
}

impl Model for Reader {
    ghost use Rattle.std.specs.Prelude.{ℕ};

    ghost Value = { ℕ };

    ghost view = { λ reader. reader.claim.name };
}

/// That the lock is read by the one that may upgrade. In a clause it is the name of the lock.
pub struct Upgradable {
    claim: SharedClaim,
    ghost right: { claim.held ≡ an_upgradable },
}

impl Model for Upgradable {
    ghost use Rattle.std.specs.Prelude.{ℕ};

    ghost Value = { ℕ };

    ghost view = { λ owner. owner.claim.name };
}

/// That the lock is to be written, once no readers are left. In a clause it is the name of the lock.
pub struct Pending {
    claim: SharedClaim,
    ghost right: { claim.held ≡ a_pending },
}

impl Model for Pending {
    ghost use Rattle.std.specs.Prelude.{ℕ};

    ghost Value = { ℕ };

    ghost view = { λ owner. owner.claim.name };
}

/// That the lock is written. In a clause it is the name of the lock.
pub struct Exclusive {
    claim: SharedClaim,
    ghost right: { claim.held ≡ an_exclusive },
}

impl Model for Exclusive {
    ghost use Rattle.std.specs.Prelude.{ℕ};

    ghost Value = { ℕ };

    ghost view = { λ owner. owner.claim.name };
}

impl Reader {
    /// The claim.
    #[inline(always)]
    pub fn into_claim(self) -> SharedClaim
        ensures { (result.name ≡ self) × (result.held ≡ a_reader) }
    {
        let Reader { claim } = self;
        claim
    }
}

impl Upgradable {
    /// The claim.
    #[inline(always)]
    pub fn into_claim(self) -> SharedClaim
        ensures { (result.name ≡ self) × (result.held ≡ an_upgradable) }
    {
        let Upgradable { claim } = self;
        claim
    }

    /// Two threads never have the upgradable right to one lock: a program in which they did could go no further.
    pub fn never_two(self, other: Upgradable)
        requires { self ≡ other }
        ensures { ⊥ }
    {
        self.into_claim().never_both(other.into_claim());
    }
}

impl Pending {
    /// The claim.
    #[inline(always)]
    pub fn into_claim(self) -> SharedClaim
        ensures { (result.name ≡ self) × (result.held ≡ a_pending) }
    {
        let Pending { claim } = self;
        claim
    }

    /// Two writers never wait for the readers of one lock at once, as [`Upgradable::never_two`].
    pub fn never_two(self, other: Pending)
        requires { self ≡ other }
        ensures { ⊥ }
    {
        self.into_claim().never_both(other.into_claim());
    }
}

impl Exclusive {
    /// The claim.
    #[inline(always)]
    pub fn into_claim(self) -> SharedClaim
        ensures { (result.name ≡ self) × (result.held ≡ an_exclusive) }
    {
        let Exclusive { claim } = self;
        claim
    }

    /// Two threads never write under one lock, as [`Upgradable::never_two`].
    pub fn never_two(self, other: Exclusive)
        requires { self ≡ other }
        ensures { ⊥ }
    {
        self.into_claim().never_both(other.into_claim());
    }

    /// Nobody reads under the lock while somebody writes.
    pub fn never_beside_reader(self, reader: Reader)
        requires { self ≡ reader }
        ensures { ⊥ }
    {
        self.into_claim().never_both(reader.into_claim());
    }

    /// Nobody has the upgradable right to the lock while somebody writes.
    pub fn never_beside_upgradable(self, owner: Upgradable)
        requires { self ≡ owner }
        ensures { ⊥ }
    {
        self.into_claim().never_both(owner.into_claim());
    }
}

impl SharedClaim {
    /// That the lock is read, of a claim of one reader's share.
    #[inline(always)]
    pub fn into_reader(self) -> Reader
        requires { self.held ≡ a_reader }
        ensures { result ≡ self.name }
    {
        Reader { claim: self }
    }

    /// That the lock is read by the one that may upgrade.
    #[inline(always)]
    pub fn into_upgradable(self) -> Upgradable
        requires { self.held ≡ an_upgradable }
        ensures { result ≡ self.name }
    {
        Upgradable { claim: self }
    }

    /// That the lock is to be written.
    #[inline(always)]
    pub fn into_pending(self) -> Pending
        requires { self.held ≡ a_pending }
        ensures { result ≡ self.name }
    {
        Pending { claim: self }
    }

    /// That the lock is written.
    #[inline(always)]
    pub fn into_exclusive(self) -> Exclusive
        requires { self.held ≡ an_exclusive }
        ensures { result ≡ self.name }
    {
        Exclusive { claim: self }
    }
}
