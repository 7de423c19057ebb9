//! How the holds of reader-writer locks turn into one another.
ghost use Rattle.std.specs.Prelude.{Ok, Err, MatchResult};

use crate::mode::{Exclusive, Shared, Upgradable};
use crate::raw_hold::{HasRaw, Place, RawHold};
use lock_api_guards::{
    DowngradeHold, DowngradeToUpgradable, RestoreHold, TimedUpgradeHold, UpgradeHold,
};
use lock_api_raw::{
    RawRwLockDowngrade, RawRwLockUpgrade, RawRwLockUpgradeDowngrade, RawRwLockUpgradeTimed,
};
use std::rt::Clock;
use std::sync::Wait;

impl<R: RawRwLockDowngrade, L: Place + Drop> DowngradeHold for RawHold<L, Exclusive>
where
    L::Lock: HasRaw<Raw = R>,
{
    type Down = RawHold<L, Shared>;

    ghost downgraded = { λ hold down. R.downgraded hold.token down.token };

    fn downgrade(self) -> RawHold<L, Shared>
    where
        R::Runtime: Wait,
    {
        let (place, token) = self.into_parts();
        let token = place.lock().raw().downgrade(token);
        RawHold::new(place, token)
    }
}

impl<R: RawRwLockUpgradeDowngrade, L: Place + Drop> DowngradeHold for RawHold<L, Upgradable>
where
    L::Lock: HasRaw<Raw = R>,
{
    type Down = RawHold<L, Shared>;

    ghost downgraded = { λ hold down. R.upgradable_downgraded hold.token down.token };

    fn downgrade(self) -> RawHold<L, Shared>
    where
        R::Runtime: Wait,
    {
        let (place, token) = self.into_parts();
        let token = place.lock().raw().downgrade_upgradable(token);
        RawHold::new(place, token)
    }
}

impl<R: RawRwLockUpgradeDowngrade, L: Place + Drop> DowngradeToUpgradable for RawHold<L, Exclusive>
where
    L::Lock: HasRaw<Raw = R>,
{
    type Low = RawHold<L, Upgradable>;

    ghost lowered = { λ hold low. R.downgraded_to_upgradable hold.token low.token };

    fn lower(self) -> RawHold<L, Upgradable>
    where
        R::Runtime: Wait,
    {
        let (place, token) = self.into_parts();
        let token = place.lock().raw().downgrade_to_upgradable(token);
        RawHold::new(place, token)
    }
}

impl<R: RawRwLockUpgrade, L: Place + Drop> UpgradeHold for RawHold<L, Upgradable>
where
    L::Lock: HasRaw<Raw = R>,
{
    type Alone = RawHold<L, Exclusive>;

    ghost upgraded = { λ hold alone. R.upgraded hold.token alone.token };

    ghost upgrade_tried = { λ hold tried. MatchResult tried (λ alone. R.upgrade_tried hold.token (Ok alone.token))
        (λ same. R.upgrade_tried hold.token (Err same.token)) };

    fn upgrade(self, party: &mut R::Party) -> RawHold<L, Exclusive>
    where
        R::Runtime: Wait,
    {
        let (place, token) = self.into_parts();
        let token = place.lock().raw().upgrade(token, party);
        RawHold::new(place, token)
    }

    fn try_upgrade(self) -> Result<RawHold<L, Exclusive>, RawHold<L, Upgradable>> {
        let (place, token) = self.into_parts();
        match place.lock().raw().try_upgrade(token) {
            Ok(token) => Ok(RawHold::new(place, token)),
            Err(token) => Err(RawHold::new(place, token)),
        }
    }
}

impl<R: RawRwLockUpgradeDowngrade, L: Place + Drop> RestoreHold for RawHold<L, Upgradable>
where
    L::Lock: HasRaw<Raw = R>,
{
    ghost restored = { λ alone hold. R.downgraded_to_upgradable alone.token hold.token };

    fn restore(alone: RawHold<L, Exclusive>) -> RawHold<L, Upgradable>
    where
        R::Runtime: Wait,
    {
        alone.lower()
    }
}

impl<R: RawRwLockUpgradeTimed, L: Place + Drop> TimedUpgradeHold for RawHold<L, Upgradable>
where
    L::Lock: HasRaw<Raw = R>,
{
    type Duration = R::Duration;

    type Instant = R::Instant;

    ghost upgraded_in_time = { λ hold tried. MatchResult tried (λ alone. R.upgraded_in_time hold.token (Ok alone.token))
        (λ same. R.upgraded_in_time hold.token (Err same.token)) };

    fn try_upgrade_for<C: Clock>(
        self,
        timeout: R::Duration,
        clock: &C,
        party: &mut R::Party,
    ) -> Result<RawHold<L, Exclusive>, RawHold<L, Upgradable>>
    where
        R::Runtime: Wait,
    {
        let (place, token) = self.into_parts();
        match place
            .lock()
            .raw()
            .try_upgrade_for(token, timeout, clock, party)
        {
            Ok(token) => Ok(RawHold::new(place, token)),
            Err(token) => Err(RawHold::new(place, token)),
        }
    }

    fn try_upgrade_until<C: Clock>(
        self,
        deadline: R::Instant,
        clock: &C,
        party: &mut R::Party,
    ) -> Result<RawHold<L, Exclusive>, RawHold<L, Upgradable>>
    where
        R::Runtime: Wait,
    {
        let (place, token) = self.into_parts();
        match place
            .lock()
            .raw()
            .try_upgrade_until(token, deadline, clock, party)
        {
            Ok(token) => Ok(RawHold::new(place, token)),
            Err(token) => Err(RawHold::new(place, token)),
        }
    }
}
