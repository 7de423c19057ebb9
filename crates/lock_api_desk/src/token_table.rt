//! A raw state that counts.
ghost use Rattle.std.specs.Prelude.{◌≡◌, ◌≤◌, max};
ghost use Rattle.lock_api_desk.specs.Out.{nothing_out};

use crate::raw::RawState;
use std::marker::Model;

/// The token of a hold of a [`TokenTable`]. It takes no memory, and only a table makes one.
#[derive(Drop)]
pub struct TableToken {
    _issued: (),
}

/// A raw state that counts the tokens that are out, mode by mode.
///
/// A contract sees it as its limit and the holds that are out.
#[derive(Drop)]
pub struct TokenTable {
    limit: u64,
    shared: u64,
    exclusive: u64,
    upgradable: u64,
}

impl Model for TokenTable {
    ghost use Rattle.lock_api_desk.specs.Out.{Counts, IsOrderly, out_with};

    ghost Value = { Counts };

    ghost view = { λ t. record { limit = t.limit; out = out_with t.shared t.exclusive t.upgradable } };

    ghost invariant = { λ t. IsOrderly t.limit (out_with t.shared t.exclusive t.upgradable) };
}

impl TokenTable {
    /// Nothing is out. The limit is `readers`, and 1 where that is 0. It takes no memory.
    ///
    /// ```text
    /// let state = TokenTable::new(8);   // at most 8 readers
    /// ```
    pub fn new(readers: u64) -> TokenTable
        ensures { result ≡ record { limit = max readers 1; out = nothing_out } }
    {
        TokenTable {
            limit: readers.max(1),
            shared: 0,
            exclusive: 0,
            upgradable: 0,
        }
    }
}

impl RawState for TokenTable {
    type Shared = TableToken;

    type Exclusive = TableToken;

    type Upgradable = TableToken;

    ghost out = { λ t. t.out };

    ghost limit_of = { λ t. t.limit };

    fn limit(&self) -> u64 {
        self.limit
    }

    fn readers_full(&self) -> bool {
        self.limit - self.shared <= self.upgradable
    }

    fn try_shared(&mut self) -> Option<TableToken> {
        if self.exclusive != 0 || self.readers_full() {
            return None;
        }
        self.shared += 1;
        Some(TableToken { _issued: () })
    }

    fn try_exclusive(&mut self) -> Option<TableToken> {
        if self.exclusive != 0 || self.shared != 0 || self.upgradable != 0 {
            return None;
        }
        self.exclusive = 1;
        Some(TableToken { _issued: () })
    }

    fn try_upgradable(&mut self) -> Option<TableToken> {
        if self.exclusive != 0 || self.upgradable != 0 || self.readers_full() {
            return None;
        }
        self.upgradable = 1;
        Some(TableToken { _issued: () })
    }

    fn try_upgrade(&mut self, token: TableToken) -> Result<TableToken, TableToken> {
        if self.exclusive != 0 || self.shared != 0 {
            return Err(token);
        }
        self.upgradable = 0;
        self.exclusive = 1;
        Ok(token)
    }

    fn downgrade(&mut self, token: TableToken) -> TableToken {
        self.exclusive = 0;
        self.shared = 1;
        token
    }

    fn downgrade_to_upgradable(&mut self, token: TableToken) -> TableToken {
        self.exclusive = 0;
        self.upgradable = 1;
        token
    }

    fn downgrade_upgradable(&mut self, token: TableToken) -> TableToken {
        self.upgradable = 0;
        self.shared += 1;
        token
    }

    fn release_shared(&mut self, _token: TableToken) {
        self.shared -= 1;
    }

    fn release_exclusive(&mut self, _token: TableToken) {
        self.exclusive = 0;
    }

    fn release_upgradable(&mut self, _token: TableToken) {
        self.upgradable = 0;
    }
}
