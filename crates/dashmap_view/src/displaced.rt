//! The refusal of a view.
ghost use Rattle.std.specs.Prelude.{◌≡◌};
ghost use Rattle.dashmap_view.specs.Faults.{displaced_code};

use std::error::Error;
use std::fmt;
use std::marker::Model;

/// What isn't made into a view, since a pair lies in a wrong shard or under a wrong hash: code 33. It holds what was
/// handed in.
///
/// No call of these crates causes it: who makes shards by hand may.
#[derive(Drop)]
pub struct Displaced<M> {
    map: M,
}

impl<M> Model for Displaced<M> {
    ghost Value = { M };

    ghost view = { λ d. d.map };
}

impl<M> Displaced<M> {
    /// The refusal of `map`.
    ///
    /// ```text
    /// Err(Displaced::new((shards, hasher)))
    /// ```
    pub fn new(map: M) -> Displaced<M>
        ensures { result ≡ map }
    {
        Displaced { map }
    }

    /// The number of the refusal.
    ///
    /// ```text
    /// if let Err(displaced) = PlainView::of(plain, hasher) { println!(rt; "{}", displaced.code())?; }   // 33
    /// ```
    pub fn code(&self) -> u16
        ensures { result ≡ displaced_code }
    {
        33
    }

    /// What was handed in.
    ///
    /// ```text
    /// let (plain, hasher) = match PlainView::of(plain, hasher) {
    ///     Ok(view) => view.into_parts(),
    ///     Err(displaced) => displaced.into_map(),   // what was handed in
    /// };
    /// ```
    pub fn into_map(self) -> M
        ensures { result ≡ self }
    {
        let Displaced { map } = self;
        map
    }
}

impl<M> fmt::Display for Displaced<M> {
    ghost use Rattle.std.specs.Prelude.{Some};
    ghost use Rattle.dashmap_view.specs.Faults.{displaced_name};

    ghost output = { λ _. Some displaced_name };

    fn fmt<W: fmt::Write>(&self, f: &mut fmt::Formatter<W>) -> fmt::Result {
        f.write_str("Displaced")
    }
}

impl<M> fmt::Debug for Displaced<M> {
    fn fmt<W: fmt::Write>(&self, f: &mut fmt::Formatter<W>) -> fmt::Result {
        f.write_str("Displaced { .. }")
    }
}

impl<M: Drop> Error for Displaced<M> {}
