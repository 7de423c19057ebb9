//! Histories for contracts: a list that a program never stores, and that its contracts read.
//!
//! A contract sees what a value is, and not what it has been through. Where a promise is about a whole
//! run, as that each step was a lawful one or that nothing came twice, let the value keep a [`Past`] of
//! its steps: the contracts then speak of that list, and the program that is built has no trace of it.
//!
//! **Such a list is unconstrained.** Nothing ties it to what the program did, save the contracts that
//! you write: see [`Past`].

ghost use Rattle.std.specs.Prelude.{◌≡◌, List, [], ◌∷◌, ◌++◌};
ghost use Rattle.std.specs.Borrow.{ftrue};

pub mod example;

use std::marker::{Model, PhantomData};

/// All that was noted so far, oldest first, as a list that exists for proofs alone.
///
/// A clause reads the list as `items`. At run time there is no list: a `Past<T>` takes no memory,
/// whatever `T` is and however much was noted, and its functions do nothing and cannot fail. None of
/// them makes a list shorter or changes what it has. That it keeps growing is up to the contract of each
/// function that holds a `Past`, since a body may always put a new one in its place.
///
/// A counter notes each of its steps:
///
/// ```rust
/// ghost use Rattle.std.specs.Prelude.{◌≡◌, ◌+◌, ◌<◌, ◌^◌, [], ◌∷◌, ◌++◌, sum};
///
/// use mapworld_calls::past::Past;
///
/// #[derive(Drop)]
/// pub struct Counter {
///     count: u64,
///     steps: Past<u64>,
///     ghost counted: { sum steps.items ≡ count },
/// }
///
/// impl Counter {
///     pub fn new() -> Counter
///         ensures { result.steps.items ≡ [] }
///     {
///         Counter { count: 0, steps: Past::new() }
///     }
///
///     pub fn add(&mut self, step: u64)
///         requires fits { self.old.count + step < 2 ^ 64 }
///         ensures noted { self.new.steps.items ≡ self.old.steps.items ++ step ∷ [] }
///     {
///         self.count += step;
///         self.steps = self.steps.appended(&step);
///     }
/// }
/// ```
///
/// **The list is unconstrained.** It says what was noted, and not that it happened: a body that only
/// notes a step, and does none of the work, meets `noted` as well. A clause that says no more than that
/// the list grows lets a body note whatever it likes. So let a contract tie each entry to real work: by
/// a ghost field over values that the program does store, as `counted` above, which refuses a body of
/// `add` that forgets to count, or by exact clauses on what the call did to them. And of a call that
/// refuses, say that it leaves the list as it was.
#[derive(Drop)]
pub struct Past<T> {
    of: PhantomData<T>,
    pub ghost items: { List T },
}

impl<T> Model for Past<T> {
    ghost also_owns = { λ _. ftrue };
}

// There is no `T` in it that a thread could reach.
unsafe impl<T> Send for Past<T> {}

unsafe impl<T> Sync for Past<T> {}

/// What lists values of a type, for contracts alone: `Past::appended_all` notes them without a look at any.
pub trait Listed<T> {
    /// All of them, in their order.
    ghost listed: { Self → List T };
}

impl<T> Past<T> {
    /// The history of what has just begun: nothing was noted. It is for the constructor of a value that
    /// keeps its history, takes no memory and does nothing at run time.
    ///
    /// ```rust
    /// Counter { count: 0, steps: Past::new() }
    /// ```
    ///
    /// As it is unconstrained, a later call may begin anew too. The contract of that call has to forbid it.
    pub fn new() -> Past<T>
        ensures { result.items ≡ [] }
    {
        Past { of: PhantomData }
    }

    /// This history with `last` noted at its end. It is for the function that takes the step, which puts
    /// it in the place of the old one. It takes no memory, copies no `T` and does nothing at run time.
    ///
    /// ```rust
    /// self.steps = self.steps.appended(&step);
    /// ```
    ///
    /// What is noted is the value that `last` has now, and a later change of that variable does not
    /// reach it. That the step was taken is unconstrained: a clause of the caller has to tie `step` to
    /// what the program stores.
    pub fn appended(&self, last: &T) -> Past<T>
        ensures { result.items ≡ self.now.items ++ last.now ∷ [] }
    {
        Past { of: PhantomData }
    }

    /// This history with all that `all` lists noted at its end, in that order. It is for a function that has done
    /// something to each of them at once, as one that has counted a table without a walk through it. It takes no
    /// memory and does nothing at run time, however many they are.
    ///
    /// As with `appended`, that it happened to each of them is unconstrained.
    pub fn appended_all<L: Listed<T>>(&self, all: &L) -> Past<T>
        ensures { result.items ≡ self.now.items ++ L.listed all.now }
    {
        Past { of: PhantomData }
    }

    /// The same history once more, as for a report, or to compare later with what came after. It takes no
    /// memory and does nothing at run time, and `T` need not be `Clone`.
    ///
    /// ```rust
    /// let before = self.steps.duplicate();
    /// ```
    ///
    /// The two go on apart: what is noted in one is not in the other. Each is unconstrained, so only a
    /// contract can say that they still agree.
    pub fn duplicate(&self) -> Past<T>
        ensures { result.items ≡ self.now.items }
    {
        Past { of: PhantomData }
    }
}

const _: () = prove!(size_of::<Past<u64>>() == 0);
