//! Calls under way.
ghost use Rattle.std.specs.Prelude.{◌≡◌, ℕ, IfSome};
ghost use Rattle.parking_lot_protocol.specs.Timed.Courses.{EndedAt};

use std::alloc::AllocError;
use std::marker::Model;

/// One call as plain data: it is told what its last act gave, and asks for the next one.
pub trait CallCore: Copy {
    /// What it asks for.
    type Act: Copy;

    /// What it is told.
    type Seen: Copy;

    /// What it is once it was told so much more.
    ghost told: { Self → Self.Seen → Self };

    /// The act that it has asked for.
    ghost asks: { Self → Self.Act };

    /// That an act can give this, at a word.
    ghost gives: { Self.Act → ℕ → Self.Seen → Type 0 };

    /// What it is told as it begins.
    ghost start: { Self.Seen };

    /// What it is told as it begins.
    fn start() -> Self::Seen
        ensures { result ≡ start };

    /// The act that it has asked for.
    fn act(&self) -> Self::Act
        ensures { result ≡ asks self.now };

    /// A word at which an act gives this, if there is one.
    fn giving(act: Self::Act, seen: Self::Seen) -> Option<u64>
        ensures { IfSome result (λ word. gives act word seen) };

    /// Is told what the last act gave.
    fn tell(&mut self, seen: Self::Seen)
        ensures { self.new ≡ told self.old seen };
}

/// A call that has begun as one core: that core now, which was told nothing but what the acts that it asked for can
/// give.
///
/// A contract sees it as the core that the call began as, and the core that it is now.
#[derive(Copy)]
pub struct Course<C: CallCore> {
    begun: C,
    core: C,
}

impl<C: CallCore> Model for Course<C> {
    ghost use Rattle.parking_lot_protocol.specs.Timed.Courses.{WasTold};

    ghost Value = { C × C };

    ghost view = { λ course. (course.begun, course.core) };

    ghost inverse = { λ course. record { begun = course.0; core = course.1 } };

    ghost invariant = { λ course. WasTold C.gives C.told C.asks C.start course.begun course.core };
}

impl<C: CallCore> Clone for Course<C> {
    fn clone(&self) -> Result<Course<C>, AllocError> {
        Ok(*self)
    }
}

impl<C: CallCore> Course<C> {
    /// Begins a call.
    pub fn begin(begun: C) -> Course<C>
        ensures { result ≡ (begun, C.told begun C.start) }
    {
        let mut core = begun;
        core.tell(C::start());
        Course { begun, core }
    }

    /// The act that it has asked for.
    pub fn act(&self) -> C::Act
        ensures { result ≡ C.asks self.now.1 }
    {
        self.core.act()
    }

    /// Is told what its act gave, and answers the next. What the act can't give isn't told: then it asks for the same
    /// again.
    pub fn tell(&mut self, seen: C::Seen) -> C::Act
        ensures begun { self.new.0 ≡ self.old.0 }
        ensures act { result ≡ C.asks self.new.1 }
    {
        if let Some(_word) = C::giving(self.act(), seen) {
            self.core.tell(seen);
        }
        self.act()
    }

    /// That it has come to what it asks for now.
    pub fn ended(&self)
        ensures { EndedAt C.gives C.told C.asks C.start self.now.0 (C.asks self.now.1) }
    {
        let _core = &self.core;
    }
}
