//! Something of each of three threads.

/// The same of each of three threads.
#[derive(Clone, Copy, PartialEq, Eq, Debug)]
pub struct Three<T>(pub T, pub T, pub T);

impl<T: Copy> Three<T> {
    /// That of one of the three.
    pub fn of(self, thread: usize) -> T {
        match thread {
            0 => self.0,
            1 => self.1,
            _ => self.2,
        }
    }

    /// The three, where that one has become another.
    pub fn with(self, thread: usize, one: T) -> Three<T> {
        match thread {
            0 => Three(one, self.1, self.2),
            1 => Three(self.0, one, self.2),
            _ => Three(self.0, self.1, one),
        }
    }
}
