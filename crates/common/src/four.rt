//! Four of a kind, by number: the drives of a controller, the queues of its jobs.
ghost use Rattle.std.specs.Prelude.{◌≡◌, ◌&&◌, Bool};
ghost use Rattle.common.specs.Four.{one_of, with_one};

/// One for each of the numbers 0 to 3. The fields have names, since the compiler keeps an array in memory.
#[derive(Clone, Copy, Debug, PartialEq, Eq)]
pub struct Four<T> {
    pub zero: T,
    pub one: T,
    pub two: T,
    pub three: T,
}

impl<T: Copy> Four<T> {
    /// The one of a number; from 3 on the last.
    #[tactic(auto, unfolding(crate::specs::Pick::pick))]
    pub fn get(self, number: u8) -> T
        ensures { result ≡ one_of self number }
    {
        match number {
            0 => self.zero,
            1 => self.one,
            2 => self.two,
            _ => self.three,
        }
    }

    /// All four, with another one of a number.
    #[tactic(auto, unfolding(crate::specs::Pick::pick))]
    pub fn with(mut self, number: u8, one: T) -> Self
        ensures { result ≡ with_one self number one }
    {
        match number {
            0 => self.zero = one,
            1 => self.one = one,
            2 => self.two = one,
            _ => self.three = one,
        }
        self
    }

    /// What a function makes of each.
    pub fn map<U, F: Fn(T) -> U>(self, f: F) -> Four<U>
        requires { F.IsAlwaysCallable f }
        ensures zero { F.post f self.zero result.zero }
        ensures one { F.post f self.one result.one }
        ensures two { F.post f self.two result.two }
        ensures three { F.post f self.three result.three }
    {
        Four {
            zero: f(self.zero),
            one: f(self.one),
            two: f(self.two),
            three: f(self.three),
        }
    }

    /// Whether a test holds of each. All four are looked at, so that nothing is decided on the way.
    pub fn all<F: Fn(T) -> bool>(self, test: F) -> bool
        requires { F.IsAlwaysCallable test }
        ensures { (zero one two three : Bool) × F.post test self.zero zero × F.post test self.one one
            × F.post test self.two two
            × F.post test self.three three
            × (result ≡ (zero && one && two && three)) }
    {
        let zero = test(self.zero);
        let one = test(self.one);
        let two = test(self.two);
        let three = test(self.three);
        zero & one & two & three
    }
}
