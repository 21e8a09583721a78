// How far changes reach: to no number, to one, or to more.
ghost use Rattle.std.specs.Prelude.{◌≡◌};
ghost use Rattle.swarm_replicated.specs.Inside.Reach.{joined, with_one};

/// The numbers of what is changed: there are none, there is one, or there are more.
#[derive(Clone, Copy, Drop)]
pub enum Reach {
    Nothing,
    One(u64),
    More,
}

impl Reach {
    // To this number as well.
    fn with_one(self, number: u64) -> Reach
        ensures { result ≡ with_one number self }
    {
        match self {
            Reach::Nothing => Reach::One(number),
            Reach::One(other) => {
                if number == other {
                    Reach::One(number)
                } else {
                    Reach::More
                }
            }
            Reach::More => Reach::More,
        }
    }

    /// To what either of them reaches.
    pub fn joined(self, other: Reach) -> Reach
        ensures { result ≡ joined self other }
    {
        match self {
            Reach::Nothing => other,
            Reach::One(number) => other.with_one(number),
            Reach::More => Reach::More,
        }
    }
}
