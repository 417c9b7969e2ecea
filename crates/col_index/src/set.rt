//! Sets of numbers, with ranks.
ghost use Rattle.std.specs.Prelude.{◌≡◌, Bool, Option, Some};
ghost use Rattle.col_common.specs.Reading.{only_if};
ghost use Rattle.col_index.specs.Laws.{IsRanked};

/// A set of numbers in order; the rank of a number is how many of the set are below it.
pub trait Set<T> {
    /// Whether a number is in.
    ghost holds: { Self → T → Bool };

    /// How many numbers of the set are below a number.
    ghost rank_of: { Self → T → T };

    /// The number of the set with a rank, none past the last.
    ghost at_rank: { Self → T → Option T };

    /// A rank below the count.
    ghost IsRank: { Self → T → Type 0 };

    /// Whether a number is in.
    fn contains(&self, el: T) -> bool
        ensures { result ≡ holds self.now el };

    /// How many numbers of the set are below a number.
    fn rank(&self, el: T) -> T
        ensures { result ≡ rank_of self.now el };

    /// The rank of a number that is in.
    fn rank_if_exists(&self, el: T) -> Option<T>
        ensures { result ≡ only_if (holds self.now el) (rank_of self.now el) };

    /// The number with a rank.
    fn select(&self, rank: T) -> T
        requires { IsRank self.now rank }
        ensures { at_rank self.now rank ≡ Some result };

    /// The law of a set, as a call that does nothing: ranks and what they select undo each other.
    fn ranks_are_undone(&self)
        ensures { IsRanked (holds self.now) (rank_of self.now) (at_rank self.now)
            (IsRank self.now) };
}

/// A reader of the numbers of a set by their ranks.
pub trait SelectCursor<T> {
    /// The number with a rank, none past the last.
    ghost at_rank: { Self → T → Option T };

    /// A rank below the count.
    ghost IsRank: { Self → T → Type 0 };

    /// The number with a rank.
    fn select(&mut self, rank: T) -> T
        requires { IsRank self.old rank }
        ensures value { at_rank self.old rank ≡ Some result }
        ensures same { self.new ≡ self.old };
}
