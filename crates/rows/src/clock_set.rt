ghost use Rattle.std.specs.Prelude.{◌≡◌, not, ◌||◌, drop, Decides, nat_lt};
ghost use Rattle.std.specs.List.{list_all, enumerate_from};
ghost use Rattle.rows.specs.Moves.{Clocks, marks, has, WithinClocks, is_within_clocks, after_reset, mark_before_reset};

/// The most clocks that a model may have.
pub const MAX_CLOCKS: usize = 6;

/// A set of clocks: place c − 1 tells whether clock c is in it.
// Clocks count from 1, so sets of other numbers are other types.
#[derive(Clone, Copy, Debug, Default, PartialEq, Eq, Hash)]
pub struct ClockSet {
    pub members: [bool; MAX_CLOCKS],
}

impl ClockSet {
    /// Whether the clock of that number is in the set; 0 and what is above 6 is no clock.
    pub fn has(&self, clock: u8) -> bool
        ensures value { result ≡ has self.now clock }
    {
        // For clock 0 the place wraps past the end.
        self.members
            .get(usize::from(clock).wrapping_sub(1))
            .copied()
            .unwrap_or(false)
    }

    // Whether every clock of the set stands before the place. Each member is asked: behind a `skip` the compiler would not unroll
    // the chain.
    fn has_only_before(&self, place: usize) -> bool
        ensures value { result ≡ list_all (λ p. not p.1 || nat_lt p.0 place) (enumerate_from 0 self.now.members) }
    {
        self.members
            .iter()
            .enumerate()
            .all(|(c, member)| !member || c < place)
    }

    // Whether no clock that stands at the place or behind it is in the set.
    #[tactic(auto, using(crate::proofs::Places::from_place))]
    fn has_none_from(&self, place: usize) -> bool
        ensures value { result ≡ list_all not (drop place self.now.members) }
    {
        self.has_only_before(place)
    }

    /// Whether every clock of the set is one of the first `clocks` clocks.
    #[tactic(auto, using(crate::proofs::Clocks::within_clocks_decides))]
    pub fn is_within(&self, clocks: u8) -> bool
        ensures decides { Decides result (WithinClocks clocks self.now) }
        ensures value { result ≡ is_within_clocks clocks self.now }
    {
        self.has_none_from(usize::from(clocks))
    }

    // The mark with the clocks of the set replaced by mark 0.
    pub(crate) fn mark_before(&self, mark: u8) -> u8
        ensures value { result ≡ mark_before_reset self.now mark }
        ensures law { (w : Clocks) → marks w result ≡ marks (after_reset self.now w) mark }
    {
        if self.has(mark) { 0 } else { mark }
    }
}
