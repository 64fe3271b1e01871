ghost use Rattle.std.specs.Prelude.{◌≡◌, ℕ, ◌+◌, ◌≤◌, drop, pos, Decides};
ghost use Rattle.std.specs.List.{list_all};
ghost use Rattle.rows.specs.Lawful.{LawfulMarks, LawfulBound, Lawful, is_within_limit, is_zero, has_lawful_marks, has_lawful_bound, is_lawful};
ghost use Rattle.rows.specs.Moves.{Clocks, marks, with_wait, before_reset, after_wait, mark_after_wait, SaysBeforeReset, SaysAfterWait};
ghost use Rattle.rows.specs.Valuations.{Tells, is_ordered, is_met};

use crate::clock_set::ClockSet;
use crate::valuation::Valuation;

/// How many coefficients a row has: the scale's, and one for each parameter that there may be.
pub const COEFFICIENTS: usize = 7;

/// The bound xi − xj ≤ t0·k + t1·p1 + … + t6·p6, or < when strict: k is the scale, p1 to p6 are the parameters.
///
/// Mark 0 is always 0, marks 1 to 6 are the clocks, mark 7 is the time waited.
#[derive(Clone, Copy, Debug, Default, PartialEq, Eq, Hash)]
pub struct Row {
    pub i: u8,
    pub j: u8,
    pub strict: bool,
    pub t: [i32; COEFFICIENTS],
}

/// No coefficient of a lawful row is farther from 0.
pub const LARGEST_COEFFICIENT: i32 = 1_000_000;

/// The mark that stands for the time waited: the one behind those of the clocks.
pub const WAITED: u8 = 7;

fn is_within_limit(z: i32) -> bool
    ensures { result ≡ is_within_limit z }
{
    (-LARGEST_COEFFICIENT..=LARGEST_COEFFICIENT).contains(&z)
}

fn mark_after_wait(mark: u8) -> u8
    ensures value { result ≡ mark_after_wait mark }
    ensures law { mark ≤ 6 → (w : Clocks) (d : ℕ) → marks (with_wait w d) result ≡ marks w mark + d }
{
    if mark == 0 { WAITED } else { mark }
}

// Whether 0 < bound where strict, else whether 0 ≤ bound.
fn is_above_zero(strict: bool, bound: i128) -> bool
    ensures { result ≡ is_ordered strict (pos 0) bound }
{
    if strict { 0 < bound } else { 0 <= bound }
}

impl Row {
    fn has_lawful_marks(&self, clocks: u8) -> bool
        ensures decides { Decides result (LawfulMarks clocks self.now) }
        ensures value { result ≡ has_lawful_marks clocks self.now }
    {
        self.i <= clocks && self.j <= clocks && (self.i != self.j || self.i == 0)
    }

    // Whether every coefficient is within the limit.
    fn is_small(&self) -> bool
        ensures value { result ≡ list_all is_within_limit self.now.t }
    {
        self.t.iter().all(|z| is_within_limit(*z))
    }

    // Whether the coefficients of the parameters above that number are 0.
    fn lacks_parameters_above(&self, parameters: u8) -> bool
        ensures value { result ≡ list_all is_zero (drop (1 + parameters) self.now.t) }
    {
        self.t
            .iter()
            .skip(1 + usize::from(parameters))
            .all(|z| *z == 0)
    }

    #[tactic(auto, using(crate::proofs::Lawful::bound_decides, crate::proofs::Lawful::small_where_bound))]
    fn has_lawful_bound(&self, parameters: u8) -> bool
        ensures decides { Decides result (LawfulBound parameters self.now) }
        ensures value { result ≡ has_lawful_bound parameters self.now }
    {
        self.is_small() && self.lacks_parameters_above(parameters)
    }

    /// Whether both marks are at most the number of clocks, and differ or are both 0; and the coefficients are within
    /// their limit, those of parameters above the number of parameters being 0.
    pub fn is_lawful(&self, clocks: u8, parameters: u8) -> bool
        ensures decides { Decides result (Lawful clocks parameters self.now) }
        ensures value { result ≡ is_lawful clocks parameters self.now }
    {
        self.has_lawful_marks(clocks) && self.has_lawful_bound(parameters)
    }

    // The same bound on other marks, each replaced by what the function gives for it.
    fn on_marks<F: Fn(u8) -> u8>(&self, replaced: F) -> Row
        requires { F.IsAlwaysCallable replaced }
        ensures i { F.post replaced self.now.i result.i }
        ensures j { F.post replaced self.now.j result.j }
        ensures rest { result ≡ record { i = result.i; j = result.j; strict = self.now.strict; t = self.now.t } }
    {
        Row {
            i: replaced(self.i),
            j: replaced(self.j),
            ..*self
        }
    }

    /// The row that holds at a state exactly when this one holds after the clocks of the set are reset: those clocks are
    /// replaced by mark 0.
    pub fn before_reset(&self, resets: &ClockSet) -> Row
        ensures value { result ≡ before_reset resets.now self.now }
        ensures law { SaysBeforeReset resets.now self.now result }
    {
        self.on_marks(|mark| resets.mark_before(mark))
    }

    /// The row that holds after a wait of x7 exactly when this one, on marks up to 6, held before it: where its marks
    /// differ, mark 7 takes the place of mark 0.
    pub fn after_wait(&self) -> Row
        ensures value { result ≡ after_wait self.now }
        ensures law { SaysAfterWait self.now result }
    {
        if self.i == self.j {
            *self
        } else {
            self.on_marks(mark_after_wait)
        }
    }

    /// Whether the row holds at the setting where all clocks are 0; if its marks are equal, then whether it holds there whatever
    /// the clocks are.
    pub fn is_met(&self, valuation: &Valuation) -> bool
        ensures tells { Tells valuation.now.scale valuation.now.values.now self.now result }
        ensures value { result ≡ is_met valuation.now.scale valuation.now.values.now self.now }
    {
        is_above_zero(self.strict, valuation.bound(&self.t))
    }
}
