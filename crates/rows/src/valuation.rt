ghost use Rattle.std.specs.Prelude.{◌≡◌, ◌^◌, ◌≤◌, pos, ◌*ℤ◌, Decides, unsigned_abs};
ghost use Rattle.rows.specs.Points.{weighted_sum};
ghost use Rattle.rows.specs.Valuations.{ValuesWithinLimit, InRange, are_within_limit, is_in_range, weight_of};

use crate::row::COEFFICIENTS;

/// A setting in numbers: the scale, and the value of parameter c at place c − 1. A parameter without a value counts as 0.
#[derive(Clone, Copy, Debug, PartialEq, Eq, Hash)]
pub struct Valuation<'a> {
    pub scale: u32,
    pub values: &'a [u32],
}

/// The largest scale within the limits.
pub const LARGEST_SCALE: u32 = 1_000_000;

/// The largest value of a parameter within the limits.
pub const LARGEST_VALUE: u32 = 1_000_000_000;

fn are_within_limit(values: &[u32]) -> bool
    ensures decides { Decides result (ValuesWithinLimit values.now) }
    ensures value { result ≡ are_within_limit values.now }
{
    values.iter().all(|v| *v <= LARGEST_VALUE)
}

// A coefficient by its weight.
fn product(z: i32, weight: u32) -> i128
    ensures value { result ≡ z *ℤ pos weight }
    ensures size { unsigned_abs result ≤ 2 ^ 63 }
{
    i128::from(z) * i128::from(weight)
}

impl Valuation<'_> {
    /// Whether there is one value for each of so many parameters, the scale is from 1 to its limit, and no value is above its
    /// limit.
    pub fn is_in_range(&self, parameters: u8) -> bool
        ensures decides { Decides result (InRange parameters self.now.scale self.now.values.now) }
        ensures value { result ≡ is_in_range parameters self.now.scale self.now.values.now }
    {
        self.values.len() == usize::from(parameters)
            && (1..=LARGEST_SCALE).contains(&self.scale)
            && are_within_limit(self.values)
    }

    // What coefficient number c multiplies: the scale at 0, then the parameters.
    fn weight(&self, c: usize) -> u32
        ensures { result ≡ weight_of self.now.scale self.now.values.now c }
    {
        if c == 0 {
            return self.scale;
        }
        self.values.get(c - 1).copied().unwrap_or(0)
    }

    // t0·k + t1·p1 + … + t6·p6. A loop, since the check finds no bound on what a chain sums up of signed numbers.
    pub(crate) fn bound(&self, t: &[i32; COEFFICIENTS]) -> i128
        ensures { result ≡ weighted_sum (weight_of self.now.scale self.now.values.now) 0 t.now }
    {
        let mut sum: i128 = 0;
        for (c, z) in t.iter().enumerate() {
            sum += product(*z, self.weight(c));
        }
        sum
    }
}
