/// The most values that a line may have: those of a row with its owner.
pub const MAX_VALUES: usize = 11;

/// The values of a line: the first `count` of the array.
// The library's `ArrayVec` would hold both, but is not `Copy`. Equality is not derived: it would ask
// what lies behind the first `count`.
#[derive(Clone, Copy, Debug)]
pub struct Values {
    pub held: [i32; MAX_VALUES],
    pub count: usize,
}
