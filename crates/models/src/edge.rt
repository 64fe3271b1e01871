use rows::ClockSet;

/// An edge without its guard: where it leads from and to, its action, and the clocks that it sets to 0.
#[derive(Clone, Copy, Debug, PartialEq, Eq, Hash)]
pub struct Edge {
    pub source: u8,
    pub target: u8,
    pub action: u8,
    pub resets: ClockSet,
}
