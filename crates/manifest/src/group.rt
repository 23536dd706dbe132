// Words that stand one behind the other.
use words::Token;

// Where they begin, how many they are, whether one's name has over 120 bytes, and the mark behind them with the offset behind that.
#[derive(Clone, Copy)]
pub(super) struct Group {
    pub(super) at: usize,
    pub(super) count: usize,
    pub(super) long: bool,
    pub(super) mark: Token,
    pub(super) next: usize,
}
