//! What is wrong with bytes that spell no tree.

use thiserror::Error;

/// What is wrong with bytes that spell no tree: the first fault in reading order.
#[derive(Clone, Copy, Debug, PartialEq, Eq, Error)]
pub enum Fault {
    /// The bytes end before the tree does.
    #[error("B1 Truncated")]
    Truncated,
    /// No value begins with this byte.
    #[error("B2 BadByte")]
    BadByte,
    /// An integer is not in its shortest form, or does not end with an `e`.
    #[error("B3 BadInteger")]
    BadInteger,
    /// An integer does not fit 64 bits.
    #[error("B4 IntegerRange")]
    IntegerRange,
    /// A string's length is not in its shortest form, or does not end with a colon.
    #[error("B5 BadLength")]
    BadLength,
    /// A key is no byte string.
    #[error("B6 KeyNotBytes")]
    KeyNotBytes,
    /// A key is not above the key before it.
    #[error("B7 KeyOrder")]
    KeyOrder,
    /// The hundred and first list or dictionary would be open.
    #[error("B8 TooDeep")]
    TooDeep,
    /// A byte follows the tree.
    #[error("B9 Trailing")]
    Trailing,
}
