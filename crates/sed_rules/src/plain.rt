//! What initial values come to, in the few forms that they have.

/// What an initial value comes to. A byte or a short is an int here, as an expression reads it.
#[derive(Clone, Copy)]
pub enum Plain {
    /// 0 is false, 1 is true, 2 is null.
    Bool(u8),
    Int(i32),
    Long(i64),
    /// `null`, which its place makes a bool.
    Null,
    /// A text literal of so many characters.
    Text(usize),
    /// Neither a literal nor a define.
    Nothing,
    /// A literal above its bound, or a define that has itself no value: no rule on values speaks of it.
    Unknown,
}
