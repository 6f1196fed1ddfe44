//! A value, and a call with its arguments.

use fl_base::MsgNo;

/// A value of an argument, a field or an element.
#[derive(Debug, Drop)]
pub enum Value {
    /// A scalar, a bool (0 or 1), a char, or an enumerator's place from 0.
    Int(i128),
    /// A string's bytes.
    Text(Vec<u8>),
    /// An array's elements.
    List(Vec<Value>),
    /// A struct's fields.
    Fields(Vec<Value>),
}

/// A call: the message's number and its arguments, in declared order.
#[derive(Debug, Drop)]
pub struct Call {
    /// The message, by its number.
    pub msg: MsgNo,
    /// A value of each argument.
    pub args: Vec<Value>,
}

/// Which of the two payload plans lays a call out.
#[derive(Clone, Copy, Debug, PartialEq, Eq)]
pub enum PlanNo {
    /// Arguments in declared order.
    One,
    /// Fixed arguments first, in falling alignment and then in declared order; then the others.
    Two,
}
