use crate::{Names32, Prop, Value};

/// Why an object is kept in a dictionary. The first cause stays.
#[derive(Clone, Copy, Debug, PartialEq, Eq)]
pub enum Cause {
    Deleted,
    Many,
    Reconfigured,
    Space,
}

/// How an object is kept: fast with so many properties, or slow.
#[derive(Clone, Copy, Debug, PartialEq, Eq)]
pub enum Mode {
    Fast(u32),
    Slow(Cause),
}

/// The reply to a command.
#[derive(Debug, Drop)]
pub enum Reply {
    /// A new object.
    Object(u32),
    Val(Value),
    /// The call of a getter, with the object asked.
    Call(u32, u32),
    /// The call of a setter, with the object asked and the value.
    CallWith(u32, u32, Value),
    Flag(bool),
    Property(Option<Prop>),
    NameList(Names32),
    Proto(Option<u32>),
    Shape(Mode),
    Site(u32),
    Job(u32),
    Fine,
    Finished,
    NoObject,
    NoSite,
    NoJob,
    WrongSite,
    NoRoom,
    Full,
}
