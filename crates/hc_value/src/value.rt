use crate::Num;

/// A value of the language. A text is its number among the interned texts, an object its number among the
/// objects.
#[derive(Clone, Copy, Debug, PartialEq, Eq)]
pub enum Value {
    Undefined,
    Null,
    Bool(bool),
    Int(Num),
    Text(u32),
    Obj(u32),
}
