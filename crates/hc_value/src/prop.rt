ghost use Rattle.std.specs.Prelude.{◌≡◌};
ghost use Rattle.hc_value.specs.Prop.{kind_of};

use crate::{Attrs, Value};

/// What a property holds (ECMA-262, 6.1.7.1): a value, or a getter and a setter, each by its number.
#[derive(Clone, Copy, Debug, PartialEq, Eq)]
pub enum Held {
    Datum(Value),
    Pair(Option<u32>, Option<u32>),
}

/// Whether a property is a data property or an accessor property.
#[derive(Clone, Copy, Debug, PartialEq, Eq)]
pub enum Kind {
    DataProp,
    AccessorProp,
}

impl Held {
    pub fn kind(&self) -> Kind
        ensures { result ≡ kind_of self.now }
    {
        match self {
            Held::Datum(_) => Kind::DataProp,
            Held::Pair(_, _) => Kind::AccessorProp,
        }
    }
}

/// A property: its name, its attributes and what it holds.
#[derive(Clone, Copy, Debug, PartialEq, Eq)]
pub struct Prop {
    pub name: u32,
    pub attrs: Attrs,
    pub held: Held,
}

/// What a definition of a property gives (ECMA-262, 6.2.6): each field may be absent.
#[derive(Clone, Copy, Debug, PartialEq, Eq)]
pub struct PropDesc {
    pub value: Option<Value>,
    pub writable: Option<bool>,
    pub getter: Option<Option<u32>>,
    pub setter: Option<Option<u32>>,
    pub enumerable: Option<bool>,
    pub configurable: Option<bool>,
}
