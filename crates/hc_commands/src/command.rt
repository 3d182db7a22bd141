use hc_plan::Op;
use hc_value::{PropDesc, Value};

/// How many reads a job makes.
#[derive(Clone, Copy)]
pub enum Reads {
    Count(u32),
    All,
}

/// A command of the script. A name is its number among the names.
#[derive(Clone, Copy)]
pub enum Command {
    /// Makes an object with this prototype.
    New(Option<u32>),
    /// Reads an object's property.
    Get(u32, u32),
    /// Writes an object's property.
    Set(u32, u32, Value),
    /// Defines an object's property.
    Define(u32, u32, PropDesc),
    /// Asks whether an object or one of its prototypes has a property.
    Has(u32, u32),
    /// Asks for an object's own property.
    Own(u32, u32),
    /// Deletes an object's own property.
    Delete(u32, u32),
    /// Lists the names of an object's own properties.
    Keys(u32),
    /// Asks for an object's prototype.
    Proto(u32),
    /// Gives an object another prototype.
    SetProto(u32, Option<u32>),
    /// Asks whether an object may get new properties.
    Extensible(u32),
    /// Keeps an object from new properties.
    Lock(u32),
    /// Locks an object and keeps its properties from deletion.
    Seal(u32),
    /// Seals an object and keeps its values from writes.
    Freeze(u32),
    /// Asks how an object is kept.
    Shape(u32),
    /// Asks whether two objects are kept by one map.
    Same(u32, u32),
    /// Declares a site that reads or writes a property of this name.
    Declare(Op, u32),
    /// Runs a site on an object, with a value where it writes.
    Exec(u32, u32, Option<Value>),
    /// Starts a job for a site.
    Compile(u32),
    /// Has a job make reads.
    Step(u32, Reads),
    /// Has a job make reads in the midst of a later command.
    During(u32, u32, Reads),
    /// Ends a job.
    Finish(u32),
}
