//! What each command does: the questions of how objects are kept, and the commands on property tables, however these are
//! kept.
ghost use Rattle.std.specs.Prelude.{◌≡◌, ◌≤◌, true, false, length, IfOk, OnOk, OnErr};
ghost use Rattle.hc_value.specs.declared.word.TheConstants.{NUMBER_LIMIT};
ghost use Rattle.hc_commands.specs.declared.command.Command.TheVariants.{New, Shape as ShapeCommand, Same as SameCommand};
ghost use Rattle.hc_objects.specs.Came.{Moves, world_of};
ghost use Rattle.hc_table.specs.Changes.{Moved, IsThere};
ghost use Rattle.hc_session.specs.Plain.{IsServed, is_beside};
ghost use Rattle.hc_session.specs.Standing.{tables_of};
ghost use Rattle.hc_session.specs.State.{IsTrueReply, Used, did_in_want};
ghost use Rattle.hc_session.specs.Tables.{AnswersOnTables, HasNumbers, IsOnTables, IsReplyOf, act_there, all_there, did_by, did_in, new_act, tables_in};
ghost use Rattle.hc_session.specs.Using.{AreReadied, MovesInWant, uses_if};

mod there;

use crate::using::ready;
use hc_heap::Pace;
use hc_objects::Objects;
use hc_ops::{define, delete, freeze, get, has, keys, lock, own, seal, set, set_proto};
use hc_script::Command;
use hc_table::{TableFault, Tables};
use hc_value::{Memory, Reply};
use std::alloc::Global;
use there::are_all_there;
pub use there::is_value_there;

/// Performs a command on objects. The allocator is for lists of names.
pub fn perform<P: Pace>(
    objects: &mut Objects<P>,
    command: &Command,
    alloc: Global,
) -> Result<Reply, Memory>
    requires served { IsServed command.now }
    requires objects { is_beside command.now ≡ false }
    requires numbers { HasNumbers command.now }
    requires few { objects.old.heap.view.shape.objects ≤ NUMBER_LIMIT }
    ensures answers { IfOk result (λ reply. AnswersOnTables (tables_of objects.old) command.now reply (tables_of objects.new)) }
    ensures kept { IfOk result (λ reply. IsTrueReply objects.new command.now reply) }
    ensures used { OnOk result (Used P.went objects.old (all_there (tables_of objects.old) command.now) command.now
        (did_by (tables_of objects.old) command.now) objects.new) }
    ensures want { OnErr result (MovesInWant P.went objects.old (uses_if (all_there (tables_of objects.old) command.now) command.now)
        objects.new) }
    ensures err { OnErr result (world_of objects.new ≡ world_of objects.old) }
    ensures limit { objects.new.heap.view.shape.objects ≡ objects.old.heap.view.shape.objects }
{
    match command {
        Command::Shape(o) => tell_shape(objects, *o),
        Command::Same(a, b) => tell_same(objects, *a, *b),
        _ => perform_used(objects, command, alloc),
    }
}

// How an object is kept, if it is there.
fn tell_shape<P: Pace>(objects: &mut Objects<P>, o: u32) -> Result<Reply, Memory>
    ensures answers { IfOk result (λ reply. AnswersOnTables (tables_of objects.old) (ShapeCommand o) reply (tables_of objects.new)) }
    ensures kept { IfOk result (λ reply. IsTrueReply objects.new (ShapeCommand o) reply) }
    ensures readied { OnOk result (AreReadied P.went objects.old (uses_if (all_there (tables_of objects.old) (ShapeCommand o)) (ShapeCommand o))
        objects.new) }
    ensures want { OnErr result (Moves P.went objects.old objects.new) }
    ensures tables { tables_of objects.new ≡ tables_of objects.old }
{
    if o >= Objects::count(objects) {
        return Ok(Reply::NoObject);
    }
    Ok(Reply::Shape(objects.shape(o)?))
}

// Whether two objects are fast and have one map, if they are there.
fn tell_same<P: Pace>(objects: &mut Objects<P>, a: u32, b: u32) -> Result<Reply, Memory>
    ensures answers { IfOk result (λ reply. AnswersOnTables (tables_of objects.old) (SameCommand a b) reply (tables_of objects.new)) }
    ensures kept { IfOk result (λ reply. IsTrueReply objects.new (SameCommand a b) reply) }
    ensures readied { OnOk result (AreReadied P.went objects.old (uses_if (all_there (tables_of objects.old) (SameCommand a b)) (SameCommand a b))
        objects.new) }
    ensures want { OnErr result (Moves P.went objects.old objects.new) }
    ensures tables { tables_of objects.new ≡ tables_of objects.old }
{
    let count = Objects::count(objects);
    if a >= count || b >= count {
        return Ok(Reply::NoObject);
    }
    Ok(Reply::Flag(objects.same(a, b)?))
}

// Performs a command on objects that doesn't ask how they are kept. Those that it uses are migrated first.
fn perform_used<P: Pace>(
    objects: &mut Objects<P>,
    command: &Command,
    alloc: Global,
) -> Result<Reply, Memory>
    requires tables { IsOnTables command.now }
    requires numbers { HasNumbers command.now }
    requires few { objects.old.heap.view.shape.objects ≤ NUMBER_LIMIT }
    ensures answers { IfOk result (λ reply. AnswersOnTables (tables_of objects.old) command.now reply (tables_of objects.new)) }
    ensures used { OnOk result (Used P.went objects.old (all_there (tables_of objects.old) command.now) command.now
        (did_by (tables_of objects.old) command.now) objects.new) }
    ensures want { OnErr result (MovesInWant P.went objects.old (uses_if (all_there (tables_of objects.old) command.now) command.now)
        objects.new) }
    ensures err { OnErr result (world_of objects.new ≡ world_of objects.old) }
    ensures limit { objects.new.heap.view.shape.objects ≡ objects.old.heap.view.shape.objects }
{
    let count = Objects::count(objects);
    if !are_all_there(command, count) {
        return Ok(Reply::NoObject);
    }
    ready(objects, command)?;
    act(objects, command, alloc)
}

/// Performs a command on property tables. The allocator is for lists of names.
pub fn perform_on_tables<T: Tables>(
    tables: &mut T,
    command: &Command,
    alloc: Global,
) -> Result<Reply, Memory>
    requires tables { IsOnTables command.now }
    requires numbers { HasNumbers command.now }
    requires few { T.limit tables.old ≤ NUMBER_LIMIT }
    ensures done { IfOk result (λ reply. AnswersOnTables (tables_in T.world T.limit tables.old) command.now reply
        (tables_in T.world T.limit tables.new)) }
    ensures came { OnOk result (T.came tables.old (did_by (tables_in T.world T.limit tables.old) command.now) tables.new) }
    ensures err { OnErr result (T.world tables.new ≡ T.world tables.old) }
    ensures want { OnErr result (T.came tables.old (did_in_want command.now) tables.new) }
    ensures limit { T.limit tables.new ≡ T.limit tables.old }
{
    let count = tables.count();
    if !are_all_there(command, count) {
        return Ok(Reply::NoObject);
    }
    act(tables, command, alloc)
}

// Performs a command where each object that it names is there.
fn act<T: Tables>(tables: &mut T, command: &Command, alloc: Global) -> Result<Reply, Memory>
    requires tables { IsOnTables command.now }
    requires numbers { HasNumbers command.now }
    requires few { length (T.world tables.old) ≤ NUMBER_LIMIT }
    requires there { all_there (tables_in T.world T.limit tables.old) command.now ≡ true }
    ensures reply { IfOk result (λ reply. IsReplyOf command.now (act_there (tables_in T.world T.limit tables.old) command.now) reply) }
    ensures came { OnOk result (T.came tables.old (did_in (act_there (tables_in T.world T.limit tables.old) command.now)) tables.new) }
    ensures err { OnErr result (T.world tables.new ≡ T.world tables.old) }
    ensures want { OnErr result (T.came tables.old (did_in_want command.now) tables.new) }
    ensures limit { T.limit tables.new ≡ T.limit tables.old }
{
    match command {
        Command::New(proto) => create(tables, *proto),
        Command::Get(o, name) => Ok(get(tables, *o, *name)),
        Command::Set(o, name, value) => set(tables, *o, *name, *value),
        Command::Define(o, name, descriptor) => define(tables, *o, *name, descriptor),
        Command::Has(o, name) => Ok(has(tables, *o, *name)),
        Command::Own(o, name) => Ok(own(tables, *o, *name)),
        Command::Delete(o, name) => delete(tables, *o, *name),
        Command::Keys(o) => keys(tables, *o, alloc),
        Command::Proto(o) => Ok(Reply::Proto(tables.proto(*o))),
        Command::SetProto(o, proto) => set_proto(tables, *o, *proto),
        Command::Extensible(o) => Ok(Reply::Flag(tables.extensible(*o))),
        Command::Lock(o) => lock(tables, *o),
        Command::Seal(o) => seal(tables, *o),
        Command::Freeze(o) => freeze(tables, *o),
        _ => unreachable!(),
    }
}

// Makes an object, if there may be one more.
fn create<T: Tables>(tables: &mut T, proto: Option<u32>) -> Result<Reply, Memory>
    requires there { IsThere (T.world tables.old) proto }
    ensures reply { IfOk result (λ reply. reply ≡ (new_act (tables_in T.world T.limit tables.old) proto).reply) }
    ensures came { OnOk result (T.came tables.old (new_act (tables_in T.world T.limit tables.old) proto).did tables.new) }
    ensures err { OnErr result (T.world tables.new ≡ T.world tables.old) }
    ensures moved { OnErr result (T.came tables.old Moved tables.new) }
    ensures limit { T.limit tables.new ≡ T.limit tables.old }
{
    match tables.create(proto) {
        Ok(o) => Ok(Reply::Object(o)),
        Err(TableFault::Full) => Ok(Reply::Full),
        Err(TableFault::Memory) => Err(Memory),
    }
}
