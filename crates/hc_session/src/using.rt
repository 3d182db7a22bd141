//! The objects that a command uses are migrated before it does anything else.
ghost use Rattle.std.specs.Prelude.{◌≡◌, ◌<◌, true, [], ◌∷◌, length, OnOk, OnErr};
ghost use Rattle.hc_heap.specs.States.{OnlyLoads};
ghost use Rattle.hc_modes.specs.State.{IsLive};
ghost use Rattle.hc_objects.specs.Came.{Moves, world_of};
ghost use Rattle.hc_table.specs.Changes.{IsThere};
ghost use Rattle.hc_session.specs.Standing.{tables_of};
ghost use Rattle.hc_session.specs.Tables.{IsOnTables, all_there};
ghost use Rattle.hc_session.specs.Using.{AreReadied, MovesInWant, named_if, object_of, proto_of, uses_of};

use hc_heap::Pace;
use hc_objects::Objects;
use hc_script::Command;
use hc_value::Memory;

/// Migrates the objects that a command uses, in the order of its line.
pub fn ready<P: Pace>(objects: &mut Objects<P>, command: &Command) -> Result<(), Memory>
    requires tables { IsOnTables command.now }
    requires there { all_there (tables_of objects.old) command.now ≡ true }
    ensures readied { OnOk result (AreReadied P.went objects.old (uses_of command.now) objects.new) }
    ensures moves { OnErr result (MovesInWant P.went objects.old (uses_of command.now) objects.new) }
    ensures tables { tables_of objects.new ≡ tables_of objects.old }
{
    ready_named(objects, object_of(command))?;
    ready_named(objects, proto_of(command))
}

// The object that a command names as its own, where it uses it before it does anything else.
fn object_of(command: &Command) -> Option<u32>
    ensures { result ≡ object_of command.now }
{
    match command {
        Command::Get(o, _)
        | Command::Set(o, _, _)
        | Command::Define(o, _, _)
        | Command::Has(o, _)
        | Command::Own(o, _)
        | Command::Delete(o, _)
        | Command::Keys(o)
        | Command::Proto(o)
        | Command::SetProto(o, _)
        | Command::Extensible(o)
        | Command::Lock(o)
        | Command::Seal(o)
        | Command::Freeze(o)
        | Command::Exec(_, o, _) => Some(*o),
        _ => None,
    }
}

// The object that it names as prototype, likewise.
fn proto_of(command: &Command) -> Option<u32>
    ensures { result ≡ proto_of command.now }
{
    match command {
        Command::SetProto(_, proto) => *proto,
        _ => None,
    }
}

// Migrates an object, if one is named.
fn ready_named<P: Pace>(objects: &mut Objects<P>, named: Option<u32>) -> Result<(), Memory>
    requires there { IsThere (world_of objects.old) named }
    ensures readied { OnOk result (AreReadied P.went objects.old (named_if named) objects.new) }
    ensures moves { OnErr result (MovesInWant P.went objects.old (named_if named) objects.new) }
    ensures tables { tables_of objects.new ≡ tables_of objects.old }
{
    match named {
        Some(o) => ready_one(objects, o),
        None => Ok(()),
    }
}

/// Migrates an object.
pub fn ready_one<P: Pace>(objects: &mut Objects<P>, o: u32) -> Result<(), Memory>
    requires there { o < length (world_of objects.old) }
    ensures readied { OnOk result (AreReadied P.went objects.old (o ∷ []) objects.new) }
    ensures moves { OnErr result (Moves P.went objects.old objects.new) }
    ensures tables { tables_of objects.new ≡ tables_of objects.old }
    ensures live { OnOk result (IsLive objects.new.heap.view.trail o) }
    ensures loads { OnOk result (objects.new.heap.desk.trail ≡ objects.old.heap.desk.trail
        → OnlyLoads 2 objects.old.heap.desk objects.new.heap.desk) }
{
    objects.stands();
    let done = objects.migrate(o);
    objects.stands();
    done
}
