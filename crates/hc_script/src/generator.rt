//! A script that is made from a number, one command at a time.
ghost use Rattle.std.specs.Prelude.{◌≡◌, ◌<◌, [], ◌∷◌, length, slice_index_or, IfOk, OnOk, IfSome, IfNone};
ghost use Rattle.hc_names.specs.Names.{with_text};
ghost use Rattle.hc_names.specs.declared.TheConstants.{MAX_NAMES};
ghost use Rattle.hc_commands.specs.Numbers.{IsCommandBelow};
ghost use Rattle.hc_script.specs.Generator.{the_names, generated};

mod draws;
mod progress;
mod table;
mod words;

use crate::Command;
use hc_names::{NameFault, Names};
use hc_value::Memory;
use progress::Progress;
use std::alloc::Global;
use std::marker::Model;
pub use words::{GenRequest, gen_request};

/// How many names and texts there are.
const COUNT: u32 = 9;

/// Gives the commands of a script that is made from a number. Contracts see the commands that it has still to give.
#[derive(Drop)]
pub struct Generator {
    names: Names,
    left: u32,
    progress: Progress,
}

impl Model for Generator {
    ghost use Rattle.std.specs.Prelude.{List};
    ghost use Rattle.hc_commands.specs.declared.command.Command.{Command};

    ghost Value = { List Command };

    ghost use Rattle.hc_script.specs.GeneratorView.{commands_left, IsGenerator};

    ghost view = { commands_left };

    ghost invariant = { IsGenerator };
}

impl Generator {
    /// A script of `n` commands from the number `start`.
    pub fn gen_new(alloc: Global, n: u32, start: u64) -> Result<Generator, Memory>
        ensures commands { IfOk result (λ generator. generator ≡ generated n start) }
        ensures count { length (generated n start) ≡ n }
    {
        Ok(Generator {
            names: interned(alloc)?,
            left: n,
            progress: Progress::new(start),
        })
    }

    /// The next command; `None` exactly where all were given, and from then on for good.
    pub fn gen_next(&mut self) -> Option<Command>
        ensures given { IfSome result (λ command. self.old ≡ command ∷ self.new) }
        ensures ended { IfNone result ((self.old ≡ []) × (self.new ≡ [])) }
        ensures numbers { IfSome result (λ command. IsCommandBelow (length the_names) command) }
    {
        if self.left == 0 {
            return None;
        }
        self.left -= 1;
        Some(self.progress.advance())
    }

    /// The names and texts of all its commands.
    pub fn names(&self) -> &Names
        ensures { result.now ≡ the_names }
    {
        &self.names
    }
}

// The names and texts of all commands, interned in their order.
fn interned(alloc: Global) -> Result<Names, Memory>
    ensures { IfOk result (λ names. names ≡ the_names) }
{
    let mut names = Names::new(alloc);
    for n in 0..COUNT {
        add_name(&mut names, name(n))?;
    }
    Ok(names)
}

fn name(n: u32) -> &'static str
    requires { n < 9 }
    ensures { result.now ≡ slice_index_or the_names n [] }
{
    match n {
        0 => "n0",
        1 => "n1",
        2 => "n2",
        3 => "n3",
        4 => "n4",
        5 => "n5",
        6 => "n6",
        7 => "n7",
        _ => "t",
    }
}

fn add_name(names: &mut Names, text: &str) -> Result<(), Memory>
    requires room { length names.old < MAX_NAMES }
    ensures { OnOk result (names.new ≡ with_text names.old text.now) }
{
    match names.intern(text) {
        Ok(_) => Ok(()),
        Err(NameFault::Memory) => Err(Memory),
        Err(NameFault::Full) => unreachable!(),
    }
}
