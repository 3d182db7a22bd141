//! How far a script has come that is made from a number.
ghost use Rattle.std.specs.Prelude.{◌≡◌, ◌+◌, ◌<◌, ◌≤◌, ◌^◌, [], true, length};
ghost use Rattle.hc_commands.specs.Numbers.{IsCommandBelow};
ghost use Rattle.hc_script.specs.Generator.{the_names, draws_from, after_draws, command_of_draws, next_command, makes_object, finishes_job, progress_behind};
ghost use Rattle.hc_script.specs.GeneratorView.{IsProgress, counted, one_further};

use super::draws::draw_all;
use super::table::{command_of_draws, opening};
use crate::Command;

/// The number that is drawn from, and how many objects were made, jobs started and finished, and commands given.
#[derive(Clone, Copy)]
pub struct Progress {
    pub number: u64,
    pub objects: u32,
    pub started: u32,
    pub finished: u32,
    pub given: u32,
}

impl Progress {
    /// No command was given.
    pub fn new(start: u64) -> Progress
        ensures progress { result ≡ progress_behind start [] }
        ensures sound { IsProgress result }
    {
        Progress {
            number: start,
            objects: 0,
            started: 0,
            finished: 0,
            given: 0,
        }
    }

    /// Gives the next command.
    pub fn advance(&mut self) -> Command
        requires sound { IsProgress self.old }
        requires room { self.old.given + 1 < 2 ^ 32 }
        ensures command { result ≡ next_command self.old }
        ensures progress { self.new ≡ one_further self.old }
        ensures sound { IsProgress self.new }
        ensures below { IsCommandBelow (length the_names) result }
    {
        let command = match opening(self.given) {
            Some(command) => command,
            None => self.draw_command(),
        };
        self.count(&command);
        command
    }

    // The command that is drawn next.
    fn draw_command(&mut self) -> Command
        requires sound { IsProgress self.old }
        requires later { 16 ≤ self.old.given }
        ensures command { result ≡ command_of_draws (draws_from self.old.number) self.old }
        ensures number { self.new ≡ record self.old { number = after_draws 4 self.old.number } }
        ensures open { finishes_job result ≡ true → self.old.finished < self.old.started }
        ensures below { IsCommandBelow (length the_names) result }
    {
        let draws = draw_all(&mut self.number);
        command_of_draws(&draws, self)
    }

    // Counts a command that is given.
    fn count(&mut self, command: &Command)
        requires sound { IsProgress self.old }
        requires room { self.old.given + 1 < 2 ^ 32 }
        requires objects { self.old.given < 8 → makes_object command.now ≡ true }
        requires open { finishes_job command.now ≡ true → self.old.finished < self.old.started }
        ensures counted { self.new ≡ counted self.old command.now }
        ensures sound { IsProgress self.new }
    {
        match command {
            Command::New(_) => self.objects += 1,
            Command::Compile(_) => self.started += 1,
            Command::Finish(_) => self.finished += 1,
            _ => {}
        }
        self.given += 1;
    }
}
