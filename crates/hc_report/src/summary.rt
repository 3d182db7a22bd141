//! The summary of a run.
#![tactic(auto, using(crate::proofs::Fronts::fronts))]

ghost use Rattle.std.specs.Prelude.{◌≡◌, ◌<◌, ◌++◌, ℕ, List, true, codes, length, get_or, OnOk, OnErr};
ghost use Rattle.hc_report.specs.Front.{BeginsWith};
ghost use Rattle.hc_report.specs.Text.{reply_text};
ghost use Rattle.hc_report.specs.Summary.{tally_of, tallied, HasRoom, count_line, accesses_text, plans_text, summary_lines, summary_text, is_true};

use crate::line::Line;
use crate::log::Log;
use crate::text::{push_number, push_text};
use hc_value::{Memory, Reply, Value};

/// How many lines of each kind a log has.
#[derive(Clone, Copy)]
pub struct Tally {
    pub hits: u64,
    pub caches: u64,
    pub slows: u64,
    pub installs: u64,
    pub refusals: u64,
    pub noplans: u64,
    pub discards: u64,
}

/// Puts the summary of a run behind a text, which stays as it was where memory is wanting. The counts of lines are
/// those of the log.
pub fn render_summary(out: &mut Vec<u8>, commands: u64, trues: u64, log: &Log) -> Result<(), Memory>
    ensures ok { OnOk result (out.new.items ≡ out.old.items ++ summary_text commands trues log.now.lines) }
    ensures err { OnErr result (out.new.items ≡ out.old.items) }
{
    let before = out.len();
    let pushed = push_summary(out, commands, trues, &tally_of(log));
    if pushed.is_err() {
        out.truncate(before);
    }
    pushed
}

fn push_summary(out: &mut Vec<u8>, commands: u64, trues: u64, tally: &Tally) -> Result<(), Memory>
    ensures ok { OnOk result (out.new.items ≡ out.old.items ++ summary_lines commands trues tally.now) }
    ensures kept { BeginsWith out.new.items out.old.items }
{
    push_count(out, b"= commands ", commands)?;
    push_count(out, b"= trues ", trues)?;
    push_accesses(out, tally)?;
    push_plans(out, tally)
}

fn push_accesses(out: &mut Vec<u8>, tally: &Tally) -> Result<(), Memory>
    ensures ok { OnOk result (out.new.items ≡ out.old.items ++ accesses_text tally.now) }
    ensures kept { BeginsWith out.new.items out.old.items }
{
    push_count(out, b"= hits ", tally.hits)?;
    push_count(out, b"= caches ", tally.caches)?;
    push_count(out, b"= slows ", tally.slows)
}

fn push_plans(out: &mut Vec<u8>, tally: &Tally) -> Result<(), Memory>
    ensures ok { OnOk result (out.new.items ≡ out.old.items ++ plans_text tally.now) }
    ensures kept { BeginsWith out.new.items out.old.items }
{
    push_count(out, b"= installs ", tally.installs)?;
    push_count(out, b"= refusals ", tally.refusals)?;
    push_count(out, b"= noplans ", tally.noplans)?;
    push_count(out, b"= discards ", tally.discards)
}

fn push_count(out: &mut Vec<u8>, word: &[u8], n: u64) -> Result<(), Memory>
    ensures ok { OnOk result (out.new.items ≡ out.old.items ++ count_line word.now n) }
    ensures kept { BeginsWith out.new.items out.old.items }
{
    push_text(out, word)?;
    push_number(out, n)?;
    push_text(out, b"\n")
}

// How many lines of each kind a log has.
fn tally_of(log: &Log) -> Tally
    ensures { result ≡ tally_of log.now.lines }
{
    let mut tally = Tally {
        hits: 0,
        caches: 0,
        slows: 0,
        installs: 0,
        refusals: 0,
        noplans: 0,
        discards: 0,
    };
    for i in 0..log.len() {
        tally.count_nth(log, i);
    }
    tally
}

impl Tally {
    // Counts the line at a place.
    fn count_nth(&mut self, log: &Log, i: u64)
        requires there { i < length log.now.lines }
        requires room { HasRoom self.old }
        ensures { self.new ≡ tallied self.old (get_or log.now.lines i (0, Line.Slow 0)).1 }
    {
        let Some((_, line)) = log.at(i) else {
            unreachable!();
        };
        self.count(line);
    }

    // Counts a line.
    fn count(&mut self, line: &Line)
        requires { HasRoom self.old }
        ensures { self.new ≡ tallied self.old line.now }
    {
        match line {
            Line::Hit(_, _) => self.hits += 1,
            Line::Cache(_) => self.caches += 1,
            Line::Slow(_) => self.slows += 1,
            Line::Install(_, _) => self.installs += 1,
            Line::Refuse(_, _) => self.refusals += 1,
            Line::NoPlan(_, _) => self.noplans += 1,
            Line::Discard(_, _) => self.discards += 1,
        }
    }
}

/// Whether a reply is `true`.
#[tactic(auto, using(crate::proofs::Trues::true_is_text))]
pub fn is_true(reply: &Reply) -> bool
    ensures reply { result ≡ is_true reply.now }
    ensures text { (names : List (List ℕ)) → result ≡ true → reply_text names reply.now ≡ codes "true" }
{
    matches!(reply, Reply::Flag(true) | Reply::Val(Value::Bool(true)))
}
