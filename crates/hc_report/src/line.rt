//! The lines of the log: how an access was answered, and what became of plans.
#![tactic(auto, using(crate::proofs::Fronts::fronts))]

ghost use Rattle.std.specs.Prelude.{◌≡◌, ◌<◌, ◌++◌, codes, length, map, get_or, OnOk, OnErr};
ghost use Rattle.std.specs.Fmt.{decimal};
ghost use Rattle.hc_report.specs.Front.{BeginsWith};
ghost use Rattle.hc_report.specs.Lines.{dep_text, skip_text, why_text, line_text, log_line};
ghost use Rattle.hc_report.specs.Text.{spaced};

use crate::text::{push_numbered, push_text};
use hc_plan::{Dep, Skip, SkipList, Why};
use hc_value::Memory;

/// What the log tells of a command.
#[derive(Clone, Copy)]
pub enum Line {
    /// A site answered by a case of its plan.
    Hit(u32, u32),
    /// A site answered by its inline cache.
    Cache(u32),
    /// A site answered by a full lookup.
    Slow(u32),
    /// The plan of a job is installed at a site.
    Install(u32, u32),
    /// The plan of a job is refused, by its first dependency that doesn't hold.
    Refuse(u32, Dep),
    /// A job has no plan.
    NoPlan(u32, Why),
    /// The plan of a site is discarded, by its first dependency that no longer holds.
    Discard(u32, Dep),
}

/// Puts a line of the log behind a text, which stays as it was where memory is wanting.
pub fn render_log(out: &mut Vec<u8>, line: &Line) -> Result<(), Memory>
    ensures ok { OnOk result (out.new.items ≡ out.old.items ++ log_line line.now) }
    ensures err { OnErr result (out.new.items ≡ out.old.items) }
{
    let before = out.len();
    let pushed = push_log_line(out, line);
    if pushed.is_err() {
        out.truncate(before);
    }
    pushed
}

fn push_log_line(out: &mut Vec<u8>, line: &Line) -> Result<(), Memory>
    ensures ok { OnOk result (out.new.items ≡ out.old.items ++ log_line line.now) }
    ensures kept { BeginsWith out.new.items out.old.items }
{
    push_text(out, b"~ ")?;
    push_line_text(out, line)?;
    push_text(out, b"\n")
}

fn push_line_text(out: &mut Vec<u8>, line: &Line) -> Result<(), Memory>
    ensures ok { OnOk result (out.new.items ≡ out.old.items ++ line_text line.now) }
    ensures kept { BeginsWith out.new.items out.old.items }
{
    match line {
        Line::Hit(site, case) => push_two(out, b"hit ", *site, *case),
        Line::Cache(site) => push_numbered(out, b"cache ", *site),
        Line::Slow(site) => push_numbered(out, b"slow ", *site),
        Line::Install(job, site) => push_two(out, b"install ", *job, *site),
        Line::Refuse(job, dep) => push_with_dep(out, b"refuse ", *job, *dep),
        Line::NoPlan(job, why) => push_with_why(out, *job, why),
        Line::Discard(site, dep) => push_with_dep(out, b"discard ", *site, *dep),
    }
}

// A word and two numbers.
fn push_two(out: &mut Vec<u8>, word: &[u8], first: u32, second: u32) -> Result<(), Memory>
    ensures ok { OnOk result (out.new.items ≡ out.old.items ++
        (word.now ++ decimal first ++ codes " " ++ decimal second)) }
    ensures kept { BeginsWith out.new.items out.old.items }
{
    push_numbered(out, word, first)?;
    push_numbered(out, b" ", second)
}

// A word, a number and the word of a dependency.
fn push_with_dep(out: &mut Vec<u8>, word: &[u8], n: u32, dep: Dep) -> Result<(), Memory>
    ensures ok { OnOk result (out.new.items ≡ out.old.items ++
        (word.now ++ decimal n ++ codes " " ++ dep_text dep)) }
    ensures kept { BeginsWith out.new.items out.old.items }
{
    push_numbered(out, word, n)?;
    push_text(out, b" ")?;
    push_dep(out, dep)
}

fn push_dep(out: &mut Vec<u8>, dep: Dep) -> Result<(), Memory>
    ensures ok { OnOk result (out.new.items ≡ out.old.items ++ dep_text dep) }
    ensures kept { BeginsWith out.new.items out.old.items }
{
    match dep {
        Dep::Live(_) => push_text(out, b"live"),
        Dep::Stable(_) => push_text(out, b"stable"),
        Dep::Rep(_, _) => push_text(out, b"rep"),
        Dep::Const(_) => push_text(out, b"const"),
        Dep::Class(_, _) => push_text(out, b"class"),
        Dep::Value(_, _, _) => push_text(out, b"value"),
    }
}

fn push_with_why(out: &mut Vec<u8>, job: u32, why: &Why) -> Result<(), Memory>
    ensures ok { OnOk result (out.new.items ≡ out.old.items ++
        (codes "noplan " ++ decimal job ++ codes " " ++ why_text why.now)) }
    ensures kept { BeginsWith out.new.items out.old.items }
{
    push_numbered(out, b"noplan ", job)?;
    push_text(out, b" ")?;
    push_why(out, why)
}

fn push_why(out: &mut Vec<u8>, why: &Why) -> Result<(), Memory>
    ensures ok { OnOk result (out.new.items ≡ out.old.items ++ why_text why.now) }
    ensures kept { BeginsWith out.new.items out.old.items }
{
    match why {
        Why::NoMaps => push_text(out, b"empty"),
        Why::Mega => push_text(out, b"mega"),
        Why::Skips(skips) => push_skips(out, skips),
    }
}

// The words of skips, parted by spaces.
fn push_skips(out: &mut Vec<u8>, skips: &SkipList) -> Result<(), Memory>
    ensures ok { OnOk result (out.new.items ≡ out.old.items ++ spaced (map skip_text skips.now)) }
    ensures kept { BeginsWith out.new.items out.old.items }
{
    for i in 0..skips.len() {
        if i > 0 {
            push_text(out, b" ")?;
        }
        push_nth_skip(out, skips, i)?;
    }
    Ok(())
}

// The word of the skip at a place.
fn push_nth_skip(out: &mut Vec<u8>, skips: &SkipList, i: u32) -> Result<(), Memory>
    requires { i < length skips.now }
    ensures ok { OnOk result (out.new.items ≡ out.old.items ++ skip_text (get_or skips.now i (Skip.Dead 0))) }
    ensures kept { BeginsWith out.new.items out.old.items }
{
    let Some(skip) = skips.at(i) else {
        unreachable!();
    };
    push_skip(out, *skip)
}

fn push_skip(out: &mut Vec<u8>, skip: Skip) -> Result<(), Memory>
    ensures ok { OnOk result (out.new.items ≡ out.old.items ++ skip_text skip) }
    ensures kept { BeginsWith out.new.items out.old.items }
{
    match skip {
        Skip::Dead(_) => push_text(out, b"dead"),
        Skip::SlowHolder(_) => push_text(out, b"slow"),
        Skip::Deep(_) => push_text(out, b"deep"),
        Skip::ConstField(_) => push_text(out, b"constfield"),
        Skip::NoLink(_) => push_text(out, b"nolink"),
        Skip::PrototypeMap(_) => push_text(out, b"protomap"),
    }
}
