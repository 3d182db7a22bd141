ghost use Rattle.std.specs.Prelude.{◌≡◌, ◌<◌, ◌^◌, [], ◌∷◌, ℕ, IfSome, IfNone};
ghost use Rattle.std.specs.Fmt.{decimal};
ghost use Rattle.hc_commands.specs.Token.{AreReads, reads_word};
ghost use Rattle.hc_commands.specs.Words.{words_of};
ghost use Rattle.hc_commands.specs.Request.{AreAsked, HaveNoParts};

use crate::Reads;
use crate::grammar::Request;
use crate::parts::{first_number, first_object, only_name, only_number};
use crate::token::{written_distance, written_op, written_reads};
use crate::verb::Verb;
use crate::words::{first_word, only_word};
use crate::written::written_value;

/// `site` is followed by what it does and a name.
pub fn site_request(rest: &[u8]) -> Option<Request<'_>>
    ensures some { IfSome result (λ request. AreAsked Verb.Site (words_of rest.now) request) }
    ensures none { IfNone result (HaveNoParts Verb.Site (words_of rest.now)) }
{
    let (word, rest) = first_word(rest)?;
    let op = written_op(word)?;
    Some(Request::DeclareSite(op, only_name(rest)?))
}

/// `exec` is followed by a site, an object and, where it writes, a value.
pub fn exec_request(rest: &[u8]) -> Option<Request<'_>>
    ensures some { IfSome result (λ request. AreAsked Verb.Exec (words_of rest.now) request) }
    ensures none { IfNone result (HaveNoParts Verb.Exec (words_of rest.now)) }
{
    let (s, rest) = first_number(rest)?;
    let (o, rest) = first_object(rest)?;
    if first_word(rest).is_none() {
        return Some(Request::ExecuteSite(s, o, None));
    }
    match written_value(only_word(rest)?) {
        Some(value) => Some(Request::ExecuteSite(s, o, Some(value))),
        None => None,
    }
}

/// `compile` is followed by a site.
pub fn compile_request(rest: &[u8]) -> Option<Request<'_>>
    ensures some { IfSome result (λ request. AreAsked Verb.Compile (words_of rest.now) request) }
    ensures none { IfNone result (HaveNoParts Verb.Compile (words_of rest.now)) }
{
    Some(Request::CompileSite(only_number(rest)?))
}

/// `step` is followed by a job and how many reads it makes.
pub fn step_request(rest: &[u8]) -> Option<Request<'_>>
    ensures some { IfSome result (λ request. AreAsked Verb.Step (words_of rest.now) request) }
    ensures none { IfNone result (HaveNoParts Verb.Step (words_of rest.now)) }
{
    let (j, reads) = job_and_reads(rest)?;
    Some(Request::StepJob(j, reads))
}

/// `during` is followed by how far off the command is, a job and how many reads it makes.
pub fn during_request(rest: &[u8]) -> Option<Request<'_>>
    ensures some { IfSome result (λ request. AreAsked Verb.During (words_of rest.now) request) }
    ensures none { IfNone result (HaveNoParts Verb.During (words_of rest.now)) }
{
    let (word, rest) = first_word(rest)?;
    let c = written_distance(word)?;
    let (j, reads) = job_and_reads(rest)?;
    Some(Request::StepDuring(c, j, reads))
}

/// `finish` is followed by a job.
pub fn finish_request(rest: &[u8]) -> Option<Request<'_>>
    ensures some { IfSome result (λ request. AreAsked Verb.Finish (words_of rest.now) request) }
    ensures none { IfNone result (HaveNoParts Verb.Finish (words_of rest.now)) }
{
    Some(Request::FinishJob(only_number(rest)?))
}

// The job that the first word names, and how many reads the other asks for.
fn job_and_reads(rest: &[u8]) -> Option<(u32, Reads)>
    ensures some { IfSome result (λ found. words_of rest.now ≡ decimal found.0 ∷ reads_word found.1 ∷ []) }
    ensures reads { IfSome result (λ found. AreReads found.1) }
    ensures none { IfNone result ((j : ℕ) (reads : Reads) → j < 2 ^ 32 → AreReads reads
        → words_of rest.now ≡ decimal j ∷ reads_word reads ∷ [] → ⊥) }
{
    let (j, rest) = first_number(rest)?;
    let reads = written_reads(only_word(rest)?)?;
    Some((j, reads))
}
