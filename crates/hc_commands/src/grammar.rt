ghost use Rattle.std.specs.Prelude.{◌≡◌, IfSome, IfNone};
ghost use Rattle.hc_commands.specs.Words.{words_of};
ghost use Rattle.hc_commands.specs.Grammar.{is_built_form, IsForm, IsSpelled, HaveNoForm};
ghost use Rattle.hc_commands.specs.Request.{form_of, AreAsked, HaveNoParts};

mod objects;
mod properties;
mod sites;

use crate::definition::Definition;
use crate::verb::{ObjectVerb, PropertyVerb, Verb, verb_named};
use crate::words::first_word;
use crate::written::Written;
use crate::{Op, Reads};
use objects::{link_request, new_request, object_request, same_request};
use properties::{define_request, property_request, set_request};
use sites::{
    compile_request, during_request, exec_request, finish_request, site_request, step_request,
};

/// What a line asks for, with names as their texts.
#[derive(Clone, Copy)]
pub enum Request<'a> {
    NewObject(Option<u32>),
    LinkPrototype(u32, Option<u32>),
    AskProperty(PropertyVerb, u32, &'a [u8]),
    SetValue(u32, &'a [u8], Written<'a>),
    DefineProperty(u32, &'a [u8], Definition<'a>),
    AskObject(ObjectVerb, u32),
    CompareObjects(u32, u32),
    DeclareSite(Op, &'a [u8]),
    ExecuteSite(u32, u32, Option<Written<'a>>),
    CompileSite(u32),
    StepJob(u32, Reads),
    StepDuring(u32, u32, Reads),
    FinishJob(u32),
}

/// What the words of a line ask for.
pub fn request_of(line: &[u8]) -> Option<Request<'_>>
    ensures form { IfSome result (λ request. IsForm (form_of request)) }
    ensures words { IfSome result (λ request. IsSpelled (form_of request) (words_of line.now)) }
    ensures none { IfNone result (HaveNoForm (words_of line.now)) }
{
    let (word, rest) = first_word(line)?;
    let verb = verb_named(word)?;
    request_behind(verb, rest)
}

// What the words behind a verb ask for.
fn request_behind(verb: Verb, rest: &[u8]) -> Option<Request<'_>>
    ensures some { IfSome result (λ request. AreAsked verb (words_of rest.now) request) }
    ensures none { IfNone result (HaveNoParts verb (words_of rest.now)) }
{
    match verb {
        Verb::New => new_request(rest),
        Verb::SetProto => link_request(rest),
        Verb::OfProperty(verb) => property_request(verb, rest),
        Verb::Set => set_request(rest),
        Verb::Define => define_request(rest),
        Verb::OfObject(verb) => object_request(verb, rest),
        Verb::Same => same_request(rest),
        Verb::Site => site_request(rest),
        Verb::Exec => exec_request(rest),
        Verb::Compile => compile_request(rest),
        Verb::Step => step_request(rest),
        Verb::During => during_request(rest),
        Verb::Finish => finish_request(rest),
    }
}

impl Request<'_> {
    /// Whether the command that it asks for is built.
    pub fn is_built(&self) -> bool
        ensures { result ≡ is_built_form (form_of self.now) }
    {
        !matches!(
            self,
            Request::StepJob(_, Reads::Count(_)) | Request::StepDuring(_, _, _)
        )
    }
}
