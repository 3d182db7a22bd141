ghost use Rattle.std.specs.Prelude.{IfSome, IfNone};
ghost use Rattle.hc_commands.specs.Words.{words_of};
ghost use Rattle.hc_commands.specs.Request.{AreAsked, HaveNoParts};

use crate::definition::definition_of;
use crate::grammar::Request;
use crate::parts::{first_name, first_object, only_name};
use crate::verb::{PropertyVerb, Verb};
use crate::words::only_word;
use crate::written::written_value;

/// A verb that asks about a property is followed by an object and a name.
pub fn property_request(verb: PropertyVerb, rest: &[u8]) -> Option<Request<'_>>
    ensures some { IfSome result (λ request. AreAsked (Verb.OfProperty verb) (words_of rest.now) request) }
    ensures none { IfNone result (HaveNoParts (Verb.OfProperty verb) (words_of rest.now)) }
{
    let (o, rest) = first_object(rest)?;
    Some(Request::AskProperty(verb, o, only_name(rest)?))
}

/// `set` is followed by an object, a name and a value.
pub fn set_request(rest: &[u8]) -> Option<Request<'_>>
    ensures some { IfSome result (λ request. AreAsked Verb.Set (words_of rest.now) request) }
    ensures none { IfNone result (HaveNoParts Verb.Set (words_of rest.now)) }
{
    let (o, rest) = first_object(rest)?;
    let (name, rest) = first_name(rest)?;
    match written_value(only_word(rest)?) {
        Some(value) => Some(Request::SetValue(o, name, value)),
        None => None,
    }
}

/// `define` is followed by an object, a name and fields.
pub fn define_request(rest: &[u8]) -> Option<Request<'_>>
    ensures some { IfSome result (λ request. AreAsked Verb.Define (words_of rest.now) request) }
    ensures none { IfNone result (HaveNoParts Verb.Define (words_of rest.now)) }
{
    let (o, rest) = first_object(rest)?;
    let (name, rest) = first_name(rest)?;
    match definition_of(rest) {
        Some(definition) => Some(Request::DefineProperty(o, name, definition)),
        None => None,
    }
}
