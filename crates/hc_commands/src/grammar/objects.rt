ghost use Rattle.std.specs.Prelude.{IfSome, IfNone};
ghost use Rattle.hc_commands.specs.Words.{words_of};
ghost use Rattle.hc_commands.specs.Request.{AreAsked, HaveNoParts};

use crate::grammar::Request;
use crate::parts::{first_object, only_object};
use crate::token::written_prototype;
use crate::verb::{ObjectVerb, Verb};
use crate::words::only_word;

/// `new` is followed by a prototype.
pub fn new_request(rest: &[u8]) -> Option<Request<'_>>
    ensures some { IfSome result (λ request. AreAsked Verb.New (words_of rest.now) request) }
    ensures none { IfNone result (HaveNoParts Verb.New (words_of rest.now)) }
{
    let proto = written_prototype(only_word(rest)?)?;
    Some(Request::NewObject(proto))
}

/// `setproto` is followed by an object and a prototype.
pub fn link_request(rest: &[u8]) -> Option<Request<'_>>
    ensures some { IfSome result (λ request. AreAsked Verb.SetProto (words_of rest.now) request) }
    ensures none { IfNone result (HaveNoParts Verb.SetProto (words_of rest.now)) }
{
    let (o, rest) = first_object(rest)?;
    let proto = written_prototype(only_word(rest)?)?;
    Some(Request::LinkPrototype(o, proto))
}

/// A verb that asks of an object alone is followed by the object.
pub fn object_request(verb: ObjectVerb, rest: &[u8]) -> Option<Request<'_>>
    ensures some { IfSome result (λ request. AreAsked (Verb.OfObject verb) (words_of rest.now) request) }
    ensures none { IfNone result (HaveNoParts (Verb.OfObject verb) (words_of rest.now)) }
{
    Some(Request::AskObject(verb, only_object(rest)?))
}

/// `same` is followed by two objects.
pub fn same_request(rest: &[u8]) -> Option<Request<'_>>
    ensures some { IfSome result (λ request. AreAsked Verb.Same (words_of rest.now) request) }
    ensures none { IfNone result (HaveNoParts Verb.Same (words_of rest.now)) }
{
    let (o, rest) = first_object(rest)?;
    Some(Request::CompareObjects(o, only_object(rest)?))
}
