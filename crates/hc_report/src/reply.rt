//! The line of a reply.
#![tactic(auto, using(crate::proofs::Fronts::fronts))]

ghost use Rattle.std.specs.Prelude.{◌≡◌, ◌++◌, codes, length, OnOk, OnErr};
ghost use Rattle.std.specs.Fmt.{decimal};
ghost use Rattle.hc_report.specs.Front.{BeginsWith};
ghost use Rattle.hc_report.specs.Named.{IsNamedReply, IsNamedValue};
ghost use Rattle.hc_report.specs.Text.{object_text, value_text, reply_text, reply_line};

mod list;
mod mode;
mod property;

use crate::text::{push_bool, push_numbered, push_object, push_text, push_value};
use hc_names::Names;
use hc_value::{Memory, Reply, Value};
use list::push_list;
use mode::{push_mode, push_proto};
use property::push_property;

/// Puts the line of a reply behind a text, which stays as it was where memory is wanting.
pub fn render_reply(out: &mut Vec<u8>, names: &Names, reply: &Reply) -> Result<(), Memory>
    requires named { IsNamedReply (length names.now) reply.now }
    ensures ok { OnOk result (out.new.items ≡ out.old.items ++ reply_line names.now reply.now) }
    ensures err { OnErr result (out.new.items ≡ out.old.items) }
{
    let before = out.len();
    let pushed = push_line(out, names, reply);
    if pushed.is_err() {
        out.truncate(before);
    }
    pushed
}

fn push_line(out: &mut Vec<u8>, names: &Names, reply: &Reply) -> Result<(), Memory>
    requires { IsNamedReply (length names.now) reply.now }
    ensures ok { OnOk result (out.new.items ≡ out.old.items ++ reply_line names.now reply.now) }
    ensures kept { BeginsWith out.new.items out.old.items }
{
    push_text(out, b"= ")?;
    push_reply(out, names, reply)?;
    push_text(out, b"\n")
}

fn push_reply(out: &mut Vec<u8>, names: &Names, reply: &Reply) -> Result<(), Memory>
    requires { IsNamedReply (length names.now) reply.now }
    ensures ok { OnOk result (out.new.items ≡ out.old.items ++ reply_text names.now reply.now) }
    ensures kept { BeginsWith out.new.items out.old.items }
{
    match reply {
        Reply::Object(o) => push_object(out, *o),
        Reply::Val(value) => push_value(out, names, *value),
        Reply::Call(f, o) => push_call(out, *f, *o),
        Reply::CallWith(f, o, value) => push_call_with(out, names, *f, *o, *value),
        Reply::Flag(b) => push_bool(out, *b),
        Reply::Property(property) => push_property(out, names, property),
        Reply::NameList(list) => push_list(out, names, list),
        Reply::Proto(proto) => push_proto(out, *proto),
        Reply::Shape(mode) => push_mode(out, *mode),
        Reply::Site(site) => push_numbered(out, b"site ", *site),
        Reply::Job(job) => push_numbered(out, b"job ", *job),
        Reply::Fine => push_text(out, b"ok"),
        Reply::Finished => push_text(out, b"done"),
        Reply::NoObject => push_text(out, b"no object"),
        Reply::NoSite => push_text(out, b"no site"),
        Reply::NoJob => push_text(out, b"no job"),
        Reply::WrongSite => push_text(out, b"wrong site"),
        Reply::NoRoom => push_text(out, b"no room"),
        Reply::Full => push_text(out, b"full"),
    }
}

fn push_call(out: &mut Vec<u8>, f: u32, o: u32) -> Result<(), Memory>
    ensures ok { OnOk result (out.new.items ≡ out.old.items ++
        (codes "call f" ++ decimal f ++ codes " " ++ object_text o)) }
    ensures kept { BeginsWith out.new.items out.old.items }
{
    push_numbered(out, b"call f", f)?;
    push_text(out, b" ")?;
    push_object(out, o)
}

fn push_call_with(
    out: &mut Vec<u8>,
    names: &Names,
    f: u32,
    o: u32,
    value: Value,
) -> Result<(), Memory>
    requires { IsNamedValue (length names.now) value }
    ensures ok { OnOk result (out.new.items ≡ out.old.items ++
        (codes "call f" ++ decimal f ++ codes " " ++ object_text o ++ codes " " ++ value_text names.now value)) }
    ensures kept { BeginsWith out.new.items out.old.items }
{
    push_call(out, f, o)?;
    push_text(out, b" ")?;
    push_value(out, names, value)
}
