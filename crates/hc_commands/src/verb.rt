ghost use Rattle.std.specs.Prelude.{◌≡◌, IfSome, IfNone, map};
ghost use Rattle.std.specs.Str.{bytes_eq};
ghost use Rattle.hc_commands.specs.VerbTable.{look_up};
ghost use Rattle.hc_commands.specs.Verbs.{verb_word};

/// What a command asks about a property of an object.
#[derive(Clone, Copy)]
pub enum PropertyVerb {
    Get,
    Has,
    Own,
    Delete,
}

/// What a command asks of an object alone.
#[derive(Clone, Copy)]
pub enum ObjectVerb {
    Keys,
    Proto,
    Extensible,
    Lock,
    Seal,
    Freeze,
    Shape,
}

/// The first word of a command.
#[derive(Clone, Copy)]
pub enum Verb {
    New,
    SetProto,
    OfProperty(PropertyVerb),
    Set,
    Define,
    OfObject(ObjectVerb),
    Same,
    Site,
    Exec,
    Compile,
    Step,
    During,
    Finish,
}

// The words of the verbs, the most used first.
const VERBS: [(&[u8], Verb); 22] = [
    (b"get", Verb::OfProperty(PropertyVerb::Get)),
    (b"set", Verb::Set),
    (b"has", Verb::OfProperty(PropertyVerb::Has)),
    (b"own", Verb::OfProperty(PropertyVerb::Own)),
    (b"new", Verb::New),
    (b"define", Verb::Define),
    (b"delete", Verb::OfProperty(PropertyVerb::Delete)),
    (b"keys", Verb::OfObject(ObjectVerb::Keys)),
    (b"proto", Verb::OfObject(ObjectVerb::Proto)),
    (b"setproto", Verb::SetProto),
    (b"extensible", Verb::OfObject(ObjectVerb::Extensible)),
    (b"lock", Verb::OfObject(ObjectVerb::Lock)),
    (b"seal", Verb::OfObject(ObjectVerb::Seal)),
    (b"freeze", Verb::OfObject(ObjectVerb::Freeze)),
    (b"shape", Verb::OfObject(ObjectVerb::Shape)),
    (b"same", Verb::Same),
    (b"exec", Verb::Exec),
    (b"step", Verb::Step),
    (b"during", Verb::During),
    (b"site", Verb::Site),
    (b"compile", Verb::Compile),
    (b"finish", Verb::Finish),
];

/// The verb that a word is.
pub fn verb_named(word: &[u8]) -> Option<Verb>
    ensures some { IfSome result (λ verb. word.now ≡ verb_word verb) }
    ensures none { IfNone result ((verb : Verb) → word.now ≡ verb_word verb → ⊥) }
{
    look_up(&VERBS, word)
}

// The first verb of a table whose word it is.
fn look_up(mut table: &[(&[u8], Verb)], word: &[u8]) -> Option<Verb>
    ensures { result ≡ look_up (map (λ entry. (entry.0.now, entry.1)) table.entry.now) word.now }
{
    while let [entry, rest @ ..] = table {
        if are_equal(entry.0, word) {
            return Some(entry.1);
        }
        table = rest;
    }
    None
}

fn are_equal(a: &[u8], b: &[u8]) -> bool
    ensures { result ≡ bytes_eq a.now b.now }
{
    a == b
}
