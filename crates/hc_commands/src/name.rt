ghost use Rattle.std.specs.Prelude.{◌≡◌, ◌≤◌, true, length};
ghost use Rattle.std.specs.List.{list_all};
ghost use Rattle.hc_commands.specs.Values.{begins_name, continues_name, is_name_text, name_run};

/// How many bytes stand in front with which a name may go on.
pub(crate) fn name_run(bytes: &[u8]) -> usize
    ensures run { result ≡ name_run bytes.now }
    ensures within { result ≤ length bytes.now }
{
    for (i, byte) in bytes.iter().enumerate() {
        if !continues(*byte) {
            return i;
        }
    }
    bytes.len()
}

/// Whether bytes with which a name may go on are spelled as a name.
pub(crate) fn begins_as_name(bytes: &[u8]) -> bool
    requires { list_all continues_name bytes.now ≡ true }
    ensures { result ≡ is_name_text bytes.now }
{
    match bytes {
        [first, ..] => begins(*first),
        [] => false,
    }
}

fn begins(byte: u8) -> bool
    ensures { result ≡ begins_name byte }
{
    byte.is_ascii_lowercase() || byte.is_ascii_uppercase() || byte == b'_' || byte == b'$'
}

fn continues(byte: u8) -> bool
    ensures { result ≡ continues_name byte }
{
    begins(byte) || byte.is_ascii_digit()
}
