//! What names are of by their letters.
ghost use Rattle.std.specs.Prelude.{◌≡◌};
ghost use Rattle.fx_scene_names.specs.Names as spec;

/// Is it the name of an instance? The part behind the last `.` begins with an upper-case letter.
pub fn is_instance(name: &str) -> bool
    ensures { result ≡ spec.is_instance name.now }
{
    is_upper_part(name.as_bytes())
}

#[tactic(auto, unfolding(crate::specs::Names::is_instance))]
fn is_upper_part(name: &[u8]) -> bool
    ensures { result ≡ spec.is_instance name.now }
{
    let mut upper = begins_upper(name);
    for (place, byte) in name.iter().enumerate() {
        let behind = name.split_at(place + 1).1;
        upper = upper_behind(upper, *byte, behind);
    }
    upper
}

/// Whether the part behind this byte begins with an upper-case letter, if another begins there.
fn upper_behind(before: bool, byte: u8, behind: &[u8]) -> bool
    ensures { result ≡ spec.upper_behind before byte behind.now }
{
    if byte == b'.' {
        begins_upper(behind)
    } else {
        before
    }
}

fn begins_upper(text: &[u8]) -> bool
    ensures { result ≡ spec.begins_upper text.now }
{
    match text {
        [first, ..] => is_upper(*first),
        [] => false,
    }
}

fn is_upper(byte: u8) -> bool
    ensures { result ≡ spec.is_upper byte }
{
    b'A' <= byte && byte <= b'Z'
}

/// Is it the name of a static property, as `HBox.hgrow`? It has a `.`.
pub fn is_static(name: &str) -> bool
    ensures { result ≡ spec.is_static name.now }
{
    has_dot(name.as_bytes())
}

#[tactic(auto, unfolding(crate::specs::Names::is_static))]
fn has_dot(name: &[u8]) -> bool
    ensures { result ≡ spec.is_static name.now }
{
    name.iter().any(|byte| *byte == b'.')
}
