// The directory in which a manifest lies: a part of its own path, or the state's directory.
ghost use Rattle.std.specs.Prelude.{◌≡◌};
ghost use Rattle.rules.specs.Manifests.{directory as rule_directory};
ghost use Rattle.manifests.specs.Slashes.{SlashIs};

const SLASH: u8 = 0x2F;

// Where the last slash of a path stands.
fn last_slash(path: &[u8]) -> Option<usize>
    ensures { SlashIs path.now result }
{
    path.iter().rposition(|b| *b == SLASH)
}

// The directory shown of a manifest's path (decoded), without its closing slash; `state_directory` is the name of the state's own.
pub fn directory<'a>(path: &'a [u8], state_directory: &'a [u8]) -> &'a [u8]
    ensures { result.now ≡ rule_directory path.now state_directory.now }
{
    let Some(i) = last_slash(path) else {
        return state_directory; // what stands as it is holds a slash
    };
    if bytes_values::begins_with(b"manifests/", path)
        || bytes_values::begins_with(b"state-v", path)
    {
        return &path[..i];
    }
    state_directory
}
