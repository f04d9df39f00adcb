//! Names of files.

ghost use Rattle.std.specs.Prelude.{◌≡◌, length, reverse};
ghost use Rattle.std.specs.List.{take_while};
ghost use Rattle.host_run.specs.FileNames.{file_name as name_of, is_no_slash};

/// What stands after the last `/` of a path, and all of it where there is none.
#[tactic(auto, unfolding(crate::specs::FileNames::file_name))]
pub fn file_name(path: &[u8]) -> &[u8]
    ensures { result.now ≡ name_of path.now }
{
    &path[path.len() - name_len(path)..]
}

/// How many bytes stand after the last `/`.
fn name_len(path: &[u8]) -> usize
    ensures { result ≡ length (take_while is_no_slash (reverse path.now)) }
{
    path.iter().rev().take_while(|byte| **byte != b'/').count()
}
