ghost use Rattle.std.specs.Prelude.{◌≡◌, ◌≤◌, bytes_eq, length, position};
ghost use Rattle.std.specs.List.{list_any};
ghost use Rattle.vms_group_lines.specs.Headers.{group_field};

use crate::{GroupCause, GroupHeader};
use vms_base::Name;

/// The number of the group that a word names.
pub(crate) fn group_field(header: &GroupHeader, word: &[u8]) -> Result<u32, GroupCause>
    requires { length header.now.names ≤ 64 }
    ensures { result ≡ group_field header.now word.now }
{
    match name_index(header.names.as_slice(), word) {
        Some(index) => Ok(index as u32),
        None => Err(GroupCause::UnknownGroup),
    }
}

/// The index of the first name that a word is.
fn name_index(names: &[Name], word: &[u8]) -> Option<usize>
    ensures { result ≡ position (bytes_eq word.now) names.now }
{
    names.iter().position(|name| is_same(name.as_slice(), word))
}

/// Whether a word is one of the names.
pub(crate) fn has_name(names: &[Name], word: &[u8]) -> bool
    ensures { result ≡ list_any (bytes_eq word.now) names.now }
{
    names.iter().any(|name| is_same(name.as_slice(), word))
}

/// Whether a word is this name. Most names differ in their lengths or their last bytes, which are quick to compare.
#[inline]
fn is_same(name: &[u8], word: &[u8]) -> bool
    ensures { result ≡ bytes_eq word.now name.now }
{
    name.len() == word.len() && name.last() == word.last() && word == name
}
