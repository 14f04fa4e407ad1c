//! Where the manifest of a URL lies in a folder.

ghost use Rattle.std.specs.Prelude.{◌≡◌, IfOk};
ghost use Rattle.cm_gate.specs.Places.{are_plain, is_plain, place_in, place_of};
ghost use Rattle.cm_names.specs.MonikerInside.{behind_slash};

use cm_names::{Memory, Text};
use std::alloc::Global;
use url::{ParseError, Url};

/// Whether a part names a file or a folder of its own.
fn is_plain(part: &str) -> bool
    ensures { result ≡ is_plain part.now }
{
    !part.is_empty() && !(part == "." || part == "..")
}

/// Whether each part between slashes names a file or a folder of its own.
fn are_plain(parts: &str) -> bool
    ensures { result ≡ are_plain parts.now }
{
    parts.split('/').all(|part| is_plain(part))
}

/// The text without a slash in front.
fn behind_slash(text: &str) -> &str
    ensures { result.now ≡ behind_slash text.now }
{
    match text.strip_prefix('/') {
        Some(rest) => rest,
        None => text,
    }
}

/// The file `repo/host/path/fragment`, where all parts after `repo` are plain.
fn place_in(
    alloc: Global,
    repo: &str,
    host: &str,
    path: &str,
    fragment: &str,
) -> Result<Option<Text>, Memory>
    ensures { IfOk result (λ place. place ≡ place_in repo.now host.now path.now fragment.now) }
{
    if is_plain(host) && are_plain(path) && are_plain(fragment) {
        let mut place = Text::new(alloc);
        place.push(format_args!("{repo}/{host}/{path}/{fragment}"))?;
        return Ok(Some(place));
    }
    Ok(None)
}

/// Where in the folder `repo` the manifest of a URL is looked for: at `repo/host/path/fragment`.
///
/// It is looked for nowhere where the URL isn't one by the URL Standard, where it has no host or no
/// fragment, and where a part between slashes is empty, `.` or `..`. So no part leads out of `repo`.
/// The parts are those of the URL as the standard reads it, and are not decoded; its port and its
/// query are left out.
#[tactic(auto, unfolding(crate::specs::Places::place_of))]
pub(crate) fn place_of(alloc: Global, repo: &str, url: &str) -> Result<Option<Text>, Memory>
    ensures { IfOk result (λ place. place ≡ place_of repo.now url.now) }
{
    let url = match Url::parse(alloc, url) {
        Ok(url) => url,
        Err(ParseError::OutOfMemory) => return Err(Memory),
        Err(ParseError::Overflow) => return Err(Memory),
        Err(_) => return Ok(None),
    };
    let Some(host) = url.host_str() else {
        return Ok(None);
    };
    let Some(fragment) = url.fragment() else {
        return Ok(None);
    };
    place_in(alloc, repo, host, behind_slash(url.path()), fragment)
}
