//! Paths relative to a folder. Each call costs O(the bytes of the paths).
ghost use Rattle.std.specs.Prelude.{◌≡◌, ◌++◌, IfOk, OnOk, Some, None, if◌then◌else◌};
ghost use Rattle.gv_base.specs.Pieces.{pieces};
ghost use Rattle.gv_profile.specs.Paths.{is_relative_part, is_relative, without_slash, place_after, path_of, resolved, tail_of};

use gv_base::{Cut, NoMemory, Text, has_plain_bytes, next_piece};
use std::alloc::Global;

/// Whether the bytes are a relative path.
pub(crate) fn is_relative(path: &[u8]) -> bool
    ensures { result ≡ is_relative path.now }
{
    let mut rest = Some(without_slash(path));
    while let Some(part) = next_piece(&mut rest, Cut::Parts) {
        if !is_relative_part(part) {
            return false;
        }
    }
    true
}

/// The path from a folder; none where it leaves the root or is the root.
#[tactic(auto, using(crate::proofs::PathLemmas::gone))]
pub(crate) fn resolve(alloc: Global, dir: &[u8], path: &[u8]) -> Result<Option<Text>, NoMemory>
    ensures { IfOk result (λ found. found ≡ resolved dir.now path.now) }
{
    let mut place = place_of(alloc, dir)?;
    let mut rest = Some(without_slash(path));
    while let Some(part) = next_piece(&mut rest, Cut::Parts) {
        if !go(alloc, &mut place, part)? {
            return Ok(None);
        }
    }
    path_of(alloc, &place)
}

fn is_relative_part(part: &[u8]) -> bool
    ensures { result ≡ is_relative_part part.now }
{
    part.len() != 0 && has_plain_bytes(part)
}

fn without_slash(path: &[u8]) -> &[u8]
    ensures { result.now ≡ without_slash path.now }
{
    if path.ends_with(b"/".as_slice()) {
        &path[..path.len() - 1]
    } else {
        path
    }
}

// Goes from a place to one of its parts, or up; false where that leaves the root.
fn go(alloc: Global, place: &mut Vec<Text>, part: &[u8]) -> Result<bool, NoMemory>
    ensures { IfOk result (λ there. place_after (Some place.old.items) part.now ≡ (if there then Some place.new.items else None)) }
{
    if part == b".".as_slice() {
        return Ok(true);
    }
    if part == b"..".as_slice() {
        return Ok(place.pop().is_some());
    }
    place.push(Text::of(alloc, part)?)?;
    Ok(true)
}

fn place_of(alloc: Global, dir: &[u8]) -> Result<Vec<Text>, NoMemory>
    ensures { IfOk result (λ place. place.items ≡ pieces Cut.Parts dir.now) }
{
    let mut place = Vec::new(alloc);
    let mut rest = Some(dir);
    while let Some(part) = next_piece(&mut rest, Cut::Parts) {
        place.push(Text::of(alloc, part)?)?;
    }
    Ok(place)
}

// The parts with slashes between; none where there is no part.
#[tactic(auto, using(crate::proofs::PathLemmas::joined_at))]
fn path_of(alloc: Global, place: &[Text]) -> Result<Option<Text>, NoMemory>
    ensures { IfOk result (λ path. path ≡ path_of (Some place.now)) }
{
    match place {
        [] => Ok(None),
        [first, rest @ ..] => {
            let mut path = first.copy(alloc)?;
            append_parts(&mut path, rest)?;
            Ok(Some(path))
        }
    }
}

fn append_parts(path: &mut Text, parts: &[Text]) -> Result<(), NoMemory>
    ensures { OnOk result (path.new ≡ path.old ++ tail_of parts.now) }
{
    for part in parts {
        path.append(b"/".as_slice())?;
        path.append(part.bytes())?;
    }
    Ok(())
}
