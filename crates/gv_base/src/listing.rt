//! What lies below a path of a file map.
//!
//! Among n files, `is_folder` costs O(log n) comparisons of paths, and `names_below` O(k log n) for the k files below the
//! path; neither goes through the other files. Both make two keys, so they take memory.
ghost use Rattle.std.specs.Prelude.{◌≡◌, IfOk};
ghost use Rattle.std.specs.Option.{option_copied};
ghost use Rattle.gv_base.specs.Listing.{below, next_part, is_folder, names_below};

use crate::{Files, NoMemory, Text, Texts, until};
use std::alloc::Global;
use std::collections::BTreeSet;

const SLASH: u8 = b'/';

impl Files {
    /// Whether some file's path begins with this one and a slash.
    pub fn is_folder(&self, path: &[u8]) -> Result<bool, NoMemory>
        ensures { IfOk result (λ is. is ≡ is_folder self.now path.now) }
    {
        Ok(self.below(path)?.next().is_some())
    }

    /// The next parts of the files below the path, in byte order, each once.
    pub fn names_below(&self, alloc: Global, path: &[u8]) -> Result<Texts, NoMemory>
        ensures { IfOk result (λ names. names ≡ names_below self.now path.now) }
    {
        let mut names = BTreeSet::new(alloc);
        for (key, _) in self.below(path)? {
            if let Some(part) = next_part(path, key) {
                names.insert(Text::of(alloc, part)?)?;
            }
        }
        Texts::of_set(alloc, names)
    }
}

// What follows the path and a slash.
fn below<'a>(path: &[u8], key: &'a [u8]) -> Option<&'a [u8]>
    ensures { option_copied result ≡ below path.now key.now }
{
    match key.strip_prefix(path) {
        Some(rest) => rest.strip_prefix(&[SLASH]),
        None => None,
    }
}

fn next_part<'a>(path: &[u8], key: &'a [u8]) -> Option<&'a [u8]>
    ensures { option_copied result ≡ next_part path.now key.now }
{
    match below(path, key) {
        Some(rest) => Some(until(rest, SLASH)),
        None => None,
    }
}
