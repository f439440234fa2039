//! What `package.use` and the variables of USE_EXPAND say of a flag.
//!
//! `last_word` costs a look-up by hash, and O(bytes of the atom) for each word that names the flag; `values_say` O(the letters
//! of each name that the flag begins with), and the words of the variables that fit. Neither takes memory.
ghost use Rattle.std.specs.Prelude.{◌≡◌, None, fold};
ghost use Rattle.std.specs.Option.{option_copied, option_map};
ghost use Rattle.gv_usedefaults.specs.Defaults.{behind_word, either_says, has_words, last_word, names_it, value_says, values_say, word_behind};
ghost use Rattle.gv_usedefaults.specs.FlagWords.{applies, behind_at, seen};

use gv_base::{Text, Texts};
use gv_facts::{Pkg, Rule, Rules, ValueList, ValueLists, matches_pkg};

/// What the last word says that names the flag in a line whose atom matches the package.
#[tactic(auto, using(crate::proofs::FlagLemmas::last_at))]
pub(crate) fn last_word(pkg: &Pkg, rules: &Rules, flag: &Text) -> Option<bool>
    ensures { result ≡ last_word pkg.now rules.now flag.now }
{
    last_at(pkg, rules.items(), rules.places_of(flag.bytes()))
}

/// Whether the value of a variable whose flag it is has it; none where it is the flag of no variable that has a word.
pub(crate) fn values_say(lists: &ValueLists, flag: &Text) -> Option<bool>
    ensures { result ≡ values_say lists.now flag.now }
{
    let mut said = None;
    for list in lists.items() {
        said = either_says(said, value_says(flag.bytes(), list));
    }
    said
}

fn applies(pkg: &Pkg, rule: &Rule) -> bool
    ensures { result ≡ applies pkg.now rule.now }
{
    match &rule.atom {
        Some(atom) => matches_pkg(atom.atom(), pkg),
        None => true,
    }
}

// What is said behind the rule at this place.
fn behind_at(pkg: &Pkg, rules: &[Rule], said: Option<bool>, place: u32) -> Option<bool>
    ensures { result ≡ behind_at pkg.now rules.now said place }
{
    match rules.get(place as usize) {
        Some(rule) => {
            if applies(pkg, rule) {
                Some(rule.on)
            } else {
                said
            }
        }
        None => said,
    }
}

fn last_at(pkg: &Pkg, rules: &[Rule], places: &[u32]) -> Option<bool>
    ensures { result ≡ fold (behind_at pkg.now rules.now) None places.now }
{
    let mut said = None;
    for place in places {
        said = behind_at(pkg, rules, said, *place);
    }
    said
}

fn either_says(one: Option<bool>, two: Option<bool>) -> Option<bool>
    ensures { result ≡ either_says one two }
{
    match (one, two) {
        (None, said) => said,
        (Some(on), None) => Some(on),
        (Some(on), Some(other)) => Some(on || other),
    }
}

// What stands in the flag behind the name in small letters and `_`, if it begins so.
fn word_behind<'a>(name: &[u8], flag: &'a [u8]) -> Option<&'a [u8]>
    ensures { option_map seen result ≡ word_behind name.now flag.now }
{
    let mut rest = flag;
    for letter in name {
        match rest {
            [first, more @ ..] => {
                if *first != letter.to_ascii_lowercase() {
                    return None;
                }
                rest = more;
            }
            [] => return None,
        }
    }
    match rest {
        [b'_', word @ ..] => Some(word),
        _ => None,
    }
}

fn has_words(words: &Texts) -> bool
    ensures { result ≡ has_words words.now }
{
    !words.items().is_empty()
}

fn value_says(flag: &[u8], list: &ValueList) -> Option<bool>
    ensures { result ≡ value_says flag.now list.now }
{
    if !has_words(&list.words) {
        return None;
    }
    match word_behind(list.name.bytes(), flag) {
        Some(word) => Some(list.words.has(word)),
        None => None,
    }
}
