//! Walks over some of a repository's queries: `part NUMBER/PARTS`, `packages DIGITS` with a digit for each package, 1 where
//! it is chosen, or `classes` with a word for each package: its classes with commas between them, or `-`; else over all.
ghost use Rattle.std.specs.Prelude.{◌≤◌};

use crate::given::{Given, number_in};
use crate::judging::add_count;
use crate::reports::printed;
use crate::written::Telling;
use gv_base::{Ledger, NoMemory, Steps};
use gv_cert::Known;
use gv_checks::{Answers, Asking, Chosen, ClassSet, Walk};
use gv_load::Repo;
use gv_logic::Bits;
use gv_report::Options;
use std::alloc::Global;

/// What a walk over the chosen queries comes to: by records alone, of which there are none, where the budget is 0.
pub(crate) fn walked<L: Ledger>(
    alloc: Global,
    repo: &Repo,
    options: &Options,
    given: &Given,
    steps: &mut Steps<L>,
    told: &mut Telling,
) {
    let words = given.words(2);
    let (how, more) = words.split_once(' ').unwrap_or((words, ""));
    let budget = budget(options, given);
    match how {
        "part" => {
            let (part, parts) = part(more);
            let chosen = Chosen::Part { part, parts };
            walked_over(alloc, repo, options, &chosen, budget, steps, told)
        }
        "packages" => walked_own(alloc, repo, options, more, budget, steps, told),
        "classes" => walked_classes(alloc, repo, options, more, budget, steps, told),
        _ => walked_over(alloc, repo, options, &Chosen::All, budget, steps, told),
    }
}

fn budget(options: &Options, given: &Given) -> u32
    ensures { result ≤ 1000000 }
{
    if given.number(0) == 0 {
        return 0;
    }
    options.budget
}

fn walked_own<L: Ledger>(
    alloc: Global,
    repo: &Repo,
    options: &Options,
    digits: &str,
    budget: u32,
    steps: &mut Steps<L>,
    told: &mut Telling,
)
    requires { budget ≤ 1000000 }
{
    let Ok(own) = own(alloc, digits) else {
        return told.lack();
    };
    walked_over(
        alloc,
        repo,
        options,
        &Chosen::Packages(&own),
        budget,
        steps,
        told,
    )
}

fn walked_classes<L: Ledger>(
    alloc: Global,
    repo: &Repo,
    options: &Options,
    words: &str,
    budget: u32,
    steps: &mut Steps<L>,
    told: &mut Telling,
)
    requires { budget ≤ 1000000 }
{
    let Ok(sets) = sets(alloc, words) else {
        return told.lack();
    };
    walked_over(
        alloc,
        repo,
        options,
        &Chosen::Classes(&sets),
        budget,
        steps,
        told,
    )
}

fn part(words: &str) -> (u32, u32) {
    let (part, parts) = words.split_once('/').unwrap_or((words, ""));
    (
        number_in(part.as_bytes()).min(1_000_000) as u32,
        number_in(parts.as_bytes()).min(1_000_000) as u32,
    )
}

fn own(alloc: Global, digits: &str) -> Result<Bits, NoMemory> {
    let mut own = Bits::new(alloc);
    for digit in digits.as_bytes() {
        own.add(*digit == b'1')?;
    }
    Ok(own)
}

fn sets(alloc: Global, words: &str) -> Result<Vec<ClassSet>, NoMemory> {
    let mut sets = Vec::new(alloc);
    for word in words.split(' ') {
        sets.push(ClassSet {
            required: has(word, "REQUIRED_USE"),
            depend: has(word, "DEPEND"),
            bdepend: has(word, "BDEPEND"),
            rdepend: has(word, "RDEPEND"),
            pdepend: has(word, "PDEPEND"),
            idepend: has(word, "IDEPEND"),
        })?;
    }
    Ok(sets)
}

fn has(word: &str, class: &str) -> bool {
    word.split(',').any(|one| one == class)
}

fn walked_over<L: Ledger>(
    alloc: Global,
    repo: &Repo,
    options: &Options,
    chosen: &Chosen<'_>,
    budget: u32,
    steps: &mut Steps<L>,
    told: &mut Telling,
)
    requires { budget ≤ 1000000 }
{
    let given = Known::new(alloc);
    let asking = Asking {
        chosen: *chosen,
        budget,
        given: &given,
    };
    walked_few(alloc, &*repo, &*options, &asking, steps, told)
}

fn walked_few<'a, L: Ledger>(
    alloc: Global,
    repo: &'a Repo,
    options: &'a Options,
    asking: &Asking<'_>,
    steps: &mut Steps<L>,
    told: &mut Telling,
) {
    let Ok(walk) = Walk::few(alloc, repo, options) else {
        return told.lack();
    };
    judged_by(alloc, options, walk, asking, steps, told);
}

fn judged_by<L: Ledger>(
    alloc: Global,
    options: &Options,
    walk: Walk<'_>,
    asking: &Asking<'_>,
    steps: &mut Steps<L>,
    told: &mut Telling,
) {
    match walk.judge(alloc, asking, steps) {
        Ok(answers) => tell(alloc, options, answers, told),
        Err(stopped) => {
            told.say("stopped behind ");
            told.number(u64::from(stopped.behind));
        }
    }
}

// How many queries and records there are, how many reports are told without a query and how many with one, and these reports.
fn tell(alloc: Global, options: &Options, answers: Answers, told: &mut Telling) {
    add_count(answers.queries, " queries, ", told);
    add_count(answers.certs.count(), " records, ", told);
    told.number(answers.plain.items().len() as u64);
    told.say(" told, ");
    told.number(answers.reports.items().len() as u64);
    told.say(" reported\n");
    printed(alloc, options, &answers.plain, told);
    printed(alloc, options, &answers.reports, told);
}
