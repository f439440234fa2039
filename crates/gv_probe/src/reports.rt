//! Calls of `gv_report`. A report is written as `KEYWORD|SUBJECT|CLASS|CONTEXT|WITNESS|DETAIL`, where an empty part isn't
//! there; a subject is `PATH:LINE` or `CATEGORY/NAME/VERSION/PF`, a context `LINE ARCH PATH LEVEL`, and `''` a text without
//! bytes.
use crate::given::{Given, number_in, words_in};
use crate::made::words;
use crate::written::Telling;
use gv_base::{NoMemory, Text, Texts};
use gv_facts::{Class, Level, class_text};
use gv_report::{
    ContextName, Emitter, Keyword, Keywords, Options, Report, Reports, Subject, ordered, selected,
};
use gv_version::{Version, read_version};
use gv_words::default_options;
use std::alloc::Global;

/// Tells the answer to a call in one line of this library, if it is one.
pub(crate) fn answer(alloc: Global, call: &str, given: &Given, told: &mut Telling) -> bool {
    match call {
        "ties" => ties(alloc, given.small_number(0), told),
        "selected" => asked(alloc, given, told),
        _ => return false,
    }
    true
}

// How many are left of so many reports that the order tells not apart, each of which is there twice.
fn ties(alloc: Global, count: u32, told: &mut Telling) {
    match left_of(alloc, count) {
        Ok(left) => told.number(left.items().len() as u64),
        Err(NoMemory) => told.lack(),
    }
}

fn left_of(alloc: Global, count: u32) -> Result<Reports, NoMemory> {
    let mut reports = Reports::new(alloc);
    for number in 0..count.saturating_mul(2) {
        add_tied(alloc, number % count.max(1), &mut reports)?;
    }
    ordered(alloc, reports)
}

fn add_tied(alloc: Global, number: u32, reports: &mut Reports) -> Result<(), NoMemory> {
    match report(alloc, "VisibleVcsPkg|x/y/1/y-1||||")? {
        Some(report) => reports.add(tied(alloc, number, report)?),
        None => Ok(()),
    }
}

fn tied(alloc: Global, number: u32, report: Report) -> Result<Report, NoMemory> {
    let mut report = report;
    let mut digits = Telling::new(alloc);
    digits.number(u64::from(number));
    report.witness = Some(Text::of(alloc, digits.bytes()?)?);
    Ok(report)
}

fn asked(alloc: Global, given: &Given, told: &mut Telling) {
    match options_of(alloc, given) {
        Ok(options) => asked_by(alloc, &options, given.words(2), told),
        Err(NoMemory) => told.lack(),
    }
}

fn asked_by(alloc: Global, options: &Options, line: &str, told: &mut Telling) {
    match report(alloc, line) {
        Ok(Some(report)) => is_selected(options, &report, told),
        Ok(None) => told.say("no report"),
        Err(NoMemory) => told.lack(),
    }
}

fn options_of(alloc: Global, given: &Given) -> Result<Options, NoMemory> {
    let mut options = default_options(alloc)?;
    set_options(alloc, given, &mut options)?;
    options.copy(alloc)
}

fn set_options(alloc: Global, given: &Given, options: &mut Options) -> Result<(), NoMemory> {
    options.keywords = keywords(alloc, given.words(0))?;
    options.profiles = Some(words(alloc, given.words(1))?);
    Ok(())
}

// Asked by the options, and by an emitter of them.
fn is_selected(options: &Options, report: &Report, told: &mut Telling) {
    let asked = |report: &Report| selected(options, report);
    let takes = Emitter::new(options, asked).takes(report);
    if takes == selected(options, report) {
        told.yes_no(takes);
    } else {
        told.say("otherwise by the emitter");
    }
}

/// Tells what is printed of these reports, behind a `&` of others that are added to them: as JSON, in order, or in order twice,
/// where the words say so, and of one keyword or none where one is named.
pub(crate) fn emitted(alloc: Global, how: &str, lines: &Texts, told: &mut Telling) {
    match reports_of(alloc, how, lines) {
        Ok(reports) => emit(alloc, how, &reports, told),
        Err(NoMemory) => told.lack(),
    }
}

fn emit(alloc: Global, how: &str, reports: &Reports, told: &mut Telling) {
    match chosen(alloc, how) {
        Ok(options) => printed(alloc, &options, reports, told),
        Err(NoMemory) => told.lack(),
    }
}

fn chosen(alloc: Global, how: &str) -> Result<Options, NoMemory> {
    let mut options = default_options(alloc)?;
    for word in how.split(' ') {
        choose(alloc, &mut options, word)?;
    }
    Ok(options)
}

fn reports_of(alloc: Global, how: &str, lines: &Texts) -> Result<Reports, NoMemory> {
    in_order(alloc, how, gathered(alloc, lines)?)
}

// The reports, in order where a word says so.
fn in_order(alloc: Global, how: &str, reports: Reports) -> Result<Reports, NoMemory> {
    let mut reports = reports;
    for word in how.split(' ') {
        if word == "ordered" {
            reports = ordered(alloc, reports)?;
        }
    }
    Ok(reports)
}

fn gathered(alloc: Global, lines: &Texts) -> Result<Reports, NoMemory> {
    let mut reports = Reports::new(alloc);
    let mut others = Reports::new(alloc);
    for line in lines.items() {
        if line.bytes() == b"&".as_slice() {
            reports.append(others)?;
            others = Reports::new(alloc);
        }
        add_read(alloc, words_in(line.bytes()), &mut others)?;
    }
    reports.append(others)?;
    Ok(reports)
}

fn add_read(alloc: Global, line: &str, reports: &mut Reports) -> Result<(), NoMemory> {
    match report(alloc, line)? {
        Some(report) => reports.add(report),
        None => Ok(()),
    }
}

fn choose(alloc: Global, options: &mut Options, word: &str) -> Result<(), NoMemory> {
    match word {
        "" | "ordered" => {}
        "json" => options.json = true,
        word => options.keywords = keywords(alloc, word)?,
    }
    Ok(())
}

/// Tells what is printed, behind `> ` in each line.
pub(crate) fn printed(alloc: Global, options: &Options, reports: &Reports, told: &mut Telling) {
    let test = |report: &Report| selected(options, report);
    match Emitter::new(options, test).emit(alloc, reports) {
        Ok(text) => told.behind(b"> ", text.bytes()),
        Err(NoMemory) => told.lack(),
    }
}

fn part<'a>(line: &'a str, separator: char, at: usize) -> &'a str {
    line.split(separator).nth(at).unwrap_or("")
}

fn text(alloc: Global, bytes: &str) -> Result<Text, NoMemory> {
    Text::of(alloc, bytes.as_bytes())
}

fn some_text(alloc: Global, bytes: &str) -> Result<Option<Text>, NoMemory> {
    match bytes {
        "" => Ok(None),
        "''" => Ok(Some(text(alloc, "")?)),
        _ => Ok(Some(text(alloc, bytes)?)),
    }
}

fn number(digits: &str) -> u32 {
    number_in(digits.as_bytes()).min(1_000_000) as u32
}

// The keywords with these names, with commas between; none where none is named.
fn keywords(alloc: Global, names: &str) -> Result<Keywords, NoMemory> {
    let all = default_options(alloc)?.keywords;
    let mut keywords = Keywords::new(alloc);
    for name in names.split(',') {
        add_keyword(&all, name, &mut keywords)?;
    }
    Ok(keywords)
}

fn add_keyword(all: &Keywords, name: &str, keywords: &mut Keywords) -> Result<(), NoMemory> {
    for keyword in all.items() {
        if keyword.text() == name.as_bytes() {
            keywords.add(*keyword)?;
        }
    }
    Ok(())
}

fn class(name: &str) -> Option<Class> {
    for class in [
        Class::Required,
        Class::Depend,
        Class::Bdepend,
        Class::Rdepend,
        Class::Pdepend,
        Class::Idepend,
    ] {
        if class_text(class) == name.as_bytes() {
            return Some(class);
        }
    }
    None
}

fn subject(alloc: Global, words: &str) -> Result<Option<Subject>, NoMemory> {
    match words.split_once(':') {
        Some((path, line)) => Ok(Some(place(alloc, path, line)?)),
        None => match read_version(alloc, part(words, '/', 2).as_bytes()) {
            Ok(version) => Ok(Some(package(alloc, words, version)?)),
            Err(_) => Ok(None),
        },
    }
}

fn place(alloc: Global, path: &str, line: &str) -> Result<Subject, NoMemory> {
    let path = text(alloc, path)?;
    Ok(Subject::Place {
        path,
        line: number(line),
    })
}

fn package(alloc: Global, words: &str, version: Version) -> Result<Subject, NoMemory> {
    Ok(Subject::Package {
        category: text(alloc, part(words, '/', 0))?,
        name: text(alloc, part(words, '/', 1))?,
        version,
        pf: text(alloc, part(words, '/', 3))?,
    })
}

fn context(alloc: Global, words: &str) -> Result<Option<ContextName>, NoMemory> {
    if words.is_empty() {
        return Ok(None);
    }
    let arch = text(alloc, part(words, ' ', 1))?;
    let path = text(alloc, part(words, ' ', 2))?;
    let level = if part(words, ' ', 3) == "stable" {
        Level::Stable
    } else {
        Level::Testing
    };
    Ok(Some(ContextName {
        line: number(part(words, ' ', 0)),
        arch,
        path,
        level,
    }))
}

fn keyword(alloc: Global, name: &str) -> Result<Option<Keyword>, NoMemory> {
    let keywords = keywords(alloc, name)?;
    match keywords.items() {
        [keyword] => Ok(Some(*keyword)),
        _ => Ok(None),
    }
}

fn report(alloc: Global, line: &str) -> Result<Option<Report>, NoMemory> {
    let Some(keyword) = keyword(alloc, part(line, '|', 0))? else {
        return Ok(None);
    };
    match subject(alloc, part(line, '|', 1))? {
        Some(subject) => Ok(Some(report_of(alloc, line, keyword, subject)?)),
        None => Ok(None),
    }
}

fn report_of(
    alloc: Global,
    line: &str,
    keyword: Keyword,
    subject: Subject,
) -> Result<Report, NoMemory> {
    let mut report = Report {
        subject,
        keyword,
        class: class(part(line, '|', 2)),
        context: None,
        witness: None,
        detail: None,
    };
    fill(alloc, line, &mut report)?;
    Ok(report)
}

fn fill(alloc: Global, line: &str, report: &mut Report) -> Result<(), NoMemory> {
    report.context = context(alloc, part(line, '|', 3))?;
    report.witness = some_text(alloc, part(line, '|', 4))?;
    report.detail = some_text(alloc, part(line, '|', 5))?;
    Ok(())
}
