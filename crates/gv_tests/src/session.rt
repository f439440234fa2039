//! Sessions over a small repository: what refused edits and refused reports leave.
ghost use Rattle.std.specs.Prelude.{◌≡◌, ◌≤◌};

use gv_base::{Calls, Files, Ledger, MemTree, Steps, Text};
use gv_checks::JudgeFault;
use gv_edits::EditFault;
use gv_load::LoadFault;
use gv_report::{Keyword, Keywords, Options};
use gv_session::{Session, SessionFault};
use std::alloc::Global;
use std::marker::{Brand, Model};
use std::process::Abort;
use std::sync::ledger::Blank;

// `@PATH` begins a file and `|` a line of it.
const MET: &str = "@profiles/profiles.desc
|amd64 base stable
@profiles/categories
|app
|x
@profiles/base/eapi
|8
@metadata/md5-cache/app/p-1
|EAPI=8
|KEYWORDS=amd64
|RDEPEND=x/y
|SLOT=0
|_md5_=d41d8cd98f00b204e9800998ecf8427e
@app/p/p-1.ebuild
@metadata/md5-cache/x/y-1
|EAPI=8
|SLOT=0
|KEYWORDS=amd64
|_md5_=d41d8cd98f00b204e9800998ecf8427e
@x/y/y-1.ebuild";

const ENTRY: &str = "EAPI=8
SLOT=0
KEYWORDS=amd64
_md5_=d41d8cd98f00b204e9800998ecf8427e
";

const UNMET: &str = "app/p-1: NonexistentDeps: RDEPEND: x/y
app/p-1: NonsolvableDepsInStable: RDEPEND: amd64 base stable: USE=\"\": x/y
x/y-1: MissingCache
";

const SPENDING: &str = "IUSE=a b c
REQUIRED_USE=|| ( a b c ) || ( a b !c ) || ( a !b c ) || ( a !b !c ) || ( !a b c ) || ( !a b !c ) || ( !a !b c ) || ( !a !b !c )
";

const KEYWORDS: [Keyword; 6] = [
    Keyword::NonexistentDeps,
    Keyword::NonsolvableDepsInStable,
    Keyword::UnsatisfiableRequiredUse,
    Keyword::StaleCache,
    Keyword::OrphanCache,
    Keyword::MissingCache,
];

// A session over its tree: what the session keeps is so of the tree's files.
#[derive(Drop)]
struct Seated {
    session: Session,
    tree: MemTree,
}

impl Model for Seated {
    ghost use Rattle.std.specs.Coded.{codes};
    ghost use Rattle.std.specs.Prelude.{Some};
    ghost use Rattle.gv_session.specs.Session.{Agrees, State};
    ghost use Rattle.gv_session.specs.contracts.last.Last as kept;

    ghost Value = { State };

    ghost coded = { Prim.hlevel (codes, kept.the_row.coded) };

    ghost view = { λ s. s.session };

    ghost invariant = { λ s. Agrees (Some s.tree.files) s.session };
}

impl Seated {
    fn start(alloc: Global, options: Options, tree: MemTree) -> Seated {
        Seated {
            session: Session::start(alloc, options),
            tree,
        }
    }

    #[tactic(auto, using(crate::proofs::Seated::agrees_on))]
    fn put(&mut self, path: &[u8], bytes: &[u8]) -> Result<(), EditFault> {
        self.session.put(path, bytes)
    }

    #[tactic(auto, using(crate::proofs::Seated::agrees_on))]
    fn cut(&mut self, path: &[u8]) -> Result<(), EditFault> {
        self.session.cut(path)
    }

    fn report<L: Ledger>(&mut self, steps: &mut Steps<L>) -> Result<Text, SessionFault> {
        self.session.report(&mut self.tree, steps)
    }
}

fn text<R: Abort>(rt: &R, alloc: Global, bytes: &[u8]) -> Text {
    Text::of(alloc, bytes).expect(rt, "memory")
}

fn files_of<R: Abort>(rt: &R, alloc: Global, lines: &str) -> Files {
    let mut files = Files::new(alloc);
    let mut path = text(rt, alloc, b"");
    let mut bytes = text(rt, alloc, b"");
    for line in lines.lines() {
        if let Some(next) = line.strip_prefix("@") {
            path = text(rt, alloc, next.as_bytes());
            bytes = text(rt, alloc, b"");
        }
        if let Some(more) = line.strip_prefix("|") {
            bytes.append(more.as_bytes()).expect(rt, "memory");
            bytes.append(b"\n").expect(rt, "memory");
        }
        files.put(path.bytes(), bytes.bytes()).expect(rt, "memory");
    }
    files
}

fn options<R: Abort>(rt: &R, alloc: Global, budget: u32) -> Options
    requires { (1 ≤ budget) × (budget ≤ 1000000) }
{
    let mut all = Keywords::new(alloc);
    for keyword in &KEYWORDS {
        all.add(*keyword).expect(rt, "memory");
    }
    Options {
        keywords: all,
        profiles: None,
        json: false,
        budget,
    }
}

fn begun<R: Abort>(rt: &R, alloc: Global, failing: Calls, budget: u32) -> Seated
    requires { (1 ≤ budget) × (budget ≤ 1000000) }
{
    Seated::start(
        alloc,
        options(rt, alloc, budget),
        MemTree::new(files_of(rt, alloc, MET), failing),
    )
}

fn put<R: Abort>(rt: &R, seated: &mut Seated, path: &str, bytes: &str) {
    assert!(rt; seated.put(path.as_bytes(), bytes.as_bytes()).is_ok());
}

fn cut<R: Abort>(rt: &R, seated: &mut Seated, path: &str) {
    assert!(rt; seated.cut(path.as_bytes()).is_ok());
}

fn report_counted<L: Ledger>(blank: Blank, seated: &mut Seated) -> Result<Text, SessionFault>
    requires name { blank.name ≡ L.name }
    requires parts { blank.parts ≡ L.parts }
    requires two { blank.parts ≡ 2 }
{
    let mut steps = Steps::<L>::open(blank);
    seated.report(&mut steps)
}

fn reported(seated: &mut Seated) -> Result<Text, SessionFault> {
    report_counted::<Brand>(Blank::new(2), seated)
}

// Whether the report is this text.
fn reports(seated: &mut Seated, want: &str) -> bool {
    match reported(seated) {
        Ok(report) => report.bytes() == want.as_bytes(),
        Err(_) => false,
    }
}

// Whether neither a put nor a cut of the path is taken, for this cause.
fn are_refused(seated: &mut Seated, path: &[u8], bytes: &[u8], cause: EditFault) -> bool {
    seated.put(path, bytes) == Err(cause) && seated.cut(path) == Err(cause)
}

#[test]
fn refused_edits_leave_the_session_as_it_was(rt: HostRuntime) {
    let alloc = rt.alloc();
    let mut seated = begun(&rt, alloc, Calls::new(alloc), 65536);
    cut(&rt, &mut seated, "metadata/md5-cache/x/y-1");
    let long = vec![in alloc; b'a'; 4097].expect(&rt, "memory");
    let large = vec![in alloc; 0u8; 16_777_217].expect(&rt, "memory");
    for path in "#/a#a/#a//b#.#a/..#a b#a\tb#a/\u{7f}#\u{e9}#metadata/md5-cache/x/y-1\n".split(
        '#',
    ) {
        assert!(&rt;
            are_refused(
                &mut seated,
                path.as_bytes(),
                ENTRY.as_bytes(),
                EditFault::BadPath
            )
        );
    }
    assert!(&rt; are_refused(&mut seated, &long, ENTRY.as_bytes(), EditFault::Limit));
    assert!(&rt; seated.put(b"metadata/md5-cache/x/y-1", &large) == Err(EditFault::Limit));
    assert!(&rt; reports(&mut seated, UNMET));
    // At the limits they are taken.
    assert!(&rt; seated.cut(&long[1..]).is_ok());
    assert!(&rt; seated.put(b"a/large", &large[1..]).is_ok());
    assert!(&rt; reports(&mut seated, UNMET));
}

// Whether the report is refused as the tree fails.
fn tree_fails(seated: &mut Seated) -> bool {
    let refused = reported(seated);
    matches!(
        &refused,
        Err(SessionFault::Load {
            fault: LoadFault::Tree { .. }
        })
    )
}

// Whether it is as this file has to be there.
fn file_is_missing(seated: &mut Seated, missing: &[u8]) -> bool {
    let refused = reported(seated);
    matches!(
        &refused,
        Err(SessionFault::Load {
            fault: LoadFault::NotARepository { path }
        }) if path.bytes() == missing
    )
}

// Whether it is as the budget is spent.
fn budget_is_spent(seated: &mut Seated) -> bool {
    let refused = reported(seated);
    matches!(
        &refused,
        Err(SessionFault::Judge {
            fault: JudgeFault::Spent { .. },
            ..
        })
    )
}

#[test]
fn a_report_comes_after_a_refused_one(rt: HostRuntime) {
    let alloc = rt.alloc();
    let mut failing = Calls::new(alloc);
    failing.add(3).expect(&rt, "memory");
    let mut seated = begun(&rt, alloc, failing, 2);
    cut(&rt, &mut seated, "metadata/md5-cache/x/y-1");
    // The tree fails once.
    assert!(&rt; tree_fails(&mut seated));
    assert!(&rt; reports(&mut seated, UNMET));
    // A list is cut and put again.
    cut(&rt, &mut seated, "profiles/categories");
    assert!(&rt; file_is_missing(&mut seated, b"profiles/categories"));
    put(&rt, &mut seated, "profiles/categories", "app\nx\n");
    assert!(&rt; reports(&mut seated, UNMET));
    // A query spends its budget of two sets, and its package goes.
    let spending = format!(in alloc; "{SPENDING}{ENTRY}").expect(&rt, "memory");
    put(&rt, &mut seated, "app/q/q-1.ebuild", "");
    put(&rt, &mut seated, "metadata/md5-cache/app/q-1", &spending);
    assert!(&rt; budget_is_spent(&mut seated));
    cut(&rt, &mut seated, "metadata/md5-cache/app/q-1");
    cut(&rt, &mut seated, "app/q/q-1.ebuild");
    assert!(&rt; reports(&mut seated, UNMET));
}
