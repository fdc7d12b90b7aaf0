// Reports of faults: a line that names the fault, a line that begins with two blanks and names the origin, and the steps of a
// control path, a line each, that begin with two blanks.

/// How the steps of two reports are compared.
#[derive(Clone, Copy)]
pub enum Steps {
    /// Their number is the same.
    Counted,
    /// Their number may differ.
    Open,
}

// The first report of a text.
#[derive(Clone, Copy)]
struct Report<'a> {
    fault: &'a str,
    // The first line below, if there is one.
    origin: &'a str,
    // How many lines stand below.
    count: usize,
    // The last of them.
    last: &'a str,
    // Whether those below the origin are steps.
    has_steps: bool,
    // What stands behind the report.
    rest: &'a str,
}

// The kinds of steps.
static KINDS: [&str; 15] = [
    "set", "plain", "drop", "settle", "catch", "test", "op", "get", "put", "cast", "own", "call",
    "new", "super", "raise",
];

// The outcomes of a step, beside an exception that is thrown.
static OUTCOMES: [&str; 5] = ["go", "null", "nonnull", "true", "false"];

// The first line of a text, and what stands behind it.
fn first_line(text: &str) -> (&str, &str) {
    match text.split_once('\n') {
        None => (text, ""),
        Some((line, rest)) => (line.strip_suffix('\r').unwrap_or(line), rest),
    }
}

// The first report of a text, whose first line is the fault.
fn first_report(text: &str) -> Report<'_> {
    let (fault, rest) = first_line(text);
    let mut report = Report {
        fault,
        origin: "",
        count: 0,
        last: "",
        has_steps: true,
        rest,
    };
    for _ in 0..text.len() {
        if !report.rest.starts_with("  ") {
            return report;
        }
        let (line, rest) = first_line(report.rest);
        if report.count == 0 {
            report.origin = line;
        } else if !is_step(line) {
            report.has_steps = false;
        }
        report.count = report.count.saturating_add(1);
        report.last = line;
        report.rest = rest;
    }
    report
}

fn is_number(word: &str) -> bool {
    for byte in word.bytes() {
        if !byte.is_ascii_digit() {
            return false;
        }
    }
    !word.is_empty()
}

// LINE:COL
fn is_place(word: &str) -> bool {
    match word.split_once(':') {
        None => false,
        Some((line, column)) => is_number(line) && is_number(column),
    }
}

fn is_kind(word: &str) -> bool {
    word == "end" || KINDS.contains(&word)
}

fn is_outcome(text: &str) -> bool {
    match text.strip_prefix("throws ") {
        None => OUTCOMES.contains(&text),
        Some(class) => !class.is_empty() && !class.contains(' '),
    }
}

// `LINE:COL KIND OUTCOME`, or `.. N steps` for steps that are left out.
fn is_step(line: &str) -> bool {
    let Some(step) = line.strip_prefix("  ") else {
        return false;
    };
    let Some((place, rest)) = step.split_once(' ') else {
        return false;
    };
    match rest.split_once(' ') {
        None => false,
        Some((count, "steps")) if place == ".." => is_number(count),
        Some((kind, outcome)) => is_place(place) && is_kind(kind) && is_outcome(outcome),
    }
}

// Whether the last step stands at the place of the fault.
fn ends_at_fault(report: &Report) -> bool {
    let Some((place, _)) = report.fault.split_once(": ") else {
        return false;
    };
    let Some((at, _)) = report.last.trim_start().split_once(' ') else {
        return false;
    };
    match place.strip_suffix(at) {
        None => false,
        Some(front) => is_place(at) && front.ends_with(":"),
    }
}

// Whether two reports have the same first two lines, the second has a path, and their steps are as many where these are counted.
fn agree(steps: Steps, wanted: &Report, given: &Report) -> bool {
    let same_number = match steps {
        Steps::Open => true,
        Steps::Counted => wanted.count == given.count,
    };
    same_number
        && wanted.fault == given.fault
        && wanted.origin == given.origin
        && 1 < given.count
        && given.has_steps
        && ends_at_fault(given)
}

// Whether the reports of two texts agree, one after the other.
fn agree_all(steps: Steps, wanted: &str, given: &str) -> bool {
    let (mut wanted, mut given) = (wanted, given);
    for _ in 0..wanted.len() {
        if wanted.is_empty() || given.is_empty() {
            break;
        }
        let (first, other) = (first_report(wanted), first_report(given));
        if !agree(steps, &first, &other) {
            return false;
        }
        (wanted, given) = (first.rest, other.rest);
    }
    wanted.is_empty() && given.is_empty()
}

/// Whether two lists of reports have the same first two lines, and the second has in each report a path of steps that ends at the
/// place of the fault.
pub fn agree_reports(steps: Steps, wanted: &[u8], given: &[u8]) -> bool {
    let Ok(wanted) = str::from_utf8(wanted) else {
        return false;
    };
    let Ok(given) = str::from_utf8(given) else {
        return false;
    };
    given.ends_with('\n') && agree_all(steps, wanted, given)
}
