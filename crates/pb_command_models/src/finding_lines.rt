//! The lines that tell what is found of properties, and the exit status.
ghost use Rattle.std.specs.Prelude.{◌≡◌, ◌<◌, drop, length, map, string_bytes, IfOk, OnOk};
ghost use Rattle.std.specs.List.{All, list_any};
ghost use Rattle.pb_command_models.specs.Models.{AreFoundLines, Pushes, finding_lines, lines_behind};
ghost use Rattle.pb_command_models.specs.Models.{first_note};
ghost use Rattle.pb_command_models.specs.Models.{refuses, says_false, says_unknown, status_of_findings};
ghost use Rattle.pb_command_models.specs.Models.{verdict_of};

use crate::finding::{Finding, PropertyFinding};
use pb_command_line::Status;
use pb_model_properties::{Verdict, push_counts, push_cut, push_refused, push_verdict};
use pb_model_tree::Property;
use pb_report::Answer;
use std::alloc::{AllocError, Global};

/// The verdict by what is shown.
pub(crate) fn verdict_of(truth: bool) -> Verdict
    ensures { result ≡ verdict_of truth }
{
    if truth { Verdict::True } else { Verdict::False }
}

impl Finding {
    /// Whether the property is refused.
    fn refuses(self) -> bool
        ensures { result ≡ refuses self }
    {
        match self {
            Finding::Refused(_) => true,
            Finding::Decided(_, _) | Finding::Shown(_) => false,
        }
    }

    /// Whether the verdict is false.
    fn says_false(self) -> bool
        ensures { result ≡ says_false self }
    {
        match self {
            Finding::Refused(_) => false,
            Finding::Shown(truth) => !truth,
            Finding::Decided(verdict, _) => match verdict {
                Verdict::True => false,
                Verdict::False => true,
                Verdict::Unknown => false,
            },
        }
    }

    /// Whether it is unknown.
    fn says_unknown(self) -> bool
        ensures { result ≡ says_unknown self }
    {
        match self {
            Finding::Refused(_) | Finding::Shown(_) => false,
            Finding::Decided(verdict, _) => match verdict {
                Verdict::True => false,
                Verdict::False => false,
                Verdict::Unknown => true,
            },
        }
    }
}

// Puts behind the line of a verdict those of counts; without them the number of cut instances,
// where the ranges decide.
fn push_behind(
    lines: &mut String,
    verdict: Verdict,
    answer: Answer,
    counts: bool,
) -> Result<(), AllocError>
    ensures { OnOk result (Pushes (lines_behind counts verdict answer) lines.old lines.new) }
{
    if counts {
        return push_counts(lines, answer.instances, answer.cut, answer.vertices);
    }
    match verdict {
        Verdict::Unknown => push_cut(lines, answer.cut),
        _ => Ok(()),
    }
}

// Puts the lines of a finding behind others.
fn push_finding(
    lines: &mut String,
    name: &str,
    finding: Finding,
    counts: bool,
) -> Result<(), AllocError>
    ensures { OnOk result (Pushes (finding_lines counts name.now finding) lines.old lines.new) }
{
    match finding {
        Finding::Decided(verdict, answer) => {
            push_verdict(lines, name, verdict)?;
            push_behind(lines, verdict, answer, counts)
        }
        Finding::Shown(truth) => push_verdict(lines, name, verdict_of(truth)),
        Finding::Refused(excess) => push_refused(lines, name, excess.number()),
    }
}

// Adds the further line at a place, if there is one.
fn push_note(lines: &mut String, notes: &[String], place: usize) -> Result<(), AllocError>
    ensures { OnOk result
        (Pushes (first_note (drop place (map string_bytes notes.now))) lines.old lines.new) }
{
    match notes.get(place) {
        Some(note) => lines.push_str(note),
        None => Ok(()),
    }
}

/// The lines of what is found of these properties, each followed by a further line, where there is
/// one at its place.
///
/// # Errors
/// Memory was refused.
pub(crate) fn lines_of(
    alloc: Global,
    properties: &[Property],
    findings: &[PropertyFinding],
    notes: &[String],
    counts: bool,
) -> Result<String, AllocError>
    requires { All (λ found. found.place < length properties.now) findings.now }
    ensures { IfOk result
        (AreFoundLines counts properties.now (map string_bytes notes.now) findings.now) }
{
    let mut lines = String::new(alloc);
    for (place, found) in findings.iter().enumerate() {
        let name = &properties[found.place].name.text;
        push_finding(&mut lines, name, found.finding, counts)?;
        push_note(&mut lines, notes, place)?;
    }
    Ok(lines)
}

// Whether a property is refused.
fn has_refused(findings: &[PropertyFinding]) -> bool
    ensures { result ≡ list_any (λ f. refuses f.finding) findings.now }
{
    findings.iter().any(|found| found.finding.refuses())
}

// Whether a verdict is false.
fn has_false(findings: &[PropertyFinding]) -> bool
    ensures { result ≡ list_any (λ f. says_false f.finding) findings.now }
{
    findings.iter().any(|found| found.finding.says_false())
}

// Whether one is unknown.
fn has_unknown(findings: &[PropertyFinding]) -> bool
    ensures { result ≡ list_any (λ f. says_unknown f.finding) findings.now }
{
    findings.iter().any(|found| found.finding.says_unknown())
}

/// How the run ends, where the exit status tells the verdicts or doesn't.
pub(crate) fn status_of(findings: &[PropertyFinding], tells: bool) -> Status
    ensures { result ≡ status_of_findings tells findings.now }
{
    let refused = has_refused(findings);
    let denied = has_false(findings);
    let undecided = has_unknown(findings);
    if refused {
        return Status::Refused;
    }
    if !tells {
        return Status::Answered;
    }
    if denied {
        return Status::False;
    }
    if undecided {
        return Status::Unknown;
    }
    Status::Answered
}
