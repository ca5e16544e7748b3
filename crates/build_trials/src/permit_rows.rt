use parallel_build::{Forge, Issue, LogForge, Permit};
use std::alloc::{AllocError, Global};

/// The issue of a text, or None where it is none.
fn issue_of(text: &str) -> Option<Issue> {
    let (name, version) = text.trim_ascii().split_once(' ')?;
    Some(Issue {
        name: name.parse::<u32>().ok()?,
        version: version.parse::<u64>().ok()?,
    })
}

/// The issues of a group, or None where one of its texts is none.
fn issues_of(alloc: Global, group: &str) -> Result<Option<Vec<Issue>>, AllocError> {
    let mut issues = Vec::new(alloc);
    for text in group.split(',') {
        if text.trim_ascii().is_empty() {
            continue;
        }
        let Some(issue) = issue_of(text) else {
            return Ok(None);
        };
        issues.push(issue)?;
    }
    Ok(Some(issues))
}

/// Adds how one name and version are told.
fn say(said: &mut String, name: u32, version: u64) -> Result<(), AllocError> {
    if !said.is_empty() {
        said.push_str(", ")?;
    }
    write!(said, "{name} {version}")
}

/// Asks a forge for room for all of these, and then for a permit of each, which is told.
fn permit_all<F: Forge>(
    forge: &mut F,
    wanted: &[Issue],
    said: &mut String,
) -> Result<(), AllocError> {
    forge.reserve(wanted.len())?;
    'issues: for issue in wanted {
        let permit = forge.permit(issue.name, issue.version);
        say(said, permit.name(), permit.version())?;
    }
    Ok(())
}

/// How the issues of a forge are told.
fn said_of_issues<F: Forge>(alloc: Global, forge: &F) -> Result<String, AllocError> {
    let mut said = String::new(alloc);
    for issue in forge.issued() {
        say(&mut said, issue.name, issue.version)?;
    }
    Ok(said)
}

/// The permits of a forge that is asked for these groups, one after another, and then its issues. None where a text is no issue.
pub fn said_of_groups(alloc: Global, groups: &str) -> Result<Option<String>, AllocError> {
    let mut forge = LogForge::new(alloc);
    let mut permits = String::new(alloc);
    for group in groups.split(';') {
        let Some(wanted) = issues_of(alloc, group)? else {
            return Ok(None);
        };
        permit_all(&mut forge, &wanted, &mut permits)?;
    }
    let issues = said_of_issues(alloc, &forge)?;
    Ok(Some(format!(in alloc;
        "permits [{}], issues [{}]",
        permits.as_str(),
        issues.as_str()
    )?))
}

/// A forge that has room for two permits, makes one, is refused more room than any memory has, and then makes the other.
pub fn said_of_refused(alloc: Global) -> Result<String, AllocError> {
    let mut forge = LogForge::new(alloc);
    forge.reserve(2)?;
    let _ = forge.permit(3, 1);
    let refused = match forge.reserve(usize::MAX) {
        Ok(()) => "not refused",
        Err(_) => "refused",
    };
    let _ = forge.permit(5, 1);
    let issues = said_of_issues(alloc, &forge)?;
    format!(in alloc; "too much room: {refused}, issues [{}]", issues.as_str())
}
