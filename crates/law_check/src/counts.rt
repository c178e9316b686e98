ghost use Rattle.std.specs.Prelude.{◌≡◌, length};
ghost use Rattle.std.specs.List.{filter};
ghost use Rattle.law_checking.specs.Verdicts.{counted, is_law, is_live, is_moved, is_killed};

use law_cert_text::Entry;
use law_checking::Counts;

/// How many entries there are of each kind.
pub(crate) fn counted(entries: &[Entry]) -> Counts
    ensures { result ≡ counted entries.now }
{
    Counts {
        laws: laws(entries),
        live: lives(entries),
        moved: moved(entries),
        killed: killed(entries),
    }
}

fn is_law(entry: &Entry) -> bool
    ensures { result ≡ is_law entry.now }
{
    match entry {
        Entry::Law { .. } => true,
        _ => false,
    }
}

fn laws(entries: &[Entry]) -> u64
    ensures { result ≡ length (filter is_law entries.now) }
{
    let mut count = 0u64;
    for entry in entries {
        if is_law(entry) {
            count += 1;
        }
    }
    count
}

fn is_live(entry: &Entry) -> bool
    ensures { result ≡ is_live entry.now }
{
    match entry {
        Entry::Live(_) => true,
        _ => false,
    }
}

fn lives(entries: &[Entry]) -> u64
    ensures { result ≡ length (filter is_live entries.now) }
{
    let mut count = 0u64;
    for entry in entries {
        if is_live(entry) {
            count += 1;
        }
    }
    count
}

fn is_moved(entry: &Entry) -> bool
    ensures { result ≡ is_moved entry.now }
{
    match entry {
        Entry::Moved { .. } => true,
        _ => false,
    }
}

fn moved(entries: &[Entry]) -> u64
    ensures { result ≡ length (filter is_moved entries.now) }
{
    let mut count = 0u64;
    for entry in entries {
        if is_moved(entry) {
            count += 1;
        }
    }
    count
}

fn is_killed(entry: &Entry) -> bool
    ensures { result ≡ is_killed entry.now }
{
    match entry {
        Entry::Killed { .. } => true,
        _ => false,
    }
}

fn killed(entries: &[Entry]) -> u64
    ensures { result ≡ length (filter is_killed entries.now) }
{
    let mut count = 0u64;
    for entry in entries {
        if is_killed(entry) {
            count += 1;
        }
    }
    count
}
