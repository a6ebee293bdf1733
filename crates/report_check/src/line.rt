// Which line of a report tells what. Nothing is claimed of the numbers.
use dmx_calls::Outcome;
use report_read::ReadReport;

/// The place of the first of these that isn't the one of the others.
pub fn first_other<T: PartialEq>(these: &[T], those: &[T]) -> usize {
    let both = these.len().min(those.len());
    'places: for place in 0..both {
        if these[place] != those[place] {
            return place;
        }
    }
    both
}

/// A line of a text, counted from 1, without its line feed.
pub fn line_in(text: &[u8], line: u64) -> Option<&[u8]> {
    let mut left = line;
    let mut rest = text;
    'lines: while let Some(end) = rest.iter().position(|byte| *byte == b'\n') {
        if left <= 1 {
            return Some(&rest[..end]);
        }
        left -= 1;
        rest = &rest[end + 1..];
    }
    None
}

// How many lines tell these clients.
fn lines_of(outcomes: &[Vec<Outcome>]) -> u64 {
    let mut lines: u64 = 0;
    'clients: for told in outcomes {
        lines = lines.saturating_add(1).saturating_add(told.len() as u64);
    }
    lines
}

// The line behind the head.
fn behind_head(told: &ReadReport) -> u64 {
    (told.head.rows.len() as u64).saturating_add(3)
}

/// The line of a client, or so many lines behind it; the line behind the clients where it isn't told.
pub fn line_of_client(told: &ReadReport, client: u32, behind: u64) -> u64 {
    let before = told.outcomes.len().min(client as usize);
    behind_head(told)
        .saturating_add(lines_of(&told.outcomes[..before]))
        .saturating_add(behind)
}

/// The last line: no node has the greatest number.
pub fn line_of_end(told: &ReadReport) -> u64 {
    line_of_entry(told, u32::MAX, 0)
}

/// The line of the entry at this place of a node; the last line where the node isn't told.
pub fn line_of_entry(told: &ReadReport, node: u32, place: u64) -> u64 {
    let mut line = behind_head(told).saturating_add(lines_of(&told.outcomes));
    'nodes: for (number, entries) in &told.nodes {
        line = line.saturating_add(1);
        if *number == node {
            return line.saturating_add(place.min(entries.len() as u64));
        }
        line = line.saturating_add(entries.len() as u64);
    }
    line
}
