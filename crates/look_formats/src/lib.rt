// The formats that report on a recording, forwards or backwards, each with its number of reports: timeread's own count, for every format.
// Nothing says which bytes a value displays, so these promise to be safe and to end, and no more.
#![tactic(auto)]

use layout::is_known;
use look_lines::Name;
use report_counts::reports_in;
use texts::Page;
use timecode::Format;

fn put_reporting(page: &mut Page, format: Format, recording: &[u8], backwards: bool) {
    if is_known(format) {
        let reports = reports_in(format, recording, backwards);
        if reports != 0 {
            let name = Name(format);
            page.put(format_args!(" {name} {reports}"));
        }
    }
}

// A line of them behind a name for the direction.
pub fn put_formats(page: &mut Page, recording: &[u8], backwards: bool, name: &str) {
    page.put(name);
    let before = page.len();
    for letter in *b"ABDEGHX" {
        for expression in 0..8 {
            put_reporting(page, Format { letter, expression }, recording, backwards);
        }
    }
    if page.len() == before {
        page.put(" none");
    }
    page.push(b'\n');
}
