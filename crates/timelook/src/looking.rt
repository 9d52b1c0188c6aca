// What is found in the recording, printed in the order of its elements, and then of all of it.
use layout::frame_size;
use look_formats::put_formats;
use look_frames::{Frames, LONGEST_LINE};
use look_lines::{Symbols, put_first_frame, put_head, put_longer, put_total};
use look_stretches::Stretches;
use report_counts::times_of;
use scan::scan;
use stream::Reader;
use texts::{Output, Page, WriteFailed};
use timecode::{Format, Found, MARK, ONE, SPOILED, ZERO};

fn put_recording(page: &mut Page, format: Format, recording: &[u8], longer: bool) {
    put_head(page, format, recording.len(), frame_size(format));
    if longer {
        put_longer(page);
    }
    let symbols = Symbols {
        zeros: times_of(ZERO, recording),
        ones: times_of(ONE, recording),
        marks: times_of(MARK, recording),
        spoiled: times_of(SPOILED, recording),
    };
    page.put(format_args!("{symbols}\n"));
}

// The place of the first frame that Scan finds.
fn first_frame(format: Format, recording: &[u8]) -> Option<usize> {
    match scan(format, recording, 0) {
        Ok(Some(Found { start, .. })) => Some(start),
        _ => None,
    }
}

// The first frame that is due is the first that Scan finds.
pub fn print_look(
    rt: &HostRuntime,
    reader: Reader,
    recording: &[u8],
    longer: bool,
) -> Result<(), WriteFailed> {
    let format = reader.format;
    let mut out = Output::new(rt);
    put_recording(&mut out.page, format, recording, longer);
    let first = first_frame(format, recording);
    put_first_frame(&mut out.page, first);
    let place = first.unwrap_or(recording.len());
    let mut stretches = Stretches::new(Frames::starting_at(place, format, recording));
    stretches.print_all(&mut out, reader)?;
    out.make_room(LONGEST_LINE)?;
    put_total(&mut out.page, stretches.reports, stretches.stretches);
    put_formats(&mut out.page, recording, false, "formats that report:");
    put_formats(&mut out.page, recording, true, "read backwards:");
    out.flush()
}
