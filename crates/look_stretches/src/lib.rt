// The stretches of a recording that report, the gaps between them, and in each gap the frames that are due.
// Nothing says which bytes a value displays, so these promise to be safe and to end, and no more.
#![tactic(auto)]

use layout::frame_size;
use look_frames::{Frames, LONGEST_LINE};
use look_times::{Report, Stretch};
use report_counts::next_report;
use stream::Reader;
use texts::{Output, WriteFailed};

// The stretch under way or the last one, and the frames that are due behind it; and how many stretches and reports there were, without it.
#[derive(Clone, Copy)]
pub struct Stretches<'a> {
    frames: Frames<'a>,
    stretch: Option<Stretch>,
    pub stretches: u64,
    pub reports: u64,
}

impl<'a> Stretches<'a> {
    pub fn new(frames: Frames<'a>) -> Stretches<'a> {
        Stretches {
            frames,
            stretch: None,
            stretches: 0,
            reports: 0,
        }
    }

    fn last_element(&self) -> usize {
        match self.stretch {
            Some(stretch) => stretch.last.element,
            None => 0,
        }
    }

    fn end_stretch(&mut self, out: &mut Output<'_>) -> Result<(), WriteFailed> {
        if let Some(stretch) = self.stretch {
            self.stretches = self.stretches.wrapping_add(1);
            self.reports = self.reports.wrapping_add(stretch.reports);
            out.make_room(LONGEST_LINE)?;
            out.page.put(format_args!("{stretch}\n"));
        }
        Ok(())
    }

    // From behind the last report to an element, unless there is none.
    fn print_gap(&self, out: &mut Output<'_>, last: usize) -> Result<(), WriteFailed> {
        let first = self.last_element().wrapping_add(1);
        if first <= last {
            out.make_room(LONGEST_LINE)?;
            out.page.put(format_args!("gap: {first} to {last}\n"));
        }
        Ok(())
    }

    // A report of a frame of n elements: one that is due goes on with the stretch, another ends it.
    fn take_report(
        &mut self,
        out: &mut Output<'_>,
        report: Report,
        n: usize,
    ) -> Result<(), WriteFailed> {
        if let Some(mut stretch) = self.stretch {
            if stretch.last.element.wrapping_add(n) == report.element {
                stretch.push(report);
                self.stretch = Some(stretch);
                return Ok(());
            }
        }
        self.end_stretch(out)?;
        self.print_gap(out, report.element.saturating_sub(n))?;
        self.frames.print_up_to(out, report.element)?;
        self.stretch = Some(Stretch::from(report));
        Ok(())
    }

    // The reports one after another: there are no more than elements. Behind the last one stands a last gap.
    pub fn print_all(&mut self, out: &mut Output<'_>, reader: Reader) -> Result<(), WriteFailed> {
        let recording = self.frames.recording;
        let n = frame_size(reader.format);
        let mut hearing = reader;
        let mut from = 0;
        for _ in 0..recording.len() {
            let Some(reported) = next_report(hearing, recording, from) else {
                break;
            };
            hearing = reported.reader;
            from = reported.index.wrapping_add(1);
            let time = reported.time;
            let element = from;
            self.take_report(out, Report { element, time }, n)?;
        }
        self.end_stretch(out)?;
        self.print_gap(out, recording.len())?;
        self.frames.print_rest(out)
    }
}
