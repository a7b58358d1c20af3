// Cycles as they are shown. Where two boards take turns, each line begins with its board's mark; else there is none.
use crate::out::Page;
use crate::tell;
use adder::Work;
use digits::Refusal;
use machine::State;
use run::{Ending, Finished};

// How cycles are shown, as lamps or as lines, and which.
#[derive(Clone, Copy)]
pub struct View {
    pub lamps: bool,
    pub from: u32,
    pub to: u32,
}

#[derive(Drop)]
pub struct Screen<'a> {
    pub view: View,
    pub page: Page<'a>,
}

impl<'a> Screen<'a> {
    pub(crate) fn new(view: View, room: &'a mut [u8]) -> Screen<'a> {
        Screen {
            view,
            page: Page::new(room),
        }
    }

    fn shows(&self, cycle: u32) -> bool {
        (self.view.from <= cycle) & (cycle <= self.view.to)
    }

    // The names of the columns.
    pub(crate) fn heading(&mut self) {
        if !self.view.lamps {
            self.page.write(|room| lamps::header(room));
        }
    }

    // The state before the cycles, which counts as cycle 0.
    pub(crate) fn start(&mut self, mark: &[u8], s: State) {
        if !self.shows(0) {
            return;
        }
        self.page.text(mark);
        if self.view.lamps {
            self.page.write(|room| lamps::start_picture(s, room));
        } else {
            self.page.write(|room| lamps::start(s, room));
        }
    }

    // What stands before the cycles.
    pub fn begin(&mut self, s: State) {
        self.heading();
        self.start(b"", s);
    }

    // The work of the next cycle, where it is shown.
    pub(crate) fn work(&self, cycle: u32, store: &[u64], s: State) -> Option<Work> {
        if self.shows(cycle) {
            machine::next_sum(store, s)
        } else {
            None
        }
    }

    // A cycle that ran, where its work is shown.
    pub(crate) fn cycle(&mut self, mark: &[u8], cycle: u32, at: u16, s: State, work: Option<Work>) {
        let Some(w) = work else {
            return;
        };
        self.page.text(mark);
        if self.view.lamps {
            self.page
                .write(|room| lamps::picture(cycle, at, s, w, room));
        } else {
            self.page.write(|room| lamps::line(cycle, at, s, w, room));
        }
    }

    // What came of a trap that broke into the state.
    pub(crate) fn trap(&mut self, before: State, answer: Result<State, Refusal>) {
        self.page.write(|room| lamps::trapped(before, answer, room));
    }

    // An ending, and the address of the word at which it came.
    pub(crate) fn ending(&mut self, mark: &[u8], ending: Ending, at: u16) {
        self.page.text(mark);
        self.page.write(|room| lamps::ending(ending, at, room));
    }

    // How the run ended. A refusal is told on standard error too.
    pub fn end(&mut self, finished: Finished) {
        if let Ending::Refused(_) = finished.ending {
            tell::line(b"the run was refused");
        }
        self.ending(b"", finished.ending, finished.state.wx);
    }
}
