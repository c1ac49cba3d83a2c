//! Crashes within saves.
//!
//! A command is done once where no call of the disk fails, and once for each call of its saves with that call failing.
//! Of each run four images that a crash within each of these calls may leave are shown by another command, by how the
//! ranges that wait for a sync are filled, and so is what the file holds in the end. Allowed is what was acknowledged
//! last before the call, and what was begun since.
use crate::world::{World, copied, held};
use disk_model::Fill;
use rows::Case;

// What a range holds after a crash.
const FILLS: [Fill; 4] = [Fill::Old, Fill::New, Fill::Byte(0), Fill::Byte(0xa5)];

// What ends the line of the reply to a save, each request to which has the number 0x53: `I` with that number, and `!`
// with it and `save device`.
const ACKNOWLEDGED: &str = "4953";

const REFUSED: &str = "2153736176652064657669636500";

// How many runs ended with status 0, the marks, how many saves were acknowledged and how many refused by the disk, and
// how many images were shown, and how many of them as what is not allowed.
#[derive(Clone, Copy, Debug, Default)]
struct Tally {
    runs: usize,
    marks: usize,
    acknowledged: usize,
    refused: usize,
    images: usize,
    not_allowed: usize,
}

// What a row says, the images that were shown with the places of what was shown of them, and what is counted.
#[derive(Drop)]
struct Saves {
    run: String,
    show: String,
    first: usize,
    files: String,
    content: Vec<u8>,
    texts: String,
    known: Vec<(Vec<u8>, Option<usize>)>,
    tally: Tally,
}

/// The table of crashes: the command that saves, the one that shows what the store holds, the number of the first call
/// of the disk that is one of a save, the files, the store's file, and what may be shown of it: at first, and after
/// each save.
pub fn crashes(case: &mut Case) {
    let mut saves = Saves {
        run: case.text(),
        show: case.text(),
        first: case.number(),
        files: case.text(),
        content: case.bytes(),
        texts: case.text(),
        known: Vec::new(case.alloc()),
        tally: Tally::default(),
    };
    let calls = saves.run_with(case, usize::MAX);
    for call in saves.first..calls {
        saves.run_with(case, call);
    }
    case.show(&saves.tally);
}

// How many saves had ended before a call: one at each mark, and one with the call that failed.
fn ended(marks: &[usize], failed: usize, call: usize) -> usize {
    let marked = marks.iter().filter(|mark| **mark <= call).count();
    marked.saturating_add(usize::from(failed < call))
}

// Whether what is shown after so many saves is allowed after a crash within this call.
fn is_allowed(marks: &[usize], failed: usize, call: usize, place: usize) -> bool {
    let last = marks.iter().rev().find(|mark| **mark <= call);
    let from = last.map_or(0, |mark| ended(marks, failed, *mark));
    from <= place && place <= ended(marks, failed, call).saturating_add(1)
}

// Adds the number of lines that end so.
fn count_lines(count: &mut usize, text: &str, end: &str) {
    let lines = text.lines().filter(|line| line.ends_with(end)).count();
    *count = count.saturating_add(lines);
}

impl Saves {
    // Runs with this call of the disk failing, shows what crashes leave, and gives how many calls there were.
    fn run_with(&mut self, case: &mut Case, failed: usize) -> usize {
        let plan = format!(in case.alloc(); "d{failed}").unwrap_or(String::new(case.alloc()));
        let Some(mut world) = World::new(case, &plan, &self.files, &self.content, "") else {
            return 0;
        };
        let is_done = world.does(case, &self.run) == 0;
        self.tally.runs = self.tally.runs.saturating_add(usize::from(is_done));
        self.tally.marks = self.tally.marks.saturating_add(world.disk.marks.len());
        count_lines(&mut self.tally.acknowledged, world.text(), ACKNOWLEDGED);
        count_lines(&mut self.tally.refused, world.text(), REFUSED);
        let (disk, marks) = (&world.disk.inner, world.disk.marks.as_slice());
        for call in self.first..disk.calls() {
            for fill in FILLS.as_slice() {
                if let Some(image) = held(case, disk.left(call, *fill)) {
                    self.count(case, image, marks, failed, call);
                }
            }
        }
        let content = copied(case, disk.content());
        self.count(case, content, marks, failed, disk.calls());
        disk.calls()
    }

    // Shows an image, and gives the place of what is shown among the texts.
    fn place_of(&self, case: &mut Case, image: &[u8]) -> Option<usize> {
        let mut world = World::new(case, "", &self.files, image, "")?;
        let is_done = world.does(case, &self.show) == 0;
        let place = self.texts.split('\0').position(|text| text == world.text());
        place.filter(|_| is_done)
    }

    // Counts an image. Images of the same bytes are shown once, since what is shown depends on nothing else.
    fn count(
        &mut self,
        case: &mut Case,
        image: Vec<u8>,
        marks: &[usize],
        failed: usize,
        call: usize,
    ) {
        let known = self.known.iter().find(|known| known.0 == image);
        let place = match known {
            Some((_, place)) => *place,
            None => {
                let place = self.place_of(case, &image);
                held(case, self.known.push((image, place)));
                place
            }
        };
        let is_one = place.is_some_and(|at| is_allowed(marks, failed, call, at));
        self.tally.images = self.tally.images.saturating_add(1);
        self.tally.not_allowed = self.tally.not_allowed.saturating_add(usize::from(!is_one));
    }
}
