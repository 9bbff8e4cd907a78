// Lists of readings, read as section effects.
ghost use Rattle.std.specs.Prelude.{◌≡◌, T, map, length, None};
ghost use Rattle.std.specs.List.{All};
ghost use Rattle.readings.specs.Rounded.{EachRounded};
ghost use Rattle.readings.specs.Readings.{all_readable, section_of, first_unreadable, said, all_read, reading};

use crate::number::{is_readable, nearest_whole};
use effects::section::Section;

// What the solver delivers at one point: axial force, moment and shear.
#[derive(Clone, Copy)]
pub struct Reading {
    pub axial: f64,
    pub moment: f64,
    pub shear: f64,
}

// Why a list of readings is not read.
#[derive(Clone, Copy, PartialEq, Eq, Debug)]
pub enum ReadingRefusal {
    // not as many places as readings
    PlacesDiffer,
    // the reading at this place, from 0, is the first with a number that is not finite or of magnitude above 10^9
    OutOfRange(usize),
}

impl Reading {
    fn is_readable(&self) -> bool
        ensures { result ≡ all_readable self.now }
    {
        is_readable(self.axial) && is_readable(self.moment) && is_readable(self.shear)
    }

    // No From, which cannot ask that the reading is readable.
    fn section(&self) -> Section
        requires { T (all_readable self.now) }
        ensures { result ≡ section_of self.now }
    {
        Section {
            axial: nearest_whole(self.axial),
            moment: nearest_whole(self.moment),
            shear: nearest_whole(self.shear),
        }
    }
}

// The place of the first reading that is not readable.
fn first_unreadable(readings: &[Reading]) -> Option<usize>
    ensures place { result ≡ first_unreadable readings.now }
    ensures readable { result ≡ None → All (λ x. T (all_readable x)) readings.now }
{
    readings.iter().position(|reading| !reading.is_readable())
}

// Each reading's section effect into its place.
// By index: a proof does not know what a zip over `places.iter_mut()` has written.
fn fill(readings: &[Reading], places: &mut [Section])
    requires places { length readings.now ≡ length places.old }
    requires readable { All (λ x. T (all_readable x)) readings.now }
    ensures { places.new ≡ map section_of readings.now }
{
    for (i, reading) in readings.iter().enumerate() {
        places[i] = reading.section();
    }
}

// Reads each reading into its place. A refusal leaves the places as they were.
#[tactic(auto, using(crate::proofs::Nearness::each_rounded))]
pub fn read_all(readings: &[Reading], places: &mut [Section]) -> Result<(), ReadingRefusal>
    ensures outcome { (said result, places.new) ≡ reading readings.now places.old }
    ensures rounded { said result ≡ all_read → EachRounded readings.now places.new }
{
    if readings.len() != places.len() {
        return Err(ReadingRefusal::PlacesDiffer);
    }
    if let Some(place) = first_unreadable(readings) {
        return Err(ReadingRefusal::OutOfRange(place));
    }
    fill(readings, places);
    Ok(())
}
