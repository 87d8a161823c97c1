// The images that a crash may leave are mounted, and looked at.
ghost use Rattle.std.specs.Prelude.{◌≡◌, false};
ghost use Rattle.dn_volume.specs.Agrees.{Agrees};

use crate::contents::has_files;
use crate::courses::Mark;
use crate::opening::open;
use crate::shares::is_at_rest;
use dn_files::Files;
use dn_volume::Volume;
use fingerprint::Fingerprint;
use pm_device::{MemPm, Pm};
use std::alloc::{AllocError, Global};
use std::process::Abort;
use std::test::Fail;

// How many images are looked at of each moment.
pub const PICKS: u64 = 8;

// How many of each moment of a mount: those with the first values, the last values and a mixture.
pub const FEW_PICKS: u64 = 3;

// An image is compared with so many that were mounted before.
const FEW: usize = 24;

// A device on which operations were run, when they were answered, and the files before them and after each.
#[derive(Clone, Copy)]
pub struct Trial<'a> {
    pub device: &'a MemPm,
    pub marks: &'a [Mark],
    pub files: &'a [Files],
    pub picks: u64,
}

// An image that was mounted, and after how many operations its files are.
#[derive(Drop)]
pub struct Known {
    pub image: Vec<u64>,
    pub place: usize,
}

// How many of these operations were answered at this moment.
fn answered(marks: &[Mark], moment: u64) -> usize {
    marks.iter().filter(|mark| mark.answered <= moment).count()
}

// How many of these operations an image of this moment may have.
fn begun(marks: &[Mark], moment: u64) -> usize {
    marks.iter().filter(|mark| mark.begun < moment).count()
}

// The first of these places at which the files are those of the volume.
fn place_of<D: Pm, F: Fingerprint>(
    alloc: Global,
    v: &Volume<D, F>,
    files: &[Files],
    places: (usize, usize),
) -> Result<Option<usize>, AllocError>
    requires agrees { Agrees D.state v.now }
    requires running { v.now.parts.stopped ≡ false }
{
    for place in places.0..=places.1 {
        if let Some(files) = files.get(place) {
            if has_files(alloc, v, files)? {
                return Ok(Some(place));
            }
        }
    }
    Ok(None)
}

// The place of the last of these that is this image, if it lies between these.
fn known_place(known: &[Known], image: &[u64], places: (usize, usize)) -> Option<usize> {
    let few = known.len().saturating_sub(FEW);
    for one in known[few..].iter().rev() {
        if places.0 <= one.place && one.place <= places.1 && one.image.as_slice() == image {
            return Some(one.place);
        }
    }
    None
}

// Mounts an image, which has no fault. Its words are at rest then. Answers the first of these places at which the files
// are those of the volume.
fn mounted_place<F: Fingerprint + Drop>(
    rt: &impl Abort,
    alloc: Global,
    image: &[u64],
    files: &[Files],
    places: (usize, usize),
    print: F,
) -> Result<Option<usize>, Fail> {
    let v = open(rt, alloc, Vec::from_slice(alloc, image)?, print)?;
    is_at_rest(rt, alloc, &v)?;
    Ok(place_of(alloc, &v, files, places)?)
}

// Forgets an image where there are more than those with which others are compared.
pub fn forget(known: &mut Vec<Known>) {
    if known.len() > FEW {
        let _ = known.remove(0);
    }
}

impl Trial<'_> {
    // An image of a moment has the files after so many operations as there may be. The same image isn't mounted again.
    pub fn look<F: Fingerprint + Copy + Drop>(
        &self,
        rt: &impl Abort,
        alloc: Global,
        at: (u64, u64),
        known: &mut Vec<Known>,
        print: F,
    ) -> Result<(), Fail> {
        assert!(rt; at.0 <= self.device.moment());
        let image = self.device.image_at(alloc, at.0, at.1)?;
        let places = (answered(self.marks, at.0), begun(self.marks, at.0));
        if known_place(known, &image, places).is_some() {
            return Ok(());
        }
        match mounted_place(rt, alloc, &image, self.files, places, print)? {
            Some(place) => known.push(Known { image, place })?,
            None => assert!(rt; false, "other files than {places:?} at {at:?}"),
        }
        Ok(())
    }

    // All picks of a moment.
    pub fn look_at<F: Fingerprint + Copy + Drop>(
        &self,
        rt: &impl Abort,
        alloc: Global,
        moment: u64,
        known: &mut Vec<Known>,
        print: F,
    ) -> Result<(), Fail> {
        for pick in 0..self.picks {
            self.look(rt, alloc, (moment, pick), known, print)?;
        }
        Ok(())
    }

    // Mounts the images of all moments, and answers them.
    pub fn look_all<F: Fingerprint + Copy + Drop>(
        &self,
        rt: &impl Abort,
        alloc: Global,
        print: F,
    ) -> Result<Vec<Known>, Fail> {
        let mut known = Vec::new(alloc);
        for moment in 0..=self.device.moment() {
            self.look_at(rt, alloc, moment, &mut known, print)?;
        }
        Ok(known)
    }
}

// Mounts an image once more, and the images of all moments of that mount. They have the same files. Answers how many
// there were.
pub fn look_again<F: Fingerprint + Copy + Drop>(
    rt: &impl Abort,
    alloc: Global,
    one: &Known,
    files: &[Files],
    print: F,
) -> Result<usize, Fail> {
    let Some(files) = files.get(one.place..) else {
        return Err(Fail::from("no files"));
    };
    let v = open(rt, alloc, Vec::from_slice(alloc, &one.image)?, print)?;
    let device = v.into_device();
    let trial = Trial {
        device: &device,
        marks: &[],
        files,
        picks: FEW_PICKS,
    };
    Ok(trial.look_all(rt, alloc, print)?.len())
}
