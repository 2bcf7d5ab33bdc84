// How a job begins, and how fittings are added and dropped.
ghost use Rattle.std.specs.Prelude.{◌≡◌, ◌<◌, true, false, [], Some, None, IfOk};
ghost use Rattle.ways.specs.Few.{members};
ghost use Rattle.job.specs.Day.{adds, drops, verdict, put};
ghost use Rattle.job.specs.Held.{held, Agrees, Did, EveryDay, fault_of, Left};
ghost use Rattle.job.specs.Marks.{marked};
ghost use Rattle.job.specs.Places.{lawful};

use crate::fault::JobFault;
use crate::fitting::{Fitting, Heading};
use crate::job::Job;
use crate::marks::turned;
use crate::places::fitting_of;
use oracle::traits::DistanceOracle;
use ways::few::Few;
use ways::places::first_outside;

impl Job {
    // A job over the oracle's places, at which no fitting stands.
    pub fn new<O: DistanceOracle>(oracle: &O) -> Job
        ensures { Agrees (O.DistanceOracle.meaning oracle.now).count [] result }
    {
        Job::empty(oracle.places())
    }

    // A job of so many places, at which no fitting stands.
    pub(crate) fn empty(places: u32) -> Job
        ensures { Agrees places [] result }
    {
        Job {
            heading: Heading {
                places,
                standing: 0,
            },
            fittings: [Few::new(0); 64],
        }
    }

    // The job begins anew with so many places, and no fitting stands.
    pub fn begin(&mut self, places: u32)
        ensures { Agrees places [] self.new }
    {
        self.heading = Heading {
            places,
            standing: 0,
        };
    }

    // The fitting stands with these places; or a refusal, which changes nothing.
    pub fn add(&mut self, fitting: u32, places: &[u32]) -> Result<(), JobFault>
        ensures did { Did self.old (adds fitting places.now) (fault_of result) self.new }
        ensures left { Left result self.old self.new }
        ensures day { EveryDay self.old (adds fitting places.now) (fault_of result) self.new }
    {
        let entry = self.check_add(fitting, places)?;
        self.enter(fitting, entry);
        Ok(())
    }

    // The fitting stands no more; or a refusal, which changes nothing.
    pub fn drop(&mut self, fitting: u32) -> Result<(), JobFault>
        ensures did { Did self.old (drops fitting) (fault_of result) self.new }
        ensures left { Left result self.old self.new }
        ensures day { EveryDay self.old (drops fitting) (fault_of result) self.new }
    {
        self.check_drop(fitting)?;
        self.leave(fitting);
        Ok(())
    }

    // The fitting that an add stores; or a refusal by the first check that fails.
    fn check_add(&self, fitting: u32, places: &[u32]) -> Result<Fitting, JobFault>
        ensures checked { fault_of result ≡ verdict self.now.heading.places (held self.now) (adds fitting places.now) }
        ensures entry { IfOk result (λ x. members x ≡ places.now) }
    {
        if fitting > 63 {
            return Err(JobFault::Number);
        }
        let entry = fitting_of(places).ok_or(JobFault::Places { fitting })?;
        if let Some(place) = first_outside(self.heading.places, places) {
            return Err(JobFault::NoPlace { place });
        }
        if self.stands(fitting) {
            return Err(JobFault::Stands { fitting });
        }
        Ok(entry)
    }

    // Refuses a drop by the first check that fails.
    fn check_drop(&self, fitting: u32) -> Result<(), JobFault>
        ensures { fault_of result ≡ verdict self.now.heading.places (held self.now) (drops fitting) }
    {
        if fitting > 63 {
            return Err(JobFault::Number);
        }
        if !self.stands(fitting) {
            return Err(JobFault::Absent { fitting });
        }
        Ok(())
    }

    // Stores a fitting that does not stand, and marks it.
    fn enter(&mut self, fitting: u32, entry: Fitting)
        requires number { fitting < 64 }
        requires free { marked self.old.heading.standing fitting ≡ false }
        requires lawful { lawful self.old.heading.places (members entry) ≡ true }
        ensures places { self.new.heading.places ≡ self.old.heading.places }
        ensures holds { held self.new ≡ put (held self.old) fitting (Some (members entry)) }
    {
        self.fittings[fitting as usize] = entry;
        self.heading.standing = turned(self.heading.standing, fitting);
    }

    // Takes the mark of a standing fitting away.
    fn leave(&mut self, fitting: u32)
        requires { marked self.old.heading.standing fitting ≡ true }
        ensures places { self.new.heading.places ≡ self.old.heading.places }
        ensures holds { held self.new ≡ put (held self.old) fitting None }
    {
        let word = self.heading.standing;
        self.heading.standing = turned(word, fitting);
    }
}
