// Adds, drops and refusals on a job of five places.
use crate::fault::JobFault;
use crate::job::Job;
use faults::layer::Layer;
use faults::refusal::Refusal;
use std::test::Fail;

#[test]
fn adds_and_drops(rt: HostRuntime) -> Result<(), Fail> {
    let mut job = Job::empty(5);
    job.add(2, &[1, 3])?;
    job.add(0, &[0, 4])?;
    job.add(1, &[2])?;
    assert_eq!(rt; job.count(), 3);
    assert!(rt; job.places_of(2) == Some([1, 3].as_slice()));
    job.drop(2)?;
    assert!(rt; !job.stands(2));
    assert_eq!(rt; job.listed().as_slice().len(), 2);
    job.begin(9);
    assert_eq!(rt; (job.places(), job.count()), (9, 0));
    Ok(())
}

#[test]
fn refuses_in_order(rt: HostRuntime) -> Result<(), Fail> {
    let mut job = Job::empty(5);
    job.add(7, &[0])?;
    assert_eq!(rt; job.add(64, &[]), Err(JobFault::Number));
    assert_eq!(rt; job.add(7, &[9, 9]), Err(JobFault::Places { fitting: 7 }));
    assert_eq!(rt; job.add(7, &[4, 5, 6]), Err(JobFault::NoPlace { place: 5 }));
    assert_eq!(rt; job.add(7, &[1]), Err(JobFault::Stands { fitting: 7 }));
    assert_eq!(rt; job.drop(64), Err(JobFault::Number));
    assert_eq!(rt; job.drop(6), Err(JobFault::Absent { fitting: 6 }));
    assert_eq!(rt; job.count(), 1);
    let fault = JobFault::Absent { fitting: 6 };
    assert_eq!(rt; (fault.number(), fault.spot()), (33, 6));
    assert_eq!(rt; fault.layer(), Layer::Job);
    Ok(())
}
